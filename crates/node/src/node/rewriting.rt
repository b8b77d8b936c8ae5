//! The entry that names the cluster and the node, and the node's log, written anew.
ghost use Rattle.std.specs.Prelude.{◌≡◌, ◌↔◌, ◌∷◌, ◌++◌, [], IfErr, IfOk, IsTrue, MatchOption, OnOk};
ghost use Rattle.node_log.specs.Entry.{IsEntry};
ghost use Rattle.recoveries.specs.RewritingNodes.{CanBeWrittenAnew};
ghost use Rattle.node_effects.specs.Errors.{IsUnwritten, WritesOrFails};
ghost use Rattle.node_effects.specs.Work.{IsGrown};
ghost use Rattle.node_keeper.specs.Keeping.{kept_of};
ghost use Rattle.node.specs.Anew.{AreAnew, CanHoldAnew};
ghost use Rattle.node.specs.Starts.{CanBeNamed, HasMoreEpochs, cluster_entry, cluster_strings, name_growth};

use super::Node;
use node_effects::{NodeError, Work};
use node_keeper::push_entry;
use node_log::Entry;
use node_strings::Record;

// The number of epochs of a node's ids.
const EPOCHS: u32 = 1 << 24;

impl Node {
    /// The entries of a log that is written anew, which gives back what the node keeps now. None if the log may not be
    /// written anew now: a move is open here, or a position has no next one.
    ///
    /// `NoMemory`. `Unwritable` if an entry is too long, which none is that a node makes.
    pub fn entries_anew(&self) -> Result<Option<Vec<Entry>>, NodeError>
        ensures anew { IfOk result (λ entries. MatchOption entries (CanBeWrittenAnew (kept_of self.now.keeper) → ⊥)
            (λ them. AreAnew self.now them.items)) }
        ensures refused { IfErr result (IsUnwritten (CanHoldAnew self.now)) }
    {
        if !self.keeper.may_rewrite() {
            return Ok(None);
        }
        let mut entries = Vec::new(self.alloc);
        self.push_cluster(&mut entries)?;
        self.keeper.log_anew(&mut entries)?;
        Ok(Some(entries))
    }

    /// About how many bytes a log would have that is written anew. This is an estimate, by which a host may decide when
    /// to write the log anew; no promise depends on it. It takes time linear in the number of tags.
    pub fn needed_bytes(&self) -> u64 {
        self.keeper.needed_bytes()
    }

    /// Returns whether there is one more epoch, with which the node can start. A host asks this before it writes the
    /// log of a node anew that has not been started.
    pub fn has_more_epochs(&self) -> bool
        ensures { IsTrue result ↔ HasMoreEpochs self.now.keeper.ids }
    {
        self.keeper.ids.epoch() < EPOCHS - 1
    }

    // Appends the entry that names the cluster and the node.
    fn push_cluster(&self, entries: &mut Vec<Entry>) -> Result<(), NodeError>
        ensures appended { OnOk result (entries.new.items
            ≡ entries.old.items ++ cluster_entry self.now.keeper.digest self.now.keeper.ids.node ∷ []) }
        ensures writes { WritesOrFails
            (IsEntry (cluster_strings self.now.keeper.digest self.now.keeper.ids.node)) result }
    {
        let it = Record::Cluster {
            digest: self.keeper.digest,
            node: self.keeper.number(),
        };
        push_entry(self.alloc, entries, &it)
    }

    // A new log gets the entry that names the cluster and the node.
    pub(super) fn name_log(&mut self, work: &mut Work) -> Result<(), NodeError>
        ensures grown { OnOk result (IsGrown work.old work.new (name_growth self.old)) }
        ensures named { OnOk result (CanBeNamed self.old) }
        ensures keeper { self.new.keeper ≡ self.old.keeper }
        ensures desk { self.new.desk ≡ self.old.desk }
        ensures refused { IfErr result (IsUnwritten
            (IsEntry (cluster_strings self.old.keeper.digest self.old.keeper.ids.node))) }
    {
        if self.is_named {
            return Ok(());
        }
        let it = Record::Cluster {
            digest: self.keeper.digest,
            node: self.keeper.number(),
        };
        work.log(&it)?;
        self.is_named = true;
        Ok(())
    }
}
