//! A node as a machine that handles frames and has a log.
use super::Node;
use frames::Frame;
use node_effects::{Effects, Machine, NodeError, RecoveryError, Report, Work};
use node_log::Entry;
use node_strings::read_record;

impl Machine for Node {
    ghost use Rattle.node.specs.Failures.{Fails};
    ghost use Rattle.node.specs.FitNodes.{IsByteFrame, IsFitNode};
    ghost use Rattle.node.specs.Handles.{Handles};
    ghost use Rattle.std.specs.Prelude.{IfErr, IfOk, OnOk};
    ghost use Rattle.node.specs.Recovering.{CarriesOutEntry, Notes, RefusesEntry, Tells};

    ghost carries_out = { CarriesOutEntry };

    ghost handles = { Handles };

    ghost fails = { Fails };

    ghost notes = { Notes };

    ghost tells = { Tells };

    /// Carries out the next entry of the node's log again, and sends nothing.
    ///
    /// After all entries, the node has its banks and its open moves again, and none of its reads and writes. It may
    /// have forgotten layouts of which it heard only from letters that are not in the log. The node that moves objects
    /// has forgotten none.
    ///
    /// Fails with `NoCluster` if the first entry names no cluster, with `OtherCluster` or `OtherNode` if it names
    /// another cluster or another node, with `NoEntry` if no node makes such an entry, and with `Stopped` for
    /// `NoMemory`, `NoMoreIds` or the refusal of a move.
    fn recover(&mut self, entry: Entry) -> Result<(), RecoveryError>
        ensures carried_out { OnOk result (CarriesOutEntry self.old entry self.new) }
        ensures refused { IfErr result (RefusesEntry self.old entry) }
    {
        let Ok(strings) = Frame::new(entry.into_strings()) else {
            return Err(RecoveryError::NoEntry);
        };
        match read_record(strings) {
            Some(it) => self.recover_record(it),
            None => Err(RecoveryError::NoEntry),
        }
    }

    /// Handles a frame that has come, whose first string is its address. The node handles its letters to itself before
    /// this returns.
    ///
    /// Fails with `NoMemory`, with `NoMoreIds` if there is no id for a call, or with `Unwritable` if something that is
    /// to be written does not fit. It never fails with `Refused`. A fit node is fit after it has handled a frame of
    /// bytes.
    fn handle(&mut self, frame: Frame) -> Result<Effects, NodeError>
        ensures handled { IfOk result (λ effects. Handles self.old frame effects self.new) }
        ensures refused { IfErr result (Fails self.old frame) }
        ensures fit { OnOk result (IsFitNode self.old → IsByteFrame frame → IsFitNode self.new) }
    {
        let number = self.keeper.number();
        let mut work = Work::new(self.alloc);
        self.take_frame(frame, &mut work)?;
        self.finish(number, &mut work)?;
        Ok(work.into_effects())
    }

    /// Notes the length of the log, in bytes, for `INFO`. Returns the first node with another cluster file of which
    /// nobody was told yet, if there is one.
    fn begin_round(&mut self, log_bytes: u64) -> Option<Report> {
        self.desk.counts.log_bytes = log_bytes;
        self.peers.next_report()
    }
}
