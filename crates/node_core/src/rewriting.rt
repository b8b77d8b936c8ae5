//! The log of a core, written anew.
ghost use Rattle.std.specs.Prelude.{◌≡◌, true, IfErr, IfOk, IsTrue, OnErr};
ghost use Rattle.node_store.specs.Rewriting.{HasGrown};
ghost use Rattle.node_core.specs.Rewriting.{HasKept, HasLogAnew, IsNotAnew};
ghost use Rattle.node_core.specs.declared.error.CoreError.TheVariants.{Stopped};

use crate::embedded::NodeCore;
use crate::error::CoreError;
use frames::Gathered;
use node_store::{LogEnd, has_grown, is_worth_rewriting, push_entries};

impl NodeCore {
    /// Whether the log has grown so much since this was last asked that it is worth writing anew.
    ///
    /// It takes time linear in the number of tags, but only if the log has doubled, and has 16 MiB more.
    pub fn should_rewrite(&mut self) -> bool
        ensures grown { IsTrue result → HasGrown self.old.asked self.old.end.length }
        ensures same { self.new ≡ record self.old { asked = self.new.asked } }
    {
        if self.is_stopped || !has_grown(self.asked, self.end.length) {
            return false;
        }
        self.asked = self.end.length;
        is_worth_rewriting(self.end.length, self.node.needed_bytes())
    }

    /// Returns the bytes of a new log, which gives back what the node keeps now; or none if the log may not be written
    /// anew now, because a move is open here.
    ///
    /// All steps so far are carried out when this is called. The program then writes the bytes to a second file and
    /// syncs it, gives it the name of the log, and syncs the folder. It does so before it hands over any further frame,
    /// or calls `keep_log` if it has not renamed the file.
    ///
    /// Fails with `Refused` or `NoMemory` if memory is refused, and then changes nothing. Fails with `Stopped` if the
    /// core has stopped.
    pub fn log_anew(&mut self) -> Result<Option<Gathered>, CoreError>
        ensures anew { IfOk result (HasLogAnew self.old self.new) }
        ensures same { OnErr result (self.new ≡ self.old) }
        ensures refused { IfErr result (IsNotAnew self.old) }
        ensures over { self.old.is_stopped ≡ true → result ≡ Err Stopped }
    {
        if self.is_stopped {
            return Err(CoreError::Stopped);
        }
        let entries = match self.node.entries_anew() {
            Ok(Some(entries)) => entries,
            Ok(None) => return Ok(None),
            Err(error) => return Err(CoreError::Refused(error)),
        };
        let mut bytes = Gathered::new(self.alloc);
        let mut chain = LogEnd::new().chain;
        if push_entries(&mut bytes, &mut chain, &entries).is_err() {
            return Err(CoreError::NoMemory);
        }
        let end = LogEnd {
            length: bytes.len() as u64,
            chain,
        };
        self.former = Some(self.end);
        self.end = end;
        self.asked = end.length;
        Ok(Some(bytes))
    }

    /// Goes on with the old log, because the new one, which `log_anew` gave last, was not put in its place. Returns
    /// whether it did: it does not if a frame was handled since.
    pub fn keep_log(&mut self) -> bool
        ensures { HasKept self.old self.new result }
    {
        match self.former {
            Some(end) => {
                self.end = end;
                self.asked = end.length;
                self.former = None;
                true
            }
            None => false,
        }
    }
}
