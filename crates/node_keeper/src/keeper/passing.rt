//! Banks of positions before an object's start, which the node closes after each letter that it heeds.
ghost use Rattle.std.specs.Prelude.{◌≡◌, ◌∷◌, ◌+◌, ◌<◌, ◌^◌, [], ℕ, IfSome, OnOk};
ghost use Rattle.std.specs.List.{AllByRecursion};
ghost use Rattle.node_effects.specs.Errors.{WritesOrFails};
ghost use Rattle.node_effects.specs.Work.{IsGrown, one_entry};
ghost use Rattle.object_letters.specs.Raising.{raising_letter};
ghost use Rattle.recoveries.specs.Records.{LogRecord};
ghost use Rattle.node_keeper.specs.Acts.{Acts, logged_growth};
ghost use Rattle.node_keeper.specs.Closing.{CanClosePassed, ClosesPassed, PassesBank, RaisesBank, passed_records};
ghost use Rattle.node_keeper.specs.Closing.{raised_records};
ghost use Rattle.node_keeper.specs.Fitting.{IsLoggable};
ghost use Rattle.node_keeper.specs.Logging.{log_entry_of};
ghost use Rattle.node_keeper.specs.Objects.{objects_of};

use super::Keeper;
use crate::entries::log_record;
use crate::post::framed_letter;
use bytes::Bytes;
use letter::{Letter, NamedLetter};
use node_effects::{NodeError, Work};
use node_strings::Record;

impl Keeper {
    // Closes each open bank of the object of this name at a position before the object's start, if its pointer is
    // final. If it is not, the node first raises it to final, if it can.
    pub(crate) fn close_passed(&mut self, name: &Bytes, work: &mut Work) -> Result<(), NodeError>
        ensures acts { OnOk result ((asker : ℕ) → Acts asker [] self.old work.old self.new work.new) }
        ensures closes { OnOk result (ClosesPassed name.now self.old work.old self.new work.new) }
        ensures writes { WritesOrFails
            (CanClosePassed self.old.digest name.now (objects_of self.old.objects name.now)) result }
    {
        let positions = self.objects.passed_positions(name)?;
        for position in positions {
            self.pass(name, position, work)?;
        }
        Ok(())
    }

    // Raises the pointer of the node's bank of a position of the object of this name to final, if the node can do so;
    // and then closes the bank, if its pointer is final.
    fn pass(&mut self, name: &Bytes, position: u32, work: &mut Work) -> Result<(), NodeError>
        ensures acts { OnOk result ((asker : ℕ) → Acts asker [] self.old work.old self.new work.new) }
        ensures passes { OnOk result (PassesBank name.now position self.old work.old self.new work.new) }
        ensures writes { WritesOrFails (AllByRecursion (IsLoggable self.old.digest)
            (passed_records name.now (objects_of self.old.objects name.now) position)) result }
    {
        self.raise(name, position, work)?;
        self.close(name, position, work)
    }

    // Raises the pointer of the node's bank of a position of the object of this name to final, if the node can do so.
    // The letter with which the node asks itself for this goes to the log first.
    fn raise(&mut self, name: &Bytes, position: u32, work: &mut Work) -> Result<(), NodeError>
        ensures acts { OnOk result ((asker : ℕ) → Acts asker [] self.old work.old self.new work.new) }
        ensures raises { OnOk result (RaisesBank name.now position self.old work.old self.new work.new) }
        ensures writes { WritesOrFails (AllByRecursion (IsLoggable self.old.digest)
            (raised_records name.now (objects_of self.old.objects name.now) position)) result }
    {
        self.log_raise(name, position, work)?;
        self.objects.raise(name, position)?;
        Ok(())
    }

    // The letter with which the node asks itself to raise the pointer of its bank of a position of the object of this
    // name goes to the log as one that it serves, if the node can raise the pointer.
    fn log_raise(&self, name: &Bytes, position: u32, work: &mut Work) -> Result<(), NodeError>
        ensures logged { OnOk result (IsGrown work.old work.new (logged_growth self.now.digest
            (raised_records name.now (objects_of self.now.objects name.now) position))) }

        ensures next { OnOk result (IfSome (raising_letter (objects_of self.now.objects name.now) position)
            (λ letter. position + 1 < 2 ^ 32)) }

        ensures writes { WritesOrFails (AllByRecursion (IsLoggable self.now.digest)
            (raised_records name.now (objects_of self.now.objects name.now) position)) result }
    {
        match self.objects.raising_letter(name, position)? {
            Some(letter) => self.log_raising(name, letter, work),
            None => Ok(()),
        }
    }

    // A letter about the object of this name goes to the log as one that the node serves.
    fn log_raising(&self, name: &Bytes, letter: Letter, work: &mut Work) -> Result<(), NodeError>
        ensures logged { OnOk result (IsGrown work.old work.new
            (one_entry (log_entry_of self.now.digest (LogRecord.Serves name.now letter)))) }
        ensures writes { WritesOrFails
            (IsLoggable self.now.digest (LogRecord.Serves name.now letter)) result }
    {
        let name = name.clone()?;
        let frame = framed_letter(self.alloc, self.digest, NamedLetter { name, letter })?;
        log_record(work, Record::Serve(frame))
    }
}
