//! Banks that the node closes.
ghost use Rattle.std.specs.Prelude.{◌≡◌, ◌∷◌, ◌++◌, [], map, IfErr, IfOk, OnOk};
ghost use Rattle.std.specs.List.{AllByRecursion};
ghost use Rattle.node_effects.specs.Errors.{WritesOrFails};
ghost use Rattle.node_effects.specs.Work.{IsGrown, one_entry};
ghost use Rattle.node_effects.specs.declared.error.NodeError.TheVariants.{NoMemory};
ghost use Rattle.node_strings.specs.declared.record.Record.TheVariants as record_of;
ghost use Rattle.recoveries.specs.Records.{LogRecord};
ghost use Rattle.recoveries.specs.RewrittenRecords.{close_records, closes_records};
ghost use Rattle.node_keeper.specs.Acts.{logged_growth};
ghost use Rattle.node_keeper.specs.Closing.{ClosesBank, closed_records};
ghost use Rattle.node_keeper.specs.Fitting.{IsLoggable};
ghost use Rattle.node_keeper.specs.Logging.{log_entry_of};
ghost use Rattle.node_keeper.specs.Objects.{objects_of};

use super::Keeper;
use crate::entries::{log_record, push_entry};
use bytes::Bytes;
use local_object::{KeptBank, Place};
use node_effects::{NodeError, Work};
use node_log::Entry;
use node_strings::Record;

impl Keeper {
    // Closes the node's bank of a position of the object of this name, if that is open, and its pointer is final. It
    // goes to the log first.
    pub(crate) fn close(
        &mut self,
        name: &Bytes,
        position: u32,
        work: &mut Work,
    ) -> Result<(), NodeError>
        ensures closes { OnOk result (ClosesBank name.now position self.old work.old self.new work.new) }
        ensures writes { WritesOrFails (AllByRecursion (IsLoggable self.old.digest)
            (closed_records name.now (objects_of self.old.objects name.now) position)) result }
    {
        self.log_close(name, position, work)?;
        let _closed = self.objects.close(name, position);
        Ok(())
    }

    // The node's bank of a position of the object of this name goes to the log as one that the node closes, if the node
    // can close it.
    fn log_close(&self, name: &Bytes, position: u32, work: &mut Work) -> Result<(), NodeError>
        ensures logged { OnOk result (IsGrown work.old work.new (logged_growth self.now.digest
            (closed_records name.now (objects_of self.now.objects name.now) position))) }

        ensures writes { WritesOrFails (AllByRecursion (IsLoggable self.now.digest)
            (closed_records name.now (objects_of self.now.objects name.now) position)) result }
    {
        if !self.objects.can_close(name, position) {
            return Ok(());
        }
        self.log_closing(name, position, work)
    }

    // That the node closes its bank of a position of the object of this name goes to the log.
    fn log_closing(&self, name: &Bytes, position: u32, work: &mut Work) -> Result<(), NodeError>
        ensures logged { OnOk result (IsGrown work.old work.new
            (one_entry (log_entry_of self.now.digest (LogRecord.Closes name.now position)))) }
        ensures writes { WritesOrFails
            (IsLoggable self.now.digest (LogRecord.Closes name.now position)) result }
    {
        log_record(work, close_record(name, position)?)
    }

    // Appends the entries of those of these places of the object of this name whose banks are closed.
    pub(crate) fn log_closes(
        &self,
        name: &Bytes,
        places: &[Place],
        entries: &mut Vec<Entry>,
    ) -> Result<(), NodeError>
        ensures appended { OnOk result (entries.new.items ≡ entries.old.items
            ++ map (log_entry_of self.now.digest) (closes_records name.now places.now)) }
        ensures writes { WritesOrFails
            (AllByRecursion (IsLoggable self.now.digest) (closes_records name.now places.now)) result }
    {
        for place in places {
            self.log_closed(name, place, entries)?;
        }
        Ok(())
    }

    // Appends the entry of a place, if its bank is closed.
    fn log_closed(
        &self,
        name: &Bytes,
        place: &Place,
        entries: &mut Vec<Entry>,
    ) -> Result<(), NodeError>
        ensures appended { OnOk result (entries.new.items ≡ entries.old.items
            ++ map (log_entry_of self.now.digest) (close_records name.now place.now)) }
        ensures writes { WritesOrFails
            (AllByRecursion (IsLoggable self.now.digest) (close_records name.now place.now)) result }
    {
        match place.bank() {
            Some(KeptBank::Closed(_)) => self.push_close(name, place.position(), entries),
            Some(KeptBank::Open(_)) | None => Ok(()),
        }
    }

    // Appends the entry that the node closes its bank of a position of the object of this name.
    fn push_close(
        &self,
        name: &Bytes,
        position: u32,
        entries: &mut Vec<Entry>,
    ) -> Result<(), NodeError>
        ensures appended { OnOk result (entries.new.items
            ≡ entries.old.items ++ log_entry_of self.now.digest (LogRecord.Closes name.now position) ∷ []) }
        ensures writes { WritesOrFails
            (IsLoggable self.now.digest (LogRecord.Closes name.now position)) result }
    {
        push_entry(self.alloc, entries, &close_record(name, position)?)
    }
}

// The record that the node closed its bank of a position of the object of this name.
fn close_record(name: &Bytes, position: u32) -> Result<Record, NodeError>
    ensures made { IfOk result (λ it. it ≡ record_of.Close position name.now) }
    ensures refused { IfErr result (λ e. e ≡ NoMemory) }
{
    let name = name.clone()?;
    Ok(Record::Close { position, name })
}
