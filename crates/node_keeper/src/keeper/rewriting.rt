//! What the log has to hold if it is written anew.
ghost use Rattle.std.specs.Prelude.{◌≡◌, ◌∷◌, ◌++◌, ◌↔◌, [], ℕ, true, map, slice_get, IsTrue, List, MatchOption, OnOk};
ghost use Rattle.std.specs.Prelude.{IfErr, IfOk, Some};
ghost use Rattle.std.specs.List.{AllByRecursion};
ghost use Rattle.object_letters.specs.Leading.{can_be_led_to};
ghost use Rattle.recoveries.specs.Records.{LogRecord};
ghost use Rattle.recoveries.specs.RewrittenRecords.{epoch_records, place_records, places_records};
ghost use Rattle.recoveries.specs.RewrittenRecords.{records_of_name};
ghost use Rattle.recoveries.specs.RewritingNodes.{AreHeardNames, CanBeWrittenAnew, HasOwnObjects};
ghost use Rattle.node_effects.specs.Errors.{WritesOrFails};
ghost use Rattle.node_effects.specs.declared.error.NodeError.TheVariants.{NoMemory};
ghost use Rattle.node_strings.specs.declared.record.Record.TheVariants as record_of;
ghost use Rattle.node_keeper.specs.Objects.{heard_names, objects_of};
ghost use Rattle.node_keeper.specs.Anew.{anew_records, name_records, object_records_of};
ghost use Rattle.node_keeper.specs.Fitting.{IsLoggable};
ghost use Rattle.node_keeper.specs.Keeping.{kept_of};
ghost use Rattle.node_keeper.specs.Logging.{IsReadBack, log_entry_of};

use super::Keeper;
use crate::entries::push_entry;
use crate::post::framed_letter;
use bytes::Bytes;
use layout::Layout;
use letter::{Letter, NamedLetter};
use local_object::{LocalObject, Place};
use node_effects::NodeError;
use node_log::Entry;
use node_strings::Record;
use object_letters::{can_be_led_to, letters_of};

impl Keeper {
    /// Whether the log may be written anew: no move is open, and each position has a next one.
    pub fn may_rewrite(&self) -> bool
        ensures { IsTrue result ↔ CanBeWrittenAnew (kept_of self.now) }
    {
        for index in 0..self.objects.count() {
            if !self.is_led_to(index) {
                return false;
            }
        }
        true
    }

    // Whether letters can lead back to the object at this place, if the node has heard of so many.
    fn is_led_to(&self, index: usize) -> bool
        ensures { MatchOption (slice_get (heard_names self.now.objects) index) (result ≡ true)
            (λ name. result ≡ can_be_led_to (objects_of self.now.objects name)) }
    {
        match self.objects.named(index) {
            Some((_, object)) => can_be_led_to(object),
            None => true,
        }
    }

    /// Appends the entries of a log that is written anew, behind the one that names the cluster and the node: those of
    /// the epochs that have begun, and for each object those of the positions that the node has heard of, those of the
    /// letters that lead to its banks, and those of the banks that are closed.
    ///
    /// `NoMemory`. `Unwritable` if a letter is no message.
    pub fn log_anew(&self, entries: &mut Vec<Entry>) -> Result<(), NodeError>
        ensures appended { OnOk result (entries.new.items
            ≡ entries.old.items ++ map (log_entry_of self.now.digest) (anew_records self.now)) }
        ensures names { OnOk result
            (HasOwnObjects (kept_of self.now) → AreHeardNames (kept_of self.now) (heard_names self.now.objects)) }
        ensures read { OnOk result (AllByRecursion (IsReadBack self.now.digest) (anew_records self.now)) }
        ensures writes { WritesOrFails (AllByRecursion (IsLoggable self.now.digest) (anew_records self.now)) result }
    {
        self.log_epochs(entries)?;
        self.log_objects(entries)
    }

    // Appends the entries of the epochs that have begun.
    fn log_epochs(&self, entries: &mut Vec<Entry>) -> Result<(), NodeError>
        ensures appended { OnOk result (entries.new.items
            ≡ entries.old.items ++ map (log_entry_of self.now.digest) (epoch_records self.now.ids.epoch)) }
        ensures writes { WritesOrFails
            (AllByRecursion (IsLoggable self.now.digest) (epoch_records self.now.ids.epoch)) result }
    {
        for _epoch in 0..self.ids.epoch() {
            push_entry(self.alloc, entries, &Record::Start)?;
        }
        Ok(())
    }

    // Appends the entries of all objects.
    fn log_objects(&self, entries: &mut Vec<Entry>) -> Result<(), NodeError>
        ensures appended { OnOk result (entries.new.items
            ≡ entries.old.items ++ map (log_entry_of self.now.digest) (object_records_of self.now)) }
        ensures names { OnOk result
            (HasOwnObjects (kept_of self.now) → AreHeardNames (kept_of self.now) (heard_names self.now.objects)) }
        ensures writes { WritesOrFails
            (AllByRecursion (IsLoggable self.now.digest) (object_records_of self.now)) result }
    {
        for index in 0..self.objects.count() {
            self.log_named(index, entries)?;
        }
        Ok(())
    }

    // Appends the entries of the object at this place, if the node has heard of so many.
    fn log_named(&self, index: usize, entries: &mut Vec<Entry>) -> Result<(), NodeError>
        ensures appended { OnOk result ((name : List ℕ) → slice_get (heard_names self.now.objects) index ≡ Some name
            → entries.new.items
            ≡ entries.old.items ++ map (log_entry_of self.now.digest) (name_records name self.now)) }
        ensures writes { (name : List ℕ) → slice_get (heard_names self.now.objects) index ≡ Some name
            → WritesOrFails (AllByRecursion (IsLoggable self.now.digest) (name_records name self.now)) result }
    {
        match self.objects.named(index) {
            Some((name, object)) => self.log_object(name, object, entries),
            None => Ok(()),
        }
    }

    // Appends the entries of the object of this name: the node hears of its positions, serves letters, and then closes
    // banks.
    fn log_object(
        &self,
        name: &Bytes,
        object: &LocalObject,
        entries: &mut Vec<Entry>,
    ) -> Result<(), NodeError>
        ensures appended { OnOk result (entries.new.items ≡ entries.old.items
            ++ map (log_entry_of self.now.digest) (records_of_name self.now.ids.node name.now object.now)) }
        ensures writes { WritesOrFails (AllByRecursion (IsLoggable self.now.digest)
            (records_of_name self.now.ids.node name.now object.now)) result }
    {
        self.log_places(name, object.places(), entries)?;
        let letters = letters_of(self.alloc, self.number(), object)?;
        self.log_letters(name, letters, entries)?;
        self.log_closes(name, object.places(), entries)
    }

    // Appends the entries of these places of the object of this name.
    fn log_places(
        &self,
        name: &Bytes,
        places: &[Place],
        entries: &mut Vec<Entry>,
    ) -> Result<(), NodeError>
        ensures appended { OnOk result (entries.new.items ≡ entries.old.items
            ++ map (log_entry_of self.now.digest) (places_records name.now places.now)) }
        ensures writes { WritesOrFails
            (AllByRecursion (IsLoggable self.now.digest) (places_records name.now places.now)) result }
    {
        for place in places {
            self.log_place(name, place, entries)?;
        }
        Ok(())
    }

    // Appends the entry of a place, unless it is that of position 0, of which a new object has heard already.
    fn log_place(
        &self,
        name: &Bytes,
        place: &Place,
        entries: &mut Vec<Entry>,
    ) -> Result<(), NodeError>
        ensures appended { OnOk result (entries.new.items ≡ entries.old.items
            ++ map (log_entry_of self.now.digest) (place_records name.now place.now)) }
        ensures writes { WritesOrFails
            (AllByRecursion (IsLoggable self.now.digest) (place_records name.now place.now)) result }
    {
        if place.position() == 0 {
            return Ok(());
        }
        self.log_hearing(name, place.position(), place.layout(), entries)
    }

    // Appends the entry of a position that the node has heard of.
    fn log_hearing(
        &self,
        name: &Bytes,
        position: u32,
        layout: &Layout,
        entries: &mut Vec<Entry>,
    ) -> Result<(), NodeError>
        ensures appended { OnOk result (entries.new.items
            ≡ entries.old.items ++ log_entry_of self.now.digest (LogRecord.Hears name.now position layout.now) ∷ []) }
        ensures writes { WritesOrFails
            (IsLoggable self.now.digest (LogRecord.Hears name.now position layout.now)) result }
    {
        push_entry(self.alloc, entries, &hear_record(name, position, layout)?)
    }

    // Appends the entries of letters about the object of this name, which are served.
    fn log_letters(
        &self,
        name: &Bytes,
        letters: Vec<Letter>,
        entries: &mut Vec<Entry>,
    ) -> Result<(), NodeError>
        ensures appended { OnOk result (entries.new.items ≡ entries.old.items
            ++ map (log_entry_of self.now.digest) (map (LogRecord.Serves name.now) letters.items)) }
        ensures writes { WritesOrFails
            (AllByRecursion (IsLoggable self.now.digest) (map (LogRecord.Serves name.now) letters.items)) result }
    {
        for letter in letters {
            let name = name.clone()?;
            self.log_letter(NamedLetter { name, letter }, entries)?;
        }
        Ok(())
    }

    // Appends the entry of a letter that is served.
    fn log_letter(&self, it: NamedLetter, entries: &mut Vec<Entry>) -> Result<(), NodeError>
        ensures appended { OnOk result (entries.new.items
            ≡ entries.old.items ++ log_entry_of self.now.digest (LogRecord.Serves it.name it.letter) ∷ []) }
        ensures writes { WritesOrFails (IsLoggable self.now.digest (LogRecord.Serves it.name it.letter)) result }
    {
        let frame = framed_letter(self.alloc, self.digest, it)?;
        push_entry(self.alloc, entries, &Record::Serve(frame))
    }
}

// The record that the node has heard of this position of the object of this name.
fn hear_record(name: &Bytes, position: u32, layout: &Layout) -> Result<Record, NodeError>
    ensures made { IfOk result (λ it. it ≡ record_of.Hear position name.now layout.now) }
    ensures refused { IfErr result (λ e. e ≡ NoMemory) }
{
    let name = name.clone()?;
    let layout = layout.clone()?;
    Ok(Record::Hear {
        position,
        name,
        layout,
    })
}
