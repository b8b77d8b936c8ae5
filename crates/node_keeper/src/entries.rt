//! Entries of a log.
ghost use Rattle.std.specs.Prelude.{◌≡◌, ◌∷◌, ◌++◌, [], OnOk};
ghost use Rattle.node_log.specs.Entry.{IsEntry, sealed};
ghost use Rattle.node_strings.specs.Record.{record_strings};
ghost use Rattle.node_effects.specs.Errors.{WritesOrFails};
ghost use Rattle.node_effects.specs.Work.{IsGrown, one_entry};

use node_effects::{NodeError, Work};
use node_log::Entry;
use node_strings::{Record, record_strings};
use std::alloc::Global;

/// Appends the entry that records this. `NoMemory`, and `Unwritable` where the strings are too many or too long for an
/// entry.
pub fn push_entry(alloc: Global, entries: &mut Vec<Entry>, it: &Record) -> Result<(), NodeError>
    ensures pushed { OnOk result (entries.new.items ≡ entries.old.items ++ sealed (record_strings it.now) ∷ []) }
    ensures writes { WritesOrFails (IsEntry (record_strings it.now)) result }
{
    let entry = Entry::new(alloc, record_strings(alloc, it)?)?;
    entries.push(entry)?;
    Ok(())
}

/// Adds the entry that records this to those that the log gets. `NoMemory`, and `Unwritable` where the strings are too
/// many or too long for an entry.
pub(crate) fn log_record(work: &mut Work, it: Record) -> Result<(), NodeError>
    ensures grown { OnOk result (IsGrown work.old work.new (one_entry (record_strings it))) }
    ensures writes { WritesOrFails (IsEntry (record_strings it)) result }
{
    work.log(&it)
}
