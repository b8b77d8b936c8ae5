//! What holds for every log.
ghost use Rattle.node_store.specs.Laws.{CutLogIsFront, LeftLogIsRead, LogIsReadOnce, MovedIsNoticed};
ghost use Rattle.node_store.specs.Steps.{CutOffStepsWriteFirst, StepsWriteAll};

use node_log::{entries_are_read_back, moved_entries_are_noticed};

/// A law: a log that is cut at any byte still gives back its first entries and ends after them, also if zeros follow
/// the cut.
pub fn cut_logs_are_fronts()
    ensures { CutLogIsFront }
{
    entries_are_read_back();
}

/// A law: if the same bytes begin with two lists of entries, and no further entry follows either list, both are the
/// same entries, and the same bytes follow them. Where a log ends or is damaged, no entry stands.
pub fn logs_are_read_once()
    ensures { LogIsReadOnce }
{
    entries_are_read_back();
}

/// A law: an entry that was written behind another chain than the one behind which it stands is no entry there, so a
/// log is read up to it and no further. That is what becomes of a log in which whole entries were dropped, doubled or
/// put in another order, unless the chains are the same by chance: they are numbers of 32 bits.
pub fn moved_entries_stop_reading()
    ensures { MovedIsNoticed }
{
    moved_entries_are_noticed();
}

/// A law: whatever a stop leaves of a log, its first entries are read from it, and at least those that were synced.
pub fn left_logs_are_read()
    ensures { LeftLogIsRead }
{
    cut_logs_are_fronts();
    logs_are_read_once();
}

/// A law: the steps for a batch, carried out one after another on a synced log, write all that waits in it. If they are
/// cut off anywhere, a frame was sent only if the log keeps all entries before it.
pub fn steps_keep_order()
    ensures all { StepsWriteAll }
    ensures cut { CutOffStepsWriteFirst }
{}
