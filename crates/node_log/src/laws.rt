//! What holds for every entry.
ghost use Rattle.node_log.specs.Laws.{EntryIsRead, CutIsEnd, BeginsOneEntry, MovedIsDamaged};

use frames::frames_are_read_back;

/// A law: an entry that is written is read back, and exactly the bytes after it are left; an entry that is cut short is
/// the end of the log; and if the same bytes begin with two entries, these are the same entry.
pub fn entries_are_read_back()
    ensures written { EntryIsRead }
    ensures cut { CutIsEnd }
    ensures one { BeginsOneEntry }
{
    frames_are_read_back();
}

/// A law: an entry that was written behind another chain than the one behind which it stands is damage.
pub fn moved_entries_are_noticed()
    ensures { MovedIsDamaged }
{}
