//! What a node does that its log need not record.
ghost use Rattle.recoveries.specs.Laws.{GivenUpNeedsNoRecord, ReadingOnNeedsNoRecord, ReadsNeedNoRecord};
ghost use Rattle.recoveries.specs.Laws.{SameNeedsNoRecord, TakenNeedsNoRecord, UnchangedNeedsNoRecord};
ghost use Rattle.recoveries.specs.Laws.{WritesNeedNoRecord};

/// A law: if nothing happens to an object, no record is needed, even if ids are used up.
pub fn same_needs_no_record()
    ensures { SameNeedsNoRecord }
{}

/// A law: no record is needed for a letter that the node serves, if it changes no bank, nor for one that it does not
/// serve.
pub fn unchanged_needs_no_record()
    ensures { UnchangedNeedsNoRecord }
{}

/// A law: no record is needed for a reply to a read or a write, or to a call that is not open here.
pub fn taken_needs_no_record()
    ensures { TakenNeedsNoRecord }
{}

/// A law: no record is needed for a read that begins.
pub fn reads_need_no_record()
    ensures { ReadsNeedNoRecord }
{}

/// A law: no record is needed for a write that begins.
pub fn writes_need_no_record()
    ensures { WritesNeedNoRecord }
{}

/// A law: no record is needed for a read or a write that goes on at the object's start.
pub fn reading_on_needs_no_record()
    ensures { ReadingOnNeedsNoRecord }
{}

/// A law: no record is needed for a call that is given up.
pub fn given_up_needs_no_record()
    ensures { GivenUpNeedsNoRecord }
{}
