//! That letters lead back to an object, and of which objects this holds.
ghost use Rattle.object_letters.specs.Laws.{HeardIsBlank, LettersLeadBack, LettersTellStart, NewIsBlank};
ghost use Rattle.object_letters.specs.Laws.{NewIsRebuildable, StaysRebuildable};

/// A law: if a copy of a rebuildable object is as a restart has to keep it, but for its banks, which have served
/// nothing, and the node serves the letters to the object, then the copy is as a restart has to keep it.
pub fn letters_lead_back()
    ensures { LettersLeadBack }
{}

/// A law: the start of such a copy is then that of the object, if the node served any letter; otherwise it is the one
/// that the copy had.
pub fn letters_tell_start()
    ensures { LettersTellStart }
{}

/// A law: a new object is such a copy, where no move is open, and where a node that moves objects has heard of no
/// position but the first.
pub fn new_is_blank()
    ensures { NewIsBlank }
{}

/// A law: where no move is open, a new object is such a copy once it has heard of all positions of the object, also at
/// a node that moves objects.
pub fn heard_is_blank()
    ensures { HeardIsBlank }
{}

/// A law: an object of which the node has not heard is rebuildable.
pub fn new_is_rebuildable()
    ensures { NewIsRebuildable }
{}

/// A law: whatever a node does with a rebuildable object, by letters with lawful layouts, it stays rebuildable.
pub fn stays_rebuildable()
    ensures { StaysRebuildable }
{}
