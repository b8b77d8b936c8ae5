//! How the contract of a node's function follows from those of the functions that it calls.
ghost use Rattle.deeds.specs.Laws.{EventsAreHandled, MoreMayCome, NothingIsHandled, ResentIsHandled, TwoAreOne};

/// A law: a node that does nothing with its objects has handled what came, even if it used up ids.
pub fn nothing_is_handled()
    ensures { NothingIsHandled }
{}

/// A law: two things that a node does one after the other are one thing that it did.
pub fn two_are_one()
    ensures { TwoAreOne }
{}

/// A law: a node need not use all letters that have come.
pub fn more_may_come()
    ensures { MoreMayCome }
{}

/// A law: what a node does with the object of one name is something that it did with the letters that came.
pub fn events_are_handled()
    ensures { EventsAreHandled }
{}

/// A law: a node may send letters of current phases again.
pub fn resent_is_handled()
    ensures { ResentIsHandled }
{}
