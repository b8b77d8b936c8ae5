//! Each event at a node is an event of the world.
ghost use Rattle.refinement.specs.Laws.{LocalEventsAreWorldEvents, PlainEventsAreWorldEvents};
ghost use Rattle.refinement.specs.Laws.{ResentLettersWereSent, RestartsAreWorldEvents};

/// A law: what a node does, by what it keeps itself, is what some events of the world do; or there is no event, and
/// nothing else changes. This is not so of a first reading that stands for its query, which leads to another run. If a
/// node begins a read or a write at its start, or lets a call that reads before it go on there, the call of the world
/// began at position 0. If a node raises the pointer of its bank, it serves in the world a request to do so, which was
/// sent to it. If a call ends early, it is given up in the world, whose history then has no answer of it.
pub fn local_events_are_world_events()
    ensures { LocalEventsAreWorldEvents }
{}

/// A law: unless a call begins or goes on at the node's start, ends early, or queries by its first reading, or the node
/// raises a pointer, this is a certain event of the world, or none.
pub fn plain_events_are_world_events()
    ensures { PlainEventsAreWorldEvents }
{}

/// A law: a node that stops, starts again and keeps what its log keeps is an event of the world.
pub fn restarts_are_world_events()
    ensures { RestartsAreWorldEvents }
{}

/// A law: the requests of an open call's current phase were sent, so a node may send them again at any time.
pub fn resent_letters_were_sent()
    ensures { ResentLettersWereSent }
{}
