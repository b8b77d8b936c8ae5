//! What a node does that its log has to record.
ghost use Rattle.recoveries.specs.Laws.{ClosesAreLogged, MovesAreLogged, ServedIsLogged, StartsAreLogged};
ghost use Rattle.recoveries.specs.Laws.{RaisesAreLogged, TakenIsLogged};

/// A law: for an epoch that begins, the record `Starts` is enough.
pub fn starts_are_logged()
    ensures { StartsAreLogged }
{}

/// A law: for a letter that the node heeds and serves, the record `Serves` is enough.
pub fn served_is_logged()
    ensures { ServedIsLogged }
{}

/// A law: for a reply that an open move takes, the record `Takes` is enough.
pub fn taken_is_logged()
    ensures { TakenIsLogged }
{}

/// A law: for a move that begins, the record `Moves` is enough.
pub fn moves_are_logged()
    ensures { MovesAreLogged }
{}

/// A law: for a bank that is closed, the record `Closes` is enough.
pub fn closes_are_logged()
    ensures { ClosesAreLogged }
{}

/// A law: for a pointer that the node raises to final, the record `Serves` is enough, with the letter with which the
/// node asks itself to raise it.
pub fn raises_are_logged()
    ensures { RaisesAreLogged }
{}
