//! Each event of a world is followed by steps of the record.
ghost use Rattle.network.specs.Followed.{AdvancesAreFollowed, AnswersAreFollowed, BegunCallsAreFollowed};
ghost use Rattle.network.specs.Followed.{BegunMovesAreFollowed, GivenUpCallsAreFollowed, RestartsAreFollowed};
ghost use Rattle.network.specs.Followed.{ServesAreFollowed, SettlesAreFollowed, TakesAreFollowed};

/// A law: a world that follows a sound record still follows one after a node begins a read or a write, which the record
/// begins too.
pub fn begun_calls_are_followed()
    ensures { BegunCallsAreFollowed }
{}

/// A law: the same holds after the node that moves objects begins a move, which the record begins too.
pub fn begun_moves_are_followed()
    ensures { BegunMovesAreFollowed }
{}

/// A law: the same holds after a call begins the phase that is due, or begins anew because its fetch lacks pieces.
pub fn advances_are_followed()
    ensures { AdvancesAreFollowed }
{}

/// A law: the same holds after a node serves a request that was ever sent to it. The record repeats the request, and
/// serves the copy.
pub fn serves_are_followed()
    ensures { ServesAreFollowed }
{}

/// A law: the same holds after a node takes a reply that was ever sent to it. The record repeats the reply, and takes
/// the copy; if no node carries the call out any more, the record makes no step.
pub fn takes_are_followed()
    ensures { TakesAreFollowed }
{}

/// A law: the same holds after a call settles the value that it fetched.
pub fn settles_are_followed()
    ensures { SettlesAreFollowed }
{}

/// A law: the same holds after a call is answered.
pub fn answers_are_followed()
    ensures { AnswersAreFollowed }
{}

/// A law: the same holds after a read or a write is given up. The record makes no step, and keeps the call open for
/// good.
pub fn given_up_calls_are_followed()
    ensures { GivenUpCallsAreFollowed }
{}

/// A law: the same holds after a node stops and starts again from its log. The record makes no step, and keeps the
/// node's reads and writes open for good.
pub fn restarts_are_followed()
    ensures { RestartsAreFollowed }
{}
