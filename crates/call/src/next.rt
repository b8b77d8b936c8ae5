//! What a call does next.
use bank::Kind;

/// What a call does next. The position is that of the members that the phase asks. If a first reading is to begin, the
/// position is 0 and means nothing: the reading begins at the object's base.
#[derive(Clone, Copy, Debug, PartialEq, Eq)]
pub enum Next {
    /// It waits: its current phase lacks a quorum.
    Wait,
    /// It settles the value that is decoded from the pieces of its complete fetch.
    Settle,
    /// Its complete fetch lacks pieces, so it begins again, with a phase of this kind at this position.
    Restart(Kind, u32),
    /// It begins a phase of this kind at this position.
    Begin(Kind, u32),
    /// It may be answered: no phase is due.
    Answer,
}
