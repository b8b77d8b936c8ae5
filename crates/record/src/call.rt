//! What a call of an object does, and its entry in the object's history.
use bytes::Bytes;
use tag::{CallId, Stamp, Tag};

/// What a call does to its object.
#[derive(Clone, Debug, PartialEq, Eq, Drop)]
pub enum CallKind {
    /// Returns the object's value.
    Read,
    /// Sets the object's value to this one.
    Write(Bytes),
    /// Appends a position, and copies the value there.
    Move,
}

/// The kind of a call without the value.
#[derive(Clone, Copy, Debug, PartialEq, Eq, Hash)]
pub enum Operation {
    /// A read.
    Read,
    /// A write.
    Write,
    /// A move.
    Move,
}

/// The entry of a call in the history of its object: what the client saw of the call.
#[derive(Clone, Debug, PartialEq, Eq, Drop)]
pub struct Entry {
    /// The id of the call, which no other call of its object has.
    pub call: CallId,
    /// What the call does: it reads, writes or moves.
    pub kind: Operation,
    /// The number of the step that began the call.
    pub called: Stamp,
    /// The number of the step that answered the call, or none while it is not answered.
    pub answered: Option<Stamp>,
    /// The value that a write writes, or that an answered read returned, or none for any other call.
    pub value: Option<Bytes>,
}

/// What the order by tags needs to know about a call.
#[derive(Clone, Copy, Debug, PartialEq, Eq)]
pub struct TaggedCall {
    /// The call's number in its object, from 1: its place among the object's calls.
    pub call: CallId,
    /// What the call does: it reads, writes or moves.
    pub kind: Operation,
    /// The call's tag, once it has one.
    pub tag: Option<Tag>,
    /// The number of the step that began the call.
    pub called: Stamp,
    /// Whether the call is answered.
    pub is_answered: bool,
}
