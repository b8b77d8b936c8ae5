//! What is handed out about a call.
use bank::Kind;
use bytes::Bytes;
use record::{Operation, Want};
use tag::{CallId, Stamp, Tag};

/// What the client of an answered call gets.
#[derive(Clone, Debug, PartialEq, Eq, Drop)]
pub struct Receipt {
    /// The object's place in the order of creation, from 0.
    pub object: u32,
    /// What the call does: it reads, writes or moves.
    pub kind: Operation,
    /// The call's number in its object, from 1.
    pub call: CallId,
    /// The number of the step that began the call.
    pub called: Stamp,
    /// The number of the step that answered it.
    pub answered: Stamp,
    /// The value that was written or read; none for a move.
    pub value: Option<Bytes>,
}

/// How far a call has come.
#[derive(Clone, Copy, Debug, PartialEq, Eq)]
pub struct CallView {
    /// What the call does: it reads, writes or moves.
    pub kind: Operation,
    /// The number of its current phase in the call, from 1.
    pub number: u32,
    /// What that phase asks.
    pub phase: Kind,
    /// The position whose members that phase asks, from 0.
    pub position: u32,
    /// How many replies the phase took.
    pub replies: u8,
    /// How many replies make its quorum.
    pub quorum: u8,
    /// The tag that the current phase fetches, or else the call's tag, once its queries are complete.
    pub tag: Option<Tag>,
    /// What the call wants next.
    pub want: Want,
}
