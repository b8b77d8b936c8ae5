use local_object::Ended;
use tag::{CallId, Refusal};

/// What became of a letter.
#[derive(Debug, Drop)]
pub enum Delivered {
    /// The letter was dropped, because the node does not heed it.
    Dropped,
    /// The letter was served, sent back or taken, and no call of this node ended.
    Handled,
    /// The letter was served, and fetches a piece, and the node's bank sends no reply, since it is closed.
    Declined,
    /// The letter was taken, and this call of this node was answered.
    Ended(Ended),
}

/// What became of a call that was to begin.
#[derive(Clone, Copy, Debug, PartialEq, Eq)]
pub enum Begun {
    /// The call with this id is open.
    Open(CallId),
    /// The object refused the call.
    Refused(Refusal),
}
