//! The stages of a call, and what a call wants next.
use bank::Status;
use tag::Tag;

/// The stage of a call: how far it has come. At each stage but the last two, one phase is due. The rules of reading the
/// sequence of layouts are after ARES (Nicolaou, Cadambe, Prakash, Trigeorgi, Konwar, Médard and Lynch, 2019).
#[derive(Clone, Copy, Debug, PartialEq, Eq)]
pub enum Stage {
    /// The first reading of the sequence is to begin. It begins at what is the base at that step.
    ReadBegin,
    /// First reading: the pointers of this position are asked for. `finalized` is the last position known to be
    /// finalized.
    ReadNext {
        position: u32,
        finalized: u32,
    },
    /// First reading: the status that was found at this position is spread there.
    ReadSpread {
        position: u32,
        finalized: u32,
        status: Status,
    },
    /// The positions up to `last` are queried, and this one is next. `greatest` is the greatest tag so far, and
    /// `shown_at` the position that showed it.
    QueryFrom {
        position: u32,
        last: u32,
        greatest: Tag,
        shown_at: u32,
    },
    /// The tag is fetched at the position that showed it. If pieces are lacking, the call goes back to a new first
    /// reading.
    FetchAt {
        shown_at: u32,
        last: u32,
        tag: Tag,
    },
    /// The tag is pre-written at the last position.
    PreWriteAt {
        last: u32,
        tag: Tag,
    },
    /// The tag is finalized at the last position.
    FinalizeAt {
        last: u32,
        tag: Tag,
    },
    /// Later reading, which began at `last`: the pointers of this position are asked for.
    AgainNext {
        last: u32,
        position: u32,
        tag: Tag,
    },
    /// Later reading: the status that was found at this position is spread there.
    AgainSpread {
        last: u32,
        position: u32,
        tag: Tag,
        status: Status,
    },
    /// A move from this position spreads there that the next position is pending.
    MoveSpread {
        position: u32,
    },
    /// A move queries this position for the greatest tag.
    MoveQuery {
        position: u32,
    },
    /// A move fetches the greatest tag at this position. If pieces are lacking, it goes back to its query.
    MoveFetch {
        position: u32,
        tag: Tag,
    },
    /// A move from this position pre-writes the tag at the next one.
    MovePreWrite {
        position: u32,
        tag: Tag,
    },
    /// A move from this position finalizes the tag at the next one.
    MoveFinalize {
        position: u32,
        tag: Tag,
    },
    /// A move from this position spreads there that the next one is final.
    MoveFinal {
        position: u32,
        tag: Tag,
    },
    /// A read or a write is finished, and may be answered.
    Ended {
        last: u32,
        tag: Tag,
    },
    /// A move is finished, and may be answered.
    Moved {
        position: u32,
        tag: Tag,
    },
}

/// What a call wants next, which says what the caller is to do for it.
#[derive(Clone, Copy, Debug, PartialEq, Eq)]
pub enum Want {
    /// Replies to its current phase, which lacks a quorum.
    Replies,
    /// To begin the phase that is due, which sends no pieces.
    Advance,
    /// To be restarted, since its complete fetch lacks pieces.
    Again,
    /// The pieces of its value, encoded with this k for n members.
    Supply { k: u8, n: u8 },
    /// The value, of `len` bytes, that is decoded from k pieces of its fetch.
    Settle { k: u8, len: u32 },
    /// To be answered.
    Answer,
    /// Nothing: the call is answered.
    Done,
}
