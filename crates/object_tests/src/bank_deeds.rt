//! A bank in deeds: what is done to it, or looked at there, and whether it does that.
use crate::pieces::{is_piece, piece};
use crate::same::assert_row;
use bank::{Answer, Bank, Kind, Label, Pointer, Reply, Request, Row, Status};
use std::alloc::Global;
use std::process::Abort;
use tag::{Refusal, Stamp, Tag};

pub(crate) const FIRST: Tag = Tag { number: 1, call: 1 };

pub(crate) const SECOND: Tag = Tag { number: 2, call: 2 };

pub(crate) const THIRD: Tag = Tag { number: 3, call: 3 };

/// What a bank answers, where each piece is the one that is always pre-written.
pub(crate) enum Said {
    Done,
    Pointer(Status),
    Greatest(Tag),
    NoPiece,
    Piece,
}

/// What is done to a bank, or looked at there.
pub(crate) enum Deed {
    // The step, the request, where what is pre-written is always the same piece, and what is said to it.
    Serve(Stamp, Kind, Said),
    Retire(Stamp),
    Forget,
    Bytes(u64),
    Pointer(Pointer),
    // How many tags there are.
    Count(usize),
    // The tag at this place in rising order, its label, and the step at which its piece came.
    Kept(usize, Tag, Label, Option<Stamp>),
    // A tag, and whether its piece is there. It came in any case.
    Piece(Tag, bool),
}

fn request_of(kind: Kind) -> Request {
    match kind {
        Kind::Next => Request::Next,
        Kind::Spread(status) => Request::Spread(status),
        Kind::Query => Request::Query,
        Kind::PreWrite(tag) => Request::PreWrite(tag, piece()),
        Kind::Finalize(tag) => Request::Finalize(tag),
        Kind::Fetch(tag) => Request::Fetch(tag),
    }
}

fn says(answer: &Answer, said: &Said) -> bool {
    match answer {
        Answer::Done => matches!(said, Said::Done),
        Answer::Pointer(status) => matches!(said, Said::Pointer(found) if *found == *status),
        Answer::Greatest(tag) => matches!(said, Said::Greatest(found) if found.is(*tag)),
        Answer::Piece(None) => matches!(said, Said::NoPiece),
        Answer::Piece(Some(held)) => matches!(said, Said::Piece) && is_piece(held.piece()),
    }
}

fn is_reply(reply: &Reply, step: Stamp, said: &Said) -> bool {
    reply.step == step && says(&reply.answer, said)
}

/// Returns whether the bank replied at this step, and said this.
pub(crate) fn replies(reply: Result<Reply, Refusal>, step: Stamp, said: &Said) -> bool {
    match reply {
        Ok(reply) => is_reply(&reply, step, said),
        Err(_) => false,
    }
}

fn serves(bank: &mut Bank, step: Stamp, kind: Kind, said: &Said) -> bool {
    replies(bank.serve(&request_of(kind), step), step, said)
}

// The step at which a row's piece came.
fn came_at(row: &Row) -> Option<Stamp> {
    match &row.arrival {
        Some(arrival) => Some(arrival.step),
        None => None,
    }
}

fn keeps(bank: &Bank, i: usize, tag: Tag, label: Label, came: Option<Stamp>) -> bool {
    if i >= bank.count() {
        return false;
    }
    let (kept, row) = bank.kept(i);
    kept.is(tag) && row.label == label && came_at(row) == came
}

// Whether a piece came for the tag, which the bank knows, and is there or not.
fn has_piece(bank: &Bank, tag: Tag, there: bool) -> bool {
    for i in 0..bank.count() {
        let (kept, row) = bank.kept(i);
        if kept.is(tag) {
            return row.arrival.is_some() && row.piece().is_some() == there;
        }
    }
    false
}

fn is_done(bank: &mut Bank, deed: &Deed) -> bool {
    match deed {
        Deed::Serve(step, kind, said) => serves(bank, *step, *kind, said),
        Deed::Retire(step) => {
            bank.retire(*step);
            true
        }
        Deed::Forget => {
            bank.forget();
            true
        }
        Deed::Bytes(bytes) => bank.bytes_anew() == *bytes,
        Deed::Pointer(pointer) => bank.pointer() == *pointer,
        Deed::Count(count) => bank.count() == *count,
        Deed::Kept(i, tag, label, came) => keeps(bank, *i, *tag, *label, *came),
        Deed::Piece(tag, there) => has_piece(bank, *tag, *there),
    }
}

/// Does all of this to the bank, and aborts at the first deed whose outcome is another.
pub(crate) fn play(rt: &impl Abort, bank: &mut Bank, deeds: &[Deed]) {
    for place in 0..deeds.len() {
        assert_row(rt, place, is_done(bank, &deeds[place]));
    }
}

/// Does all of this to a new bank, and aborts at the first deed whose outcome is another.
pub(crate) fn assert_story(rt: &impl Abort, alloc: Global, delta: Option<u32>, deeds: &[Deed]) {
    let mut bank = Bank::new(alloc, 1, delta, 1).expect(rt, "a bank");
    play(rt, &mut bank, deeds);
}
