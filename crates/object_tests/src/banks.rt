//! One server's bank: the table of requests and replies, the tags in rising order, and what is dropped and forgotten.
use crate::bank_deeds::{Deed, FIRST, SECOND, Said, THIRD, assert_story, play, replies};
use crate::pieces::piece;
use bank::{Bank, Kind, Label, Pointer, Status};
use tag::Tag;

static REQUESTS: [Deed; 16] = [
    Deed::Serve(2, Kind::Finalize(FIRST), Said::Done),
    Deed::Serve(3, Kind::Query, Said::Greatest(FIRST)),
    Deed::Serve(4, Kind::Fetch(FIRST), Said::NoPiece),
    Deed::Serve(5, Kind::PreWrite(FIRST), Said::Done),
    Deed::Serve(6, Kind::Fetch(FIRST), Said::Piece),
    Deed::Serve(7, Kind::PreWrite(FIRST), Said::Done),
    Deed::Serve(8, Kind::PreWrite(SECOND), Said::Done),
    Deed::Serve(9, Kind::Query, Said::Greatest(FIRST)),
    Deed::Serve(10, Kind::Spread(Status::Final), Said::Done),
    Deed::Serve(11, Kind::Spread(Status::Pending), Said::Done),
    Deed::Serve(12, Kind::Next, Said::Pointer(Status::Final)),
    Deed::Pointer(Pointer::Final {
        pending: 10,
        since: 10,
    }),
    Deed::Count(3),
    Deed::Kept(0, Tag::OPENING, Label::Finalized { since: 1 }, Some(1)),
    Deed::Kept(1, FIRST, Label::Finalized { since: 2 }, Some(5)),
    Deed::Kept(2, SECOND, Label::PreWritten { since: 8 }, Some(8)),
];

#[test]
fn answers_the_table_of_requests(rt: HostRuntime) {
    assert_story(&rt, rt.alloc(), None, &REQUESTS);
}

// The calls that `serve` makes, each by itself.
fn puts(bank: &mut Bank) -> bool {
    replies(bank.pre_write(SECOND, piece(), 2), 2, &Said::Done)
        && replies(bank.finalize(FIRST, 3), 3, &Said::Done)
        && replies(bank.fetch(SECOND, 4), 4, &Said::Piece)
}

fn asks(bank: &mut Bank) -> bool {
    replies(Ok(bank.query(5)), 5, &Said::Greatest(SECOND))
        && replies(Ok(bank.put_next(Status::Pending, 6)), 6, &Said::Done)
        && replies(Ok(bank.ask_next(7)), 7, &Said::Pointer(Status::Pending))
}

static KEPT_IN_RISING_ORDER: [Deed; 5] = [
    Deed::Count(3),
    Deed::Kept(0, Tag::OPENING, Label::Finalized { since: 1 }, Some(1)),
    Deed::Kept(1, FIRST, Label::Finalized { since: 3 }, None),
    Deed::Kept(2, SECOND, Label::Finalized { since: 4 }, Some(2)),
    Deed::Bytes(3),
];

#[test]
fn keeps_tags_in_rising_order(rt: HostRuntime) {
    let mut bank = Bank::new(rt.alloc(), 1, None, 1).expect(&rt, "a bank");
    assert!(rt; bank.bytes() == 0 && puts(&mut bank) && asks(&mut bank));
    play(&rt, &mut bank, &KEPT_IN_RISING_ORDER);
}

// With delta 0 only the newest final tag keeps its piece. Each piece has 3 bytes, that of the opening tag none.
static ONE_KEPT: [Deed; 10] = [
    Deed::Serve(2, Kind::PreWrite(FIRST), Said::Done),
    Deed::Serve(3, Kind::PreWrite(SECOND), Said::Done),
    Deed::Bytes(6),
    Deed::Serve(4, Kind::Finalize(FIRST), Said::Done),
    Deed::Piece(Tag::OPENING, false),
    Deed::Piece(FIRST, true),
    Deed::Serve(5, Kind::Finalize(SECOND), Said::Done),
    Deed::Piece(FIRST, false),
    Deed::Piece(SECOND, true),
    Deed::Bytes(3),
];

#[test]
fn drops_what_is_older(rt: HostRuntime) {
    assert_story(&rt, rt.alloc(), Some(0), &ONE_KEPT);
}

// A piece that comes for an older final tag is not kept, one that is fetched there is dropped first.
static LATE_REQUESTS: [Deed; 8] = [
    Deed::Serve(2, Kind::PreWrite(FIRST), Said::Done),
    Deed::Serve(3, Kind::Finalize(SECOND), Said::Done),
    Deed::Serve(4, Kind::Fetch(FIRST), Said::NoPiece),
    Deed::Serve(5, Kind::PreWrite(FIRST), Said::Done),
    Deed::Serve(6, Kind::PreWrite(SECOND), Said::Done),
    Deed::Serve(7, Kind::Fetch(SECOND), Said::Piece),
    Deed::Piece(FIRST, false),
    Deed::Bytes(3),
];

#[test]
fn keeps_nothing_that_comes_late(rt: HostRuntime) {
    assert_story(&rt, rt.alloc(), Some(0), &LATE_REQUESTS);
}

// With delta 1 the two newest final tags keep theirs; a retired bank keeps none.
static TWO_AND_THEN_NONE: [Deed; 10] = [
    Deed::Serve(2, Kind::PreWrite(FIRST), Said::Done),
    Deed::Serve(3, Kind::Finalize(FIRST), Said::Done),
    Deed::Serve(4, Kind::PreWrite(SECOND), Said::Done),
    Deed::Serve(5, Kind::Finalize(SECOND), Said::Done),
    Deed::Piece(Tag::OPENING, false),
    Deed::Piece(FIRST, true),
    Deed::Bytes(6),
    Deed::Retire(6),
    Deed::Bytes(0),
    Deed::Serve(7, Kind::Fetch(SECOND), Said::NoPiece),
];

#[test]
fn keeps_two_and_then_none(rt: HostRuntime) {
    assert_story(&rt, rt.alloc(), Some(1), &TWO_AND_THEN_NONE);
}

// With delta 0 nothing below the newest final tag is remembered, but for the opening tag: not a final tag, and not one
// that is only pre-written, whose piece was still there. A late piece for a forgotten tag is forgotten too.
static ONE_REMEMBERED: [Deed; 16] = [
    Deed::Serve(2, Kind::PreWrite(FIRST), Said::Done),
    Deed::Forget,
    Deed::Count(2),
    Deed::Serve(3, Kind::Finalize(SECOND), Said::Done),
    Deed::Serve(4, Kind::PreWrite(THIRD), Said::Done),
    Deed::Bytes(6),
    Deed::Forget,
    Deed::Count(3),
    Deed::Kept(0, Tag::OPENING, Label::Finalized { since: 1 }, Some(1)),
    Deed::Kept(1, SECOND, Label::Finalized { since: 3 }, None),
    Deed::Kept(2, THIRD, Label::PreWritten { since: 4 }, Some(4)),
    Deed::Bytes(3),
    Deed::Serve(5, Kind::PreWrite(FIRST), Said::Done),
    Deed::Serve(6, Kind::Fetch(FIRST), Said::NoPiece),
    Deed::Forget,
    Deed::Count(3),
];

#[test]
fn forgets_what_is_below_the_floor(rt: HostRuntime) {
    assert_story(&rt, rt.alloc(), Some(0), &ONE_REMEMBERED);
}

// Without delta nothing is forgotten.
static ALL_REMEMBERED: [Deed; 4] = [
    Deed::Serve(2, Kind::Finalize(FIRST), Said::Done),
    Deed::Serve(3, Kind::Finalize(SECOND), Said::Done),
    Deed::Forget,
    Deed::Count(3),
];

#[test]
fn forgets_nothing_without_delta(rt: HostRuntime) {
    assert_story(&rt, rt.alloc(), None, &ALL_REMEMBERED);
}
