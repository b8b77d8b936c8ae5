//! The requests that lead to a bank, by hand, and the bank that they lead to.
use crate::checks::assert_prints;
use bank::{Bank, Request, Status};
use bytes::Bytes;
use object_letters::requests_of;
use piece::Piece;
use std::alloc::Global;
use std::process::Abort;
use tag::Tag;

const FIRST: Tag = Tag { number: 1, call: 7 };

const SECOND: Tag = Tag { number: 2, call: 5 };

const THIRD: Tag = Tag { number: 2, call: 6 };

// A request to pre-write the piece of a value of six bytes, with these bytes at point 2.
fn pre_write(tag: Tag, bytes: &'static [u8]) -> Request {
    let piece = Piece {
        point: 2,
        len: 6,
        bytes: Bytes::from_static(bytes),
    };
    Request::PreWrite(tag, piece)
}

// A bank with delta 0 that was opened for point 2.
fn new_bank(rt: &impl Abort, alloc: Global) -> Bank {
    Bank::new(alloc, 2, Some(0), 0).expect(rt, "a bank")
}

fn serve(rt: &impl Abort, bank: &mut Bank, request: Request) {
    let refusal = bank.serve(&request, 0).err();
    assert!(rt; refusal.is_none());
}

// The requests that lead to the bank are printed so for debugging.
fn assert_leads(rt: &impl Abort, alloc: Global, bank: &Bank, printed: &str) {
    let requests = requests_of(alloc, bank).expect(rt, "memory");
    assert_prints(rt, alloc, &requests, printed);
}

fn assert_leads_back(rt: &impl Abort, alloc: Global, bank: &Bank, printed: &str) {
    assert_leads(rt, alloc, bank, printed);
    let mut copy = new_bank(rt, alloc);
    lead(rt, alloc, bank, &mut copy);
    assert_leads(rt, alloc, &copy, printed);
    assert!(rt; copy.bytes_anew() == 6);
}

// The new bank serves the requests that lead to this one.
fn lead(rt: &impl Abort, alloc: Global, bank: &Bank, copy: &mut Bank) {
    for request in requests_of(alloc, bank).expect(rt, "memory") {
        serve(rt, copy, request);
    }
}

const PENDING_AND_THREE_TAGS: &str = "[Spread(Pending), \
    Finalize(Tag { number: 1, call: 7 }), \
    PreWrite(Tag { number: 1, call: 7 }, Piece { point: 0, len: 0, bytes: b\"\" }), \
    Finalize(Tag { number: 2, call: 5 }), \
    PreWrite(Tag { number: 2, call: 5 }, Piece { point: 2, len: 6, bytes: b\"two\" }), \
    PreWrite(Tag { number: 2, call: 6 }, Piece { point: 2, len: 6, bytes: b\"six\" })]";

// The first tag's piece was dropped as the second tag became final, and the third tag is not final.
#[test]
fn leads_back(rt: HostRuntime) {
    write_three_tags(&rt, rt.alloc());
}

fn write_three_tags(rt: &impl Abort, alloc: Global) {
    let mut bank = new_bank(rt, alloc);
    write_first_tag(rt, &mut bank);
    write_other_tags(rt, &mut bank);
    assert_leads_back(rt, alloc, &bank, PENDING_AND_THREE_TAGS);
}

fn write_first_tag(rt: &impl Abort, bank: &mut Bank) {
    serve(rt, bank, Request::Query);
    serve(rt, bank, pre_write(FIRST, b"one"));
    serve(rt, bank, Request::Fetch(FIRST));
}

fn write_other_tags(rt: &impl Abort, bank: &mut Bank) {
    serve(rt, bank, pre_write(THIRD, b"six"));
    serve(rt, bank, pre_write(SECOND, b"two"));
    serve(rt, bank, Request::Spread(Status::Pending));
    serve(rt, bank, Request::Finalize(SECOND));
}

// A bank that only answered a query needs no request.
#[test]
fn needs_none(rt: HostRuntime) {
    only_answer(&rt, rt.alloc());
}

fn only_answer(rt: &impl Abort, alloc: Global) {
    let mut bank = new_bank(rt, alloc);
    serve(rt, &mut bank, Request::Query);
    assert_leads(rt, alloc, &bank, "[]");
}

// A final pointer is reached in one request, and a tag that was finalized before its piece came in one too.
#[test]
fn skips_a_pending_pointer(rt: HostRuntime) {
    finalize_and_spread(&rt, rt.alloc());
}

fn finalize_and_spread(rt: &impl Abort, alloc: Global) {
    let mut bank = new_bank(rt, alloc);
    serve(rt, &mut bank, Request::Finalize(THIRD));
    serve(rt, &mut bank, Request::Spread(Status::Pending));
    serve(rt, &mut bank, Request::Spread(Status::Final));
    let printed = "[Spread(Final), Finalize(Tag { number: 2, call: 6 })]";
    assert_leads(rt, alloc, &bank, printed);
}
