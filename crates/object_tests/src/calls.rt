//! A read that goes on, until its fetch lacks pieces.
use bank::{Answer, Kind, Reply, Status};
use call::{Call, Next, request_to, requests};
use layout::Layout;
use mail::{Ask, Body, Message, Took};
use record::{CallKind, Operation, Stage};
use std::alloc::Global;
use std::process::Abort;
use tag::Tag;

const FIRST: Tag = Tag { number: 1, call: 1 };

// What the first phase of call 2 asks.
const ASK: Ask = Ask {
    call: 2,
    number: 1,
    position: 3,
    kind: Kind::Next,
};

// Call 2, a read, with its first phase.
fn begin(rt: &impl Abort, alloc: Global, layout: &Layout) -> Call {
    Call::begin(alloc, ASK, CallKind::Read, Stage::ReadBegin, layout, 5).expect(rt, "a call")
}

// The only member's reply to a phase.
fn reply_to(ask: Ask, answer: Answer) -> Message {
    Message {
        call: 2,
        phase: ask.number,
        position: 3,
        member: 0,
        body: Body::Reply {
            kind: ask.kind,
            reply: Reply { step: 6, answer },
        },
    }
}

// Whether the call does this next, once the only member has answered the current phase.
fn goes_to(call: &mut Call, answer: Answer, next: Next) -> bool {
    let message = reply_to(call.ask(), answer);
    call.take(message, 7) == Took::Complete && call.is_within_limits() && call.next() == next
}

// The call begins the phase of this kind, and asks the only member for it.
fn go_on(rt: &impl Abort, alloc: Global, call: &mut Call, kind: Kind) {
    let layout = Layout::new(1, &[0]).expect(rt, "a layout");
    assert!(rt; call.is_within_limits() && call.ask().number < 3);
    call.begin_next(alloc, kind, 3, &layout, 8)
        .expect(rt, "a phase");
}

fn go_on_until_pieces_lack(rt: &impl Abort, alloc: Global, call: &mut Call) {
    let fetch = Kind::Fetch(FIRST);
    assert!(rt;
        goes_to(
            call,
            Answer::Pointer(Status::Unset),
            Next::Begin(Kind::Query, 3)
        )
    );
    go_on(rt, alloc, call, Kind::Query);
    assert!(rt; goes_to(call, Answer::Greatest(FIRST), Next::Begin(fetch, 3)));
    go_on(rt, alloc, call, fetch);
    assert!(rt; goes_to(call, Answer::Piece(None), Next::Restart(Kind::Next, 0)));
}

#[test]
fn a_read_goes_on_until_its_fetch_lacks_pieces(rt: HostRuntime) {
    let layout = Layout::new(1, &[0]).expect(&rt, "a layout");
    let mut call = begin(&rt, rt.alloc(), &layout);
    go_on_until_pieces_lack(&rt, rt.alloc(), &mut call);
}

// What call 2 is, with its first phase.
fn is_begun(call: &Call) -> bool {
    call.id() == 2 && call.operation() == Operation::Read && !call.is_settled() && call.ask() == ASK
}

fn ask_both(rt: &impl Abort, alloc: Global) {
    let sent = requests(alloc, ASK, 2, None).expect(rt, "requests");
    assert!(rt; sent.len() == 2);
}

fn ask_second(rt: &impl Abort) {
    let second = request_to(ASK, 1, None).expect(rt, "a request");
    assert!(rt; second.member == 1 && second.body.kind() == Kind::Next);
}

#[test]
fn a_phase_asks_each_member(rt: HostRuntime) {
    let layout = Layout::new(1, &[4, 5]).expect(&rt, "a layout");
    assert!(rt; is_begun(&begin(&rt, rt.alloc(), &layout)));
    ask_both(&rt, rt.alloc());
    ask_second(&rt);
}
