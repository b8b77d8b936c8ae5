//! A phase that records each member until a quorum.
use crate::same::assert_row;
use bank::{Answer, Kind, Reply, Request, Status};
use mail::{Ask, Body, Message, Phase, Took};
use std::alloc::Global;
use std::process::Abort;
use tag::CallId;

// Phase 2 of call 5 in a layout of n 4 and k 2, whose quorum is 3, begun at step 9.
fn begin(rt: &impl Abort, alloc: Global) -> Phase {
    let ask = Ask {
        call: 5,
        number: 2,
        kind: Kind::Next,
        position: 7,
    };
    Phase::new(alloc, ask, 4, 3, 2, 9).expect(rt, "a phase")
}

fn message(call: CallId, phase: u32, member: u8, body: Body) -> Message {
    Message {
        call,
        phase,
        position: 7,
        member,
        body,
    }
}

fn reply() -> Body {
    Body::Reply {
        kind: Kind::Next,
        reply: Reply {
            step: 10,
            answer: Answer::Pointer(Status::Unset),
        },
    }
}

// Whether this comes of giving the phase a member's reply to a phase of a call.
fn takes(phase: &mut Phase, call: CallId, number: u32, member: u8, took: Took) -> bool {
    phase.take(message(call, number, member, reply()), 11) == took
}

static TAKES: [(CallId, u32, u8, Took); 7] = [
    (4, 2, 0, Took::Stale), // of another call
    (5, 1, 0, Took::Stale), // of the phase before
    (5, 2, 0, Took::Recorded),
    (5, 2, 0, Took::Doubled),
    (5, 2, 1, Took::Recorded),
    (5, 2, 2, Took::Complete),
    (5, 2, 3, Took::Stale),
];

fn take_all(rt: &impl Abort, phase: &mut Phase) {
    for place in 0..TAKES.len() {
        let (call, number, member, took) = TAKES[place];
        assert_row(rt, place, takes(phase, call, number, member, took));
    }
}

// A quorum has replied, without member 3.
fn is_complete(phase: &Phase) -> bool {
    phase.complete() && phase.replies().len() == 3 && phase.has_taken(2) && !phase.has_taken(3)
}

#[test]
fn records_each_member_until_a_quorum(rt: HostRuntime) {
    let mut phase = begin(&rt, rt.alloc());
    take_all(&rt, &mut phase);
    assert!(rt; is_complete(&phase));
}

fn asks(phase: &Phase) -> bool {
    phase.number() == 2
        && phase.kind() == Kind::Next
        && phase.position() == 7
        && phase.members() == 4
        && phase.quorum() == 3
}

fn takes_no_request(phase: &mut Phase) -> bool {
    let request = message(5, 2, 0, Body::Request(Request::Next));
    phase.take(request, 10) == Took::Stale && !phase.complete() && phase.lacks_pieces()
}

#[test]
fn tells_what_it_asks(rt: HostRuntime) {
    let mut phase = begin(&rt, rt.alloc());
    assert!(rt; takes_no_request(&mut phase) && asks(&phase));
}
