//! Messages whose letters tell a start.
use super::samples::{ASK_NEXT, NEXT, START, Sample, frame, message, strings};
use crate::checks::{assert_prints, assert_strings, shared_layout};
use bank::{Request, Status};
use bytes::Bytes;
use frames::Frame;
use letter::{Letter, NamedLetter, Start};
use mail::{Body, Message};
use node_messages::{NodeMessage, frame_of, read_message};
use std::alloc::Global;
use std::process::Abort;

/// The parts of a head that are worked out by hand:
///
/// - the form 5; the call 258, which is 1 * 256 + 2; the phase 3; the position 66052, which is
///   1 * 65536 + 2 * 256 + 4; and the member 1;
/// - 0 for a request, 1 for Spread, and 1 for pending; and 53 places that are not used, for a tag (16), a step (8), a
///   piece (6), and what is asked and told besides the message (23);
/// - the digest, `abcdefghijklmnop`;
/// - the layout: two members, k = 1, and the members 20 and 10;
/// - the next layout: one member, k = 1, and the member 30;
/// - the position 66051 of the start, which is 1 * 65536 + 2 * 256 + 3;
/// - the layout of the start: five members, k = 3, and the members 4, 255, 0, 7 and 6.
static PARTS: [&[u8]; 7] = [
    &[5, 0, 0, 0, 0, 0, 0, 1, 2, 0, 0, 0, 3, 0, 1, 2, 4, 1],
    &[
        0, 1, 1, 0, 0, 0, 0, 0, 0, 0, 0, 0, 0, 0, 0, 0, 0, 0, 0, 0, 0, 0, 0, 0, 0, 0, 0, 0, 0, 0,
        0, 0, 0, 0, 0, 0, 0, 0, 0, 0, 0, 0, 0, 0, 0, 0, 0, 0, 0, 0, 0, 0, 0, 0, 0, 0,
    ],
    b"abcdefghijklmnop",
    &[2, 1, 20, 10],
    &[1, 1, 30],
    &[0, 1, 2, 3],
    &[5, 3, 4, 255, 0, 7, 6],
];

/// The head that has these parts.
fn head_of_parts<R: Abort>(rt: &R, alloc: Global) -> Vec<u8> {
    let mut head = Vec::new(alloc);
    for part in PARTS {
        head.extend_from_slice(part).expect(rt, "memory");
    }
    head
}

/// The letter of the message with this head.
fn letter<R: Abort>(rt: &R, alloc: Global) -> Letter {
    Letter {
        layout: shared_layout(rt, alloc, 1, &[20, 10]),
        next: Some(shared_layout(rt, alloc, 1, &[30])),
        start: Some(Start {
            position: 66051,
            layout: shared_layout(rt, alloc, 3, &[4, 255, 0, 7, 6]),
        }),
        asks_piece: false,
        told: None,
        message: Message {
            call: 258,
            phase: 3,
            position: 66052,
            member: 1,
            body: Body::Request(Request::Spread(Status::Pending)),
        },
    }
}

#[test]
fn a_start_is_written(rt: HostRuntime) {
    let written = NodeMessage {
        digest: *b"abcdefghijklmnop",
        named: NamedLetter {
            name: Bytes::from_static(b"photo"),
            letter: letter(&rt, rt.alloc()),
        },
    };
    let written = frame_of(rt.alloc(), &written).expect(&rt, "a frame");
    let head = head_of_parts(&rt, rt.alloc());
    let wanted = strings(&rt, rt.alloc(), head, b"photo", None);
    assert_strings(&rt, written.strings(), &wanted);
}

/// The letter, as it is printed.
const LETTER: &str = "Letter { \
    layout: SharedLayout { shared: Layout { k: 1, members: [20, 10] } }, \
    next: Some(SharedLayout { shared: Layout { k: 1, members: [30] } }), \
    start: Some(Start { position: 66051, \
    layout: SharedLayout { shared: Layout { k: 3, members: [4, 255, 0, 7, 6] } } }), \
    asks_piece: false, told: None, \
    message: Message { call: 258, phase: 3, position: 66052, member: 1, \
    body: Request(Spread(Pending)) } }";

#[test]
fn a_start_is_read(rt: HostRuntime) {
    let head = head_of_parts(&rt, rt.alloc());
    let list = strings(&rt, rt.alloc(), head, b"photo", None);
    let frame = Frame::new(list).expect(&rt, "a frame");
    let read = read_message(rt.alloc(), &frame).expect(&rt, "a message");
    assert_prints(&rt, rt.alloc(), &read.named.letter, LETTER);
}

/// The start of a sample is printed so, and the message has the frame that was read.
fn assert_start<R: Abort>(rt: &R, alloc: Global, sample: &Sample, wanted: &str) {
    let read = message(rt, alloc, sample);
    assert_prints(rt, alloc, &read.named.letter.start, wanted);
    let written = frame_of(alloc, &read).expect(rt, "a frame");
    assert_strings(rt, written.strings(), frame(rt, alloc, sample).strings());
}

#[test]
fn a_start_with_and_without_a_next_layout(rt: HostRuntime) {
    let told = "Some(Start { position: 5, \
        layout: SharedLayout { shared: Layout { k: 2, members: [7, 8, 9] } } })";
    let alone = Sample {
        start: START,
        ..ASK_NEXT
    };
    let both = Sample {
        codes: [0, 1, 2],
        next: NEXT,
        ..alone
    };
    assert_start(&rt, rt.alloc(), &alone, told);
    assert_start(&rt, rt.alloc(), &both, told);
}

/// A start at position 0 is read too, though no node tells it; and one at the greatest position.
#[test]
fn the_first_start_and_the_last(rt: HostRuntime) {
    let first = Sample {
        start: b"\0\0\0\0\x01\x01\x09",
        ..ASK_NEXT
    };
    let last = Sample {
        start: b"\xff\xff\xff\xff\x01\x01\x09",
        ..ASK_NEXT
    };
    let of_first = "Some(Start { position: 0, \
        layout: SharedLayout { shared: Layout { k: 1, members: [9] } } })";
    let of_last = "Some(Start { position: 4294967295, \
        layout: SharedLayout { shared: Layout { k: 1, members: [9] } } })";
    assert_start(&rt, rt.alloc(), &first, of_first);
    assert_start(&rt, rt.alloc(), &last, of_last);
}
