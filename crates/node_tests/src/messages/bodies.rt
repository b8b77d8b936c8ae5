//! Each kind of request. What a message says is compared as it is printed for debugging, which names all
//! its fields.
use super::samples::{ASK_NEXT, NEXT, PIECE, Sample, TAG, frame, message};
use crate::checks::{assert_prints, assert_strings};
use node_messages::{NodeMessage, frame_of};
use std::alloc::Global;
use std::process::Abort;

/// A sample, and the body and the next layout of its message, as they are printed.
pub(crate) struct Row {
    pub(crate) sample: Sample,
    pub(crate) body: &'static str,
    pub(crate) next: &'static str,
}

pub(crate) const NEXT_LAYOUT: &str =
    "Some(SharedLayout { shared: Layout { k: 1, members: [9, 0] } })";

static REQUESTS: [Row; 8] = [
    Row {
        sample: Sample {
            codes: [0, 0, 0],
            ..ASK_NEXT
        },
        body: "Request(Next)",
        next: "None",
    },
    Row {
        sample: Sample {
            codes: [0, 1, 0],
            ..ASK_NEXT
        },
        body: "Request(Spread(Unset))",
        next: "None",
    },
    Row {
        sample: Sample {
            codes: [0, 1, 1],
            next: NEXT,
            ..ASK_NEXT
        },
        body: "Request(Spread(Pending))",
        next: NEXT_LAYOUT,
    },
    Row {
        sample: Sample {
            codes: [0, 1, 2],
            next: NEXT,
            ..ASK_NEXT
        },
        body: "Request(Spread(Final))",
        next: NEXT_LAYOUT,
    },
    Row {
        sample: Sample {
            codes: [0, 2, 0],
            ..ASK_NEXT
        },
        body: "Request(Query)",
        next: "None",
    },
    Row {
        sample: Sample {
            codes: [0, 3, 0],
            tag: TAG,
            piece: PIECE,
            bytes: Some(b"abcd\r\n"),
            ..ASK_NEXT
        },
        body: "Request(PreWrite(Tag { number: 12, call: 345 }, \
            Piece { point: 3, len: 11, bytes: b\"abcd\\r\\n\" }))",
        next: "None",
    },
    Row {
        sample: Sample {
            codes: [0, 4, 0],
            tag: TAG,
            ..ASK_NEXT
        },
        body: "Request(Finalize(Tag { number: 12, call: 345 }))",
        next: "None",
    },
    Row {
        sample: Sample {
            codes: [0, 5, 0],
            tag: TAG,
            ..ASK_NEXT
        },
        body: "Request(Fetch(Tag { number: 12, call: 345 }))",
        next: "None",
    },
];

fn assert_says<R: Abort>(rt: &R, alloc: Global, read: &NodeMessage, row: &Row) {
    let letter = &read.named.letter;
    assert_prints(rt, alloc, &letter.message.body, row.body);
    assert_prints(rt, alloc, &letter.next, row.next);
}

fn assert_writes<R: Abort>(rt: &R, alloc: Global, read: &NodeMessage, row: &Row) {
    let written = frame_of(alloc, read).expect(rt, "a frame");
    let expected = frame(rt, alloc, &row.sample);
    assert_strings(rt, written.strings(), expected.strings());
}

/// The strings are those of such a message, and they are written again from it.
pub(crate) fn assert_row<R: Abort>(rt: &R, alloc: Global, row: &Row) {
    let read = message(rt, alloc, &row.sample);
    assert_says(rt, alloc, &read, row);
    assert_writes(rt, alloc, &read, row);
}

#[test]
fn requests(rt: HostRuntime) {
    for row in &REQUESTS {
        assert_row(&rt, rt.alloc(), row);
    }
}

/// A request Next with all that stands before it. The digest is `0123456789abcdef`.
const WHOLE: &str = "NodeMessage { \
    digest: [48, 49, 50, 51, 52, 53, 54, 55, 56, 57, 97, 98, 99, 100, 101, 102], \
    named: NamedLetter { name: b\"photo\", letter: Letter { \
    layout: SharedLayout { shared: Layout { k: 2, members: [3, 4, 5, 6] } }, next: None, \
    start: None, asks_piece: false, told: None, \
    message: Message { call: 7, phase: 2, position: 1, member: 3, body: Request(Next) } } } }";

#[test]
fn what_stands_before_the_body(rt: HostRuntime) {
    assert_prints(&rt, rt.alloc(), &message(&rt, rt.alloc(), &ASK_NEXT), WHOLE);
}
