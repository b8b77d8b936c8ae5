//! Each kind of reply.
use super::bodies::{NEXT_LAYOUT, Row, assert_row};
use super::samples::{ASK_NEXT, NEXT, PIECE, STEP, Sample, TAG};

/// The tag with the greatest number and the call 0.
const GREATEST: [u8; 16] = [
    255, 255, 255, 255, 255, 255, 255, 255, 0, 0, 0, 0, 0, 0, 0, 0,
];

/// An empty piece differs from none. The last row has the greatest step and the greatest number of a tag.
static REPLIES: [Row; 11] = [
    Row {
        sample: Sample {
            codes: [1, 0, 0],
            step: STEP,
            ..ASK_NEXT
        },
        body: "Reply { kind: Next, reply: Reply { step: 99, answer: Pointer(Unset) } }",
        next: "None",
    },
    Row {
        sample: Sample {
            codes: [1, 0, 1],
            step: STEP,
            next: NEXT,
            ..ASK_NEXT
        },
        body: "Reply { kind: Next, reply: Reply { step: 99, answer: Pointer(Pending) } }",
        next: NEXT_LAYOUT,
    },
    Row {
        sample: Sample {
            codes: [1, 0, 2],
            step: STEP,
            next: NEXT,
            ..ASK_NEXT
        },
        body: "Reply { kind: Next, reply: Reply { step: 99, answer: Pointer(Final) } }",
        next: NEXT_LAYOUT,
    },
    Row {
        sample: Sample {
            codes: [1, 1, 2],
            step: STEP,
            ..ASK_NEXT
        },
        body: "Reply { kind: Spread(Final), reply: Reply { step: 99, answer: Done } }",
        next: "None",
    },
    Row {
        sample: Sample {
            codes: [1, 2, 0],
            tag: TAG,
            step: STEP,
            ..ASK_NEXT
        },
        body: "Reply { kind: Query, \
            reply: Reply { step: 99, answer: Greatest(Tag { number: 12, call: 345 }) } }",
        next: "None",
    },
    Row {
        sample: Sample {
            codes: [1, 3, 0],
            tag: TAG,
            step: STEP,
            ..ASK_NEXT
        },
        body: "Reply { kind: PreWrite(Tag { number: 12, call: 345 }), \
            reply: Reply { step: 99, answer: Done } }",
        next: "None",
    },
    Row {
        sample: Sample {
            codes: [1, 4, 0],
            tag: TAG,
            step: STEP,
            ..ASK_NEXT
        },
        body: "Reply { kind: Finalize(Tag { number: 12, call: 345 }), \
            reply: Reply { step: 99, answer: Done } }",
        next: "None",
    },
    Row {
        sample: Sample {
            codes: [1, 5, 0],
            tag: TAG,
            step: STEP,
            ..ASK_NEXT
        },
        body: "Reply { kind: Fetch(Tag { number: 12, call: 345 }), \
            reply: Reply { step: 99, answer: Piece(None) } }",
        next: "None",
    },
    Row {
        sample: Sample {
            codes: [1, 5, 0],
            tag: TAG,
            step: STEP,
            piece: PIECE,
            bytes: Some(b"abcd\r\n"),
            ..ASK_NEXT
        },
        body: "Reply { kind: Fetch(Tag { number: 12, call: 345 }), \
            reply: Reply { step: 99, answer: Piece(Some(HeldPiece { \
            piece: Piece { point: 3, len: 11, bytes: b\"abcd\\r\\n\" } })) } }",
        next: "None",
    },
    Row {
        sample: Sample {
            codes: [1, 5, 0],
            tag: TAG,
            step: STEP,
            piece: [1, 0, 0, 0, 0, 0],
            bytes: Some(b""),
            ..ASK_NEXT
        },
        body: "Reply { kind: Fetch(Tag { number: 12, call: 345 }), \
            reply: Reply { step: 99, answer: Piece(Some(HeldPiece { \
            piece: Piece { point: 0, len: 0, bytes: b\"\" } })) } }",
        next: "None",
    },
    Row {
        sample: Sample {
            codes: [1, 2, 0],
            tag: GREATEST,
            step: [255; 8],
            ..ASK_NEXT
        },
        body: "Reply { kind: Query, reply: Reply { step: 18446744073709551615, \
            answer: Greatest(Tag { number: 18446744073709551615, call: 0 }) } }",
        next: "None",
    },
];

#[test]
fn replies(rt: HostRuntime) {
    for row in &REPLIES {
        assert_row(&rt, rt.alloc(), row);
    }
}
