//! Messages whose letters ask for a piece, or tell of a member.
use super::faults::assert_fault;
use super::samples::{ASK_NEXT, PIECE, STEP, Sample, TAG, frame, message, sample_strings};
use super::writing;
use crate::checks::{assert_prints, assert_strings};
use bank::{Answer, Kind, Reply, Request, Status};
use bytes::Bytes;
use frames::LONGEST_STRING;
use letter::Telling;
use mail::Body;
use node_messages::{Fault, MOST_TAG_NUMBER, NodeMessage, frame_of, has_low_tags};
use piece::Piece;
use std::alloc::Global;
use std::process::Abort;
use tag::Tag;

/// Only the mark: the letter asks for a piece.
const ASKS: [u8; 23] = [
    1, 0, 0, 0, 0, 0, 0, 0, 0, 0, 0, 0, 0, 0, 0, 0, 0, 0, 0, 0, 0, 0, 0,
];

/// The pointer is pending, and the greatest tag has the number 258, which is 1 * 256 + 2, and the call 772, which is
/// 3 * 256 + 4. No piece is told.
const TELLS: [u8; 23] = [
    2, 1, 0, 0, 0, 0, 0, 0, 1, 2, 0, 0, 0, 0, 0, 0, 3, 4, 0, 0, 0, 0, 0,
];

/// The same, with the point 5 of a piece of a value of 66051 bytes, which is 1 * 65536 + 2 * 256 + 3.
const TELLS_PIECE: [u8; 23] = [
    3, 1, 0, 0, 0, 0, 0, 0, 1, 2, 0, 0, 0, 0, 0, 0, 3, 4, 5, 0, 1, 2, 3,
];

const QUERY: Sample = Sample {
    codes: [0, 2, 0],
    ..ASK_NEXT
};

const GREATEST: Sample = Sample {
    codes: [1, 2, 0],
    tag: TAG,
    step: STEP,
    ..ASK_NEXT
};

const FETCHED: Sample = Sample {
    codes: [1, 5, 0],
    tag: TAG,
    step: STEP,
    piece: PIECE,
    bytes: Some(b"abcd\r\n"),
    ..ASK_NEXT
};

/// Whether the letter of this sample asks, and what it tells, as they are printed. The frame is written again.
fn assert_besides<R: Abort>(rt: &R, alloc: Global, sample: &Sample, asks: bool, told: &str) {
    let read = message(rt, alloc, sample);
    assert!(rt; read.named.letter.asks_piece == asks);
    assert_prints(rt, alloc, &read.named.letter.told, told);
    let written = frame_of(alloc, &read).expect(rt, "a frame");
    assert_strings(rt, written.strings(), frame(rt, alloc, sample).strings());
}

/// What is told without a piece, as it is printed.
const TOLD: &str =
    "Some(Telling { status: Pending, greatest: Tag { number: 258, call: 772 }, piece: None })";

#[test]
fn a_request_asks(rt: HostRuntime) {
    let asks = Sample {
        besides: ASKS,
        ..QUERY
    };
    assert_besides(&rt, rt.alloc(), &asks, true, "None");
    assert_besides(&rt, rt.alloc(), &QUERY, false, "None");
}

#[test]
fn a_reply_tells(rt: HostRuntime) {
    for sample in [GREATEST, FETCHED] {
        let tells = Sample {
            besides: TELLS,
            ..sample
        };
        assert_besides(&rt, rt.alloc(), &tells, false, TOLD);
        assert_besides(&rt, rt.alloc(), &sample, false, "None");
    }
}

/// The bytes of the piece that is told stand behind those of the piece of the reply, if it has one.
#[test]
fn a_reply_tells_a_piece(rt: HostRuntime) {
    let told = "Some(Telling { status: Pending, greatest: Tag { number: 258, call: 772 }, \
        piece: Some(Piece { point: 5, len: 66051, bytes: b\"xyz\" }) })";
    for sample in [GREATEST, FETCHED] {
        let tells = Sample {
            besides: TELLS_PIECE,
            told: Some(b"xyz"),
            ..sample
        };
        assert_besides(&rt, rt.alloc(), &tells, false, told);
    }
}

/// A sample, and its fault.
struct Row(Sample, Fault);

static ROWS: [Row; 6] = [
    Row(
        Sample {
            besides: TELLS,
            ..QUERY
        },
        Fault::BadTelling,
    ),
    Row(
        Sample {
            besides: TELLS_PIECE,
            told: Some(b"xyz"),
            ..QUERY
        },
        Fault::BadTelling,
    ),
    Row(
        Sample {
            besides: ASKS,
            ..GREATEST
        },
        Fault::BadTelling,
    ),
    Row(
        Sample {
            besides: TELLS_PIECE,
            ..GREATEST
        },
        Fault::WrongCount,
    ),
    Row(
        Sample {
            besides: TELLS_PIECE,
            ..FETCHED
        },
        Fault::WrongCount,
    ),
    Row(
        Sample {
            besides: TELLS,
            told: Some(b"xyz"),
            ..GREATEST
        },
        Fault::WrongCount,
    ),
];

#[test]
fn what_is_no_telling(rt: HostRuntime) {
    for row in &ROWS {
        let list = sample_strings(&rt, rt.alloc(), &row.0);
        assert_fault(&rt, rt.alloc(), list, row.1);
    }
}

/// The place of a byte of what a reply tells, another byte, and the fault.
static CHANGES: [(usize, u8, Fault); 5] = [
    (0, 0, Fault::UnusedPlace),
    (0, 4, Fault::UnknownCode),
    (1, 3, Fault::UnknownCode),
    (18, 5, Fault::UnusedPlace),
    (22, 1, Fault::UnusedPlace),
];

#[test]
fn a_byte_of_what_is_told(rt: HostRuntime) {
    for &(place, byte, wanted) in &CHANGES {
        let mut tells = Sample {
            besides: TELLS,
            ..GREATEST
        };
        if let Some(at) = tells.besides.get_mut(place) {
            *at = byte;
        }
        let list = sample_strings(&rt, rt.alloc(), &tells);
        assert_fault(&rt, rt.alloc(), list, wanted);
    }
}

/// A reply that tells this greatest tag, and this piece.
fn telling<R: Abort>(rt: &R, alloc: Global, number: u64, piece: Option<Piece>) -> NodeMessage {
    let body = Body::Reply {
        kind: Kind::Spread(Status::Final),
        reply: Reply {
            step: 99,
            answer: Answer::Done,
        },
    };
    let mut message = writing::message(rt, alloc, b"photo", 3, None, body);
    message.named.letter.told = Some(Telling {
        status: Status::Final,
        greatest: Tag { number, call: 5 },
        piece,
    });
    message
}

/// A piece of so many zeros.
fn zeros<R: Abort>(rt: &R, alloc: Global, len: usize) -> Option<Piece> {
    let zeros = vec![in alloc; 0; len].expect(rt, "memory");
    Some(Piece {
        point: 0,
        len: 5,
        bytes: Bytes::from_vec(zeros).expect(rt, "memory"),
    })
}

#[test]
fn a_long_piece_is_told(rt: HostRuntime) {
    let piece = zeros(&rt, rt.alloc(), LONGEST_STRING);
    let message = telling(&rt, rt.alloc(), 1, piece);
    writing::assert_fault(&rt, rt.alloc(), message, None);
    let piece = zeros(&rt, rt.alloc(), LONGEST_STRING + 1);
    let message = telling(&rt, rt.alloc(), 1, piece);
    writing::assert_fault(&rt, rt.alloc(), message, Some(Fault::PieceTooLong));
}

/// A request that tells, and a reply that asks, have no frame.
#[test]
fn only_requests_ask_and_only_replies_tell(rt: HostRuntime) {
    let mut reply = telling(&rt, rt.alloc(), 1, None);
    reply.named.letter.asks_piece = true;
    writing::assert_fault(&rt, rt.alloc(), reply, Some(Fault::BadTelling));
    let mut request = telling(&rt, rt.alloc(), 1, None);
    request.named.letter.message.body = Body::Request(Request::Query);
    writing::assert_fault(&rt, rt.alloc(), request, Some(Fault::BadTelling));
}

#[test]
fn a_tag_that_is_told_may_be_above_the_limit(rt: HostRuntime) {
    let low = telling(&rt, rt.alloc(), MOST_TAG_NUMBER, None);
    let high = telling(&rt, rt.alloc(), MOST_TAG_NUMBER + 1, None);
    assert!(rt; has_low_tags(&low) && !has_low_tags(&high));
}
