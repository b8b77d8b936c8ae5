//! Messages that have no frame, and why.
use crate::checks::shared_layout;
use bank::{Answer, Kind, Reply, Request, Status};
use bytes::Bytes;
use frames::LONGEST_STRING;
use letter::{Letter, NamedLetter, SharedLayout};
use mail::{Body, Message};
use node_messages::{Fault, MessageError, NodeMessage, frame_of};
use piece::Piece;
use std::alloc::Global;
use std::process::Abort;
use tag::Tag;

/// A message about the object of this name to this member of four.
pub(crate) fn message<R: Abort>(
    rt: &R,
    alloc: Global,
    name: &'static [u8],
    member: u8,
    next: Option<SharedLayout>,
    body: Body,
) -> NodeMessage {
    let message = Message {
        call: 7,
        phase: 2,
        position: 1,
        member,
        body,
    };
    let letter = Letter {
        layout: shared_layout(rt, alloc, 2, &[3, 4, 5, 6]),
        next,
        start: None,
        asks_piece: false,
        told: None,
        message,
    };
    let name = Bytes::from_static(name);
    NodeMessage {
        digest: *b"0123456789abcdef",
        named: NamedLetter { name, letter },
    }
}

/// The message has this fault, or none and a frame.
pub(crate) fn assert_fault<R: Abort>(
    rt: &R,
    alloc: Global,
    message: NodeMessage,
    wanted: Option<Fault>,
) {
    let found = match frame_of(alloc, &message).err() {
        None => None,
        Some(MessageError::Fault(fault)) => Some(fault),
        Some(MessageError::NoMemory) => panic!(rt; "memory"),
    };
    assert!(rt; found == wanted);
}

fn assert_named<R: Abort>(rt: &R, alloc: Global, name: &'static [u8], wanted: Option<Fault>) {
    let message = message(rt, alloc, name, 3, None, Body::Request(Request::Next));
    assert_fault(rt, alloc, message, wanted);
}

#[test]
fn a_long_name(rt: HostRuntime) {
    assert_named(&rt, rt.alloc(), &[b'a'; 255], None);
    assert_named(&rt, rt.alloc(), &[b'a'; 256], Some(Fault::NameTooLong));
}

#[test]
fn no_member(rt: HostRuntime) {
    let alloc = rt.alloc();
    let message = message(&rt, alloc, b"photo", 4, None, Body::Request(Request::Next));
    assert_fault(&rt, rt.alloc(), message, Some(Fault::NoMember));
}

#[test]
fn an_answer_to_another_kind(rt: HostRuntime) {
    let answer = Answer::Piece(None);
    let body = Body::Reply {
        kind: Kind::Spread(Status::Final),
        reply: Reply { step: 99, answer },
    };
    let message = message(&rt, rt.alloc(), b"photo", 3, None, body);
    assert_fault(&rt, rt.alloc(), message, Some(Fault::BadAnswer));
}

fn assert_next<R: Abort>(
    rt: &R,
    alloc: Global,
    next: Option<SharedLayout>,
    request: Request,
    wanted: Option<Fault>,
) {
    let message = message(rt, alloc, b"photo", 3, next, Body::Request(request));
    assert_fault(rt, alloc, message, wanted);
}

fn next<R: Abort>(rt: &R, alloc: Global) -> Option<SharedLayout> {
    Some(shared_layout(rt, alloc, 1, &[9, 0]))
}

const PENDING: Request = Request::Spread(Status::Pending);

#[test]
fn a_next_layout_too_few_or_too_many(rt: HostRuntime) {
    assert_next(
        &rt,
        rt.alloc(),
        next(&rt, rt.alloc()),
        Request::Next,
        Some(Fault::BadNext),
    );
    assert_next(&rt, rt.alloc(), next(&rt, rt.alloc()), PENDING, None);
    assert_next(&rt, rt.alloc(), None, PENDING, Some(Fault::BadNext));
}

/// A request to pre-write a piece of so many zeros has this fault, or none.
fn assert_zeros<R: Abort>(rt: &R, alloc: Global, len: usize, wanted: Option<Fault>) {
    let zeros = vec![in alloc; 0; len].expect(rt, "memory");
    let piece = Piece {
        point: 0,
        len: 5,
        bytes: Bytes::from_vec(zeros).expect(rt, "memory"),
    };
    let request = Request::PreWrite(Tag::OPENING, piece);
    assert_next(rt, alloc, None, request, wanted);
}

#[test]
fn a_long_piece(rt: HostRuntime) {
    assert_zeros(&rt, rt.alloc(), LONGEST_STRING, None);
    assert_zeros(
        &rt,
        rt.alloc(),
        LONGEST_STRING + 1,
        Some(Fault::PieceTooLong),
    );
}
