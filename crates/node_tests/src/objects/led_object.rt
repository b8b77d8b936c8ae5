//! The letters that lead to an object, and the object that they lead to.
use crate::checks::{layout, shared_layout};
use bank::{Request, Status};
use bytes::Bytes;
use letter::{Letter, SharedLayout};
use local_object::{LocalObject, Place};
use mail::{Body, Message};
use object_letters::{can_be_led_to, letters_of};
use piece::Piece;
use std::alloc::Global;
use std::process::Abort;
use tag::Tag;

/// The first tag that is written.
pub(crate) const FIRST: Tag = Tag { number: 1, call: 7 };

const SECOND: Tag = Tag { number: 2, call: 5 };

/// Returns node 4 with delta 0, which is member 1 of position 0.
pub(crate) fn new_object(rt: &impl Abort, alloc: Global) -> LocalObject {
    LocalObject::new(alloc, 4, Some(0), layout(rt, 2, &[6, 4, 2])).expect(rt, "an object")
}

/// Returns a request to member 1 of position 0, which has this layout.
pub(crate) fn letter(layout: SharedLayout, next: Option<SharedLayout>, request: Request) -> Letter {
    Letter {
        layout,
        next,
        start: None,
        asks_piece: false,
        told: None,
        message: Message {
            call: 9,
            phase: 3,
            position: 0,
            member: 1,
            body: Body::Request(request),
        },
    }
}

// Node 4 replies to the letter.
fn serve(
    rt: &impl Abort,
    alloc: Global,
    object: &mut LocalObject,
    next: Option<SharedLayout>,
    request: Request,
) {
    let first = shared_layout(rt, alloc, 2, &[6, 4, 2]);
    let reply = object
        .serve(letter(first, next, request))
        .expect(rt, "memory");
    assert!(rt; reply.is_some());
}

/// Returns a request that pre-writes a fragment of three bytes.
pub(crate) fn pre_write(tag: Tag) -> Request {
    let piece = Piece {
        point: 1,
        len: 6,
        bytes: Bytes::from_static(b"two"),
    };
    Request::PreWrite(tag, piece)
}

// The layout of the members 1, 2 and 3 becomes the pending one.
fn spread(rt: &impl Abort, alloc: Global, object: &mut LocalObject) {
    let next = shared_layout(rt, alloc, 2, &[1, 2, 3]);
    serve(
        rt,
        alloc,
        object,
        Some(next),
        Request::Spread(Status::Pending),
    );
}

/// Node 4 serves two writes, and a request that makes the pointer of position 0 pending.
pub(crate) fn write_and_spread(rt: &impl Abort, alloc: Global, object: &mut LocalObject) {
    for tag in [FIRST, SECOND] {
        serve(rt, alloc, object, None, pre_write(tag));
        serve(rt, alloc, object, None, Request::Finalize(tag));
    }
    spread(rt, alloc, object);
}

fn with_next(letters: &[Letter]) -> usize {
    let mut count = 0usize;
    for letter in letters {
        count = count.wrapping_add(usize::from(letter.next.is_some()));
    }
    count
}

// So many letters lead to the object, and so many of them have the layout of the next position.
fn assert_counts(rt: &impl Abort, alloc: Global, object: &LocalObject, all: usize, next: usize) {
    let letters = letters_of(alloc, 4, object).expect(rt, "memory");
    assert!(rt; letters.len() == all && with_next(&letters) == next);
}

// The new object serves the letters that lead to this one.
fn lead(rt: &impl Abort, alloc: Global, object: &LocalObject, copy: &mut LocalObject) {
    for letter in letters_of(alloc, 4, object).expect(rt, "memory") {
        assert!(rt; copy.serve(letter).is_ok());
    }
}

// Two versions, of which the first one was forgotten, and a pointer that is pending: three letters lead there.
#[test]
fn leads_back(rt: HostRuntime) {
    assert_led(&rt, rt.alloc());
}

fn assert_led(rt: &impl Abort, alloc: Global) {
    let mut object = new_object(rt, alloc);
    assert_counts(rt, alloc, &object, 0, 0);
    write_and_spread(rt, alloc, &mut object);
    assert_counts(rt, alloc, &object, 3, 1);
    assert_leads_back(rt, alloc, &object);
}

fn assert_leads_back(rt: &impl Abort, alloc: Global, object: &LocalObject) {
    let mut copy = new_object(rt, alloc);
    lead(rt, alloc, object, &mut copy);
    assert_counts(rt, alloc, &copy, 3, 1);
    assert!(rt; (copy.bytes_stored(), copy.places().len()) == (3, 2));
}

// Letters lead to an object with a read that is open, also if it has a second position, but not to one that moves.
#[test]
fn leads_to_what_stands_still(rt: HostRuntime) {
    read_spread_and_move(&rt, rt.alloc(), &mut new_object(&rt, rt.alloc()));
}

fn read_spread_and_move(rt: &impl Abort, alloc: Global, object: &mut LocalObject) {
    assert!(rt; object.begin_read(1).is_ok());
    assert!(rt; can_be_led_to(object));
    spread(rt, alloc, object);
    assert!(rt; can_be_led_to(object));
    assert!(rt; object.begin_move(2, layout(rt, 2, &[3, 2, 1])).is_ok());
    assert!(rt; !can_be_led_to(object));
}

// The node hears of a position, and then of another layout for it, which changes nothing.
#[test]
fn hears_once(rt: HostRuntime) {
    hear_twice(&rt, &mut new_object(&rt, rt.alloc()));
}

fn hear_twice(rt: &impl Abort, object: &mut LocalObject) {
    assert!(rt; object.hear(1, layout(rt, 2, &[1, 2, 3])).is_ok());
    assert!(rt; object.hear(1, layout(rt, 2, &[3, 2, 1])).is_ok());
    assert_heard(rt, object.places());
}

fn assert_heard(rt: &impl Abort, places: &[Place]) {
    match places {
        [_, place] => {
            assert!(rt; place.position() == 1 && *place.layout() == layout(rt, 2, &[1, 2, 3]));
        }
        _ => assert!(rt; false),
    }
}
