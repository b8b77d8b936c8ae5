//! A closed bank: it stores no fragment, declines a fetch, and answers a query.
use super::led_object::{FIRST, letter, new_object, pre_write};
use crate::checks::shared_layout;
use bank::{Answer, Request, Status};
use letter::{Letter, SharedLayout};
use local_object::LocalObject;
use mail::Body;
use std::alloc::Global;
use std::process::Abort;
use tag::Tag;

// Node 4 finalizes a tag, and closes its bank of position 0 once its pointer is final, and not before.
#[test]
fn closes_a_bank(rt: HostRuntime) {
    close(&rt, rt.alloc());
}

fn close(rt: &impl Abort, alloc: Global) {
    let mut object = new_object(rt, alloc);
    write(rt, alloc, &mut object);
    assert!(rt; !object.close(0));
    spread(rt, alloc, &mut object, Status::Pending);
    assert!(rt; !object.close(0) && object.bytes_stored() == 3);
    spread(rt, alloc, &mut object, Status::Final);
    assert_closes(rt, alloc, &mut object);
}

fn assert_closes(rt: &impl Abort, alloc: Global, object: &mut LocalObject) {
    assert!(rt; object.close(0) && !object.close(0));
    assert!(rt; object.bytes_stored() == 0);
    assert!(rt; ask(rt, alloc, object, None, Request::Fetch(FIRST)).is_none());
    let reply = ask(rt, alloc, object, None, Request::Query);
    assert!(rt; greatest(&reply.expect(rt, "a reply")) == Some(FIRST));
}

fn write(rt: &impl Abort, alloc: Global, object: &mut LocalObject) {
    for request in [pre_write(FIRST), Request::Finalize(FIRST)] {
        let reply = ask(rt, alloc, object, None, request);
        assert!(rt; reply.is_some());
    }
}

// The layout of the members 1, 2 and 3 becomes the one behind position 0.
fn spread(rt: &impl Abort, alloc: Global, object: &mut LocalObject, status: Status) {
    let next = shared_layout(rt, alloc, 2, &[1, 2, 3]);
    let reply = ask(rt, alloc, object, Some(next), Request::Spread(status));
    assert!(rt; reply.is_some());
}

// The reply to a request.
fn ask(
    rt: &impl Abort,
    alloc: Global,
    object: &mut LocalObject,
    next: Option<SharedLayout>,
    request: Request,
) -> Option<Letter> {
    let first = shared_layout(rt, alloc, 2, &[6, 4, 2]);
    object
        .serve(letter(first, next, request))
        .expect(rt, "memory")
}

// The tag that the reply to a query tells.
fn greatest(reply: &Letter) -> Option<Tag> {
    match &reply.message.body {
        Body::Reply { kind: _, reply } => match &reply.answer {
            Answer::Greatest(tag) => Some(*tag),
            _ => None,
        },
        Body::Request(_) => None,
    }
}
