//! A bank at a position before the object's start: its pointer is raised to final, so that it can be closed.
use super::led_object::{letter, new_object, write_and_spread};
use crate::checks::shared_layout;
use bank::Request;
use letter::{Letter, Start};
use local_object::LocalObject;
use object_letters::raising_letter;
use std::alloc::Global;
use std::process::Abort;

// Node 4 raises the pointer of position 0, which was pending, and then closes its bank there.
#[test]
fn raises_and_closes(rt: HostRuntime) {
    raise_and_close(&rt, rt.alloc());
}

fn raise_and_close(rt: &impl Abort, alloc: Global) {
    let mut object = passed_object(rt, alloc);
    assert_passed(rt, &object, &[0]);
    assert!(rt; object.can_raise(0) && !object.close(0));
    assert!(rt; object.raise(0).is_ok());
    assert!(rt; !object.can_raise(0) && object.close(0));
    assert_passed(rt, &object, &[]);
}

// It raises this pointer, too, if it serves the letter with which it asks itself.
#[test]
fn asks_itself(rt: HostRuntime) {
    ask_itself(&rt, rt.alloc());
}

fn ask_itself(rt: &impl Abort, alloc: Global) {
    let mut object = passed_object(rt, alloc);
    let asked = raising(rt, &object).expect(rt, "a letter");
    assert!(rt; asked.next.is_some() && asked.start.is_some());
    assert!(rt; object.serve(asked).expect(rt, "memory").is_some());
    assert!(rt; raising(rt, &object).is_none() && object.can_close(0));
}

// Before the node hears of the start, and at a position of which it is no member, it raises nothing.
#[test]
fn raises_nothing_else(rt: HostRuntime) {
    raise_nothing(&rt, rt.alloc());
}

fn raise_nothing(rt: &impl Abort, alloc: Global) {
    let mut object = new_object(rt, alloc);
    write_and_spread(rt, alloc, &mut object);
    assert_passed(rt, &object, &[]);
    assert!(rt; object.raise(0).is_ok() && !object.can_close(0));
    assert!(rt; object.member_at(0) == Some(1) && object.member_at(1).is_none());
    assert!(rt; raising(rt, &object).is_none());
}

// The object of node 4 after two writes, where the pointer of position 0 is pending, and calls begin at position 1.
fn passed_object(rt: &impl Abort, alloc: Global) -> LocalObject {
    let mut object = new_object(rt, alloc);
    write_and_spread(rt, alloc, &mut object);
    tell_start(rt, alloc, &mut object);
    object
}

// A request tells the node that calls begin at position 1.
fn tell_start(rt: &impl Abort, alloc: Global, object: &mut LocalObject) {
    let first = shared_layout(rt, alloc, 2, &[6, 4, 2]);
    let mut query = letter(first, None, Request::Query);
    query.start = Some(Start {
        position: 1,
        layout: shared_layout(rt, alloc, 2, &[1, 2, 3]),
    });
    assert!(rt; object.serve(query).is_ok() && object.start() == 1);
}

fn raising(rt: &impl Abort, object: &LocalObject) -> Option<Letter> {
    raising_letter(object, 0).expect(rt, "memory")
}

// The node keeps open banks at these positions before the start.
fn assert_passed(rt: &impl Abort, object: &LocalObject, wanted: &[u32]) {
    let positions = object.passed_positions().expect(rt, "memory");
    assert!(rt; positions.as_slice() == wanted, "{positions:?}");
}
