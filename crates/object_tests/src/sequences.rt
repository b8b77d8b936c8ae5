//! The sequence of an object that has only an open read.

use crate::acts::{object, read_at};
use history::{atomic, check, sequence};
use register::Register;
use std::alloc::Global;
use std::process::Abort;

/// Compares the sequence of an object with the only one, which is empty, and looks for a call that is not there.
fn assert_empty(rt: &impl Abort, alloc: Global, object: &Register) {
    let order = sequence(alloc, object).expect(rt, "an order");
    let entries = object.entries().expect(rt, "entries");
    assert!(rt; order.is_empty() && check(&entries, &order));
    assert!(rt; !check(&entries, &[2]));
}

#[test]
fn leaves_out_an_open_read(rt: HostRuntime) {
    let mut object = object(&rt, rt.alloc(), 1, &[0]);
    assert!(rt; read_at(&rt, &mut object, 2) == Ok(1));
    atomic(&object);
    assert_empty(&rt, rt.alloc(), &object);
}
