//! The run is carried out, and the value is read.
use crate::{three_nodes_write_and_read, write_and_read};
use std::alloc::Global;
use std::process::Abort;

#[test]
fn the_value_is_read(rt: HostRuntime) {
    assert_read(&rt, rt.alloc());
}

fn assert_read(rt: &impl Abort, alloc: Global) {
    let run = three_nodes_write_and_read(alloc).expect(rt, "a run");
    match write_and_read(&run) {
        Some((written, read)) => {
            assert_eq!(rt; written.as_slice(), b"hello".as_slice());
            assert_eq!(rt; read.as_slice(), b"hello".as_slice());
        }
        None => assert!(rt; false),
    }
}
