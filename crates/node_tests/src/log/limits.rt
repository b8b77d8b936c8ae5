//! Frames that are just within the limits, and just above them.
use super::commands::written;
use crate::checks::frame_in;
use bytes::Bytes;
use frames::{Fault, Frame, LONGEST_STRING, MOST_STRINGS};
use std::alloc::Global;
use std::process::Abort;

/// `count` strings of `len` zeros.
pub(crate) fn zeros<R: Abort>(rt: &R, alloc: Global, count: usize, len: usize) -> Vec<Bytes> {
    let mut strings = Vec::new(alloc);
    for _ in 0..count {
        let string = vec![in alloc; 0; len].expect(rt, "memory");
        let shared = Bytes::from_vec(string).expect(rt, "memory");
        strings.push(shared).expect(rt, "memory");
    }
    strings
}

/// Such a frame is written, and read back.
fn assert_read_back<R: Abort>(rt: &R, alloc: Global, count: usize, len: usize) {
    let frame = Frame::new(zeros(rt, alloc, count, len)).expect(rt, "a frame");
    let out = written(rt, alloc, &frame);
    assert!(rt; frame_in(rt, alloc, &out).strings().len() == count);
    assert!(rt; frame.into_strings().len() == count);
}

#[test]
fn within_the_limits(rt: HostRuntime) {
    assert_read_back(&rt, rt.alloc(), MOST_STRINGS, 0);
    assert_read_back(&rt, rt.alloc(), 1, LONGEST_STRING);
}

/// There is no such frame.
fn assert_refused<R: Abort>(rt: &R, alloc: Global, count: usize, len: usize, fault: Fault) {
    let refused = Frame::new(zeros(rt, alloc, count, len)).err();
    assert!(rt; refused == Some(fault), "{fault}");
}

#[test]
fn above_the_limits(rt: HostRuntime) {
    assert_refused(&rt, rt.alloc(), MOST_STRINGS + 1, 0, Fault::TooManyStrings);
    assert_refused(&rt, rt.alloc(), 1, LONGEST_STRING + 1, Fault::StringTooLong);
}
