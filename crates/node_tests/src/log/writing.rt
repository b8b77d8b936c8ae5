//! Frames written to memory and to a slow writer.
use super::commands::{SET, set, written};
use super::slow::Slow;
use crate::checks::assert_bytes;
use frames::{Frame, write_bytes, write_frame};
use std::alloc::Global;
use std::io;
use std::io::ErrorKind;
use std::process::Abort;

#[test]
fn a_command(rt: HostRuntime) {
    let out = written(&rt, rt.alloc(), &set(&rt, rt.alloc()));
    assert_bytes(&rt, &out, SET);
}

fn kind_of(written: io::Result<()>) -> Option<ErrorKind> {
    match written {
        Err(error) => Some(error.kind()),
        Ok(()) => None,
    }
}

/// A writer of one byte at a time that fails once it has these bytes has only these of the frame, and the writing fails
/// so, or not at all.
fn assert_slow<R: Abort>(
    rt: &R,
    alloc: Global,
    frame: &Frame,
    wanted: &[u8],
    failure: Option<ErrorKind>,
) {
    let mut writer = Slow::new(alloc, b"", wanted.len());
    assert!(rt; kind_of(write_frame(&mut writer, frame)) == failure);
    assert_bytes(rt, &writer.written, wanted);
}

#[test]
fn a_writer_that_fails_at_every_byte(rt: HostRuntime) {
    let frame = set(&rt, rt.alloc());
    for calls in 0..SET.len() {
        let failure = Some(ErrorKind::ConnectionReset);
        assert_slow(&rt, rt.alloc(), &frame, &SET[..calls], failure);
    }
}

#[test]
fn one_byte_at_a_time(rt: HostRuntime) {
    assert_slow(&rt, rt.alloc(), &set(&rt, rt.alloc()), SET, None);
}

#[test]
fn bytes_alone(rt: HostRuntime) {
    let mut out = Vec::new(rt.alloc());
    write_bytes(&mut out, b"hello").expect(&rt, "memory");
    assert_bytes(&rt, &out, b"hello");
}
