//! Frames and faults, read from memory and from a slow reader.
use super::commands::{SET, is_set};
use super::slow::Slow;
use crate::checks::{assert_bytes, assert_prints};
use frames::{Fault, FrameError, read_frame};
use std::alloc::Global;
use std::io::ErrorKind;
use std::process::Abort;

/// Bytes that are no frame, and why.
static FAULTS: [(&[u8], Fault); 20] = [
    (b"PING\r\n", Fault::BadType),
    (b"\r\n", Fault::BadType),
    (b"*1\r\n:1\r\n", Fault::BadType),
    (b"*-1\r\n", Fault::BadNumber),
    (b"*+1\r\n", Fault::BadNumber),
    (b"*\r\n", Fault::BadNumber),
    (b"*01\r\n", Fault::BadNumber),
    (b"*00\r\n", Fault::BadNumber),
    (b"*1 \r\n", Fault::BadNumber),
    (b"*1\n", Fault::BadNumber),
    (b"*1\r\n$-1\r\n", Fault::BadNumber),
    (b"*1\r\r\n", Fault::NoLineEnd),
    (b"*1\r\n$1\r\nab\r\n", Fault::NoLineEnd),
    (b"*1\r\n$2\r\na\r\n", Fault::NoLineEnd),
    (b"*1025\r\n", Fault::TooManyStrings),
    (b"*18446744073709551616", Fault::TooManyStrings),
    (b"*1\r\n$16842753\r\n", Fault::StringTooLong),
    (b"*1\r\n$18446744073709551617", Fault::StringTooLong),
    (b"*1\r\n$16842752\r\nab", Fault::UnexpectedEnd),
    (b"*2\r\n$1\r\na\r\n", Fault::UnexpectedEnd),
];

/// What is read of `GET photo`.
const GET_READ: &str = "Ok(Some(Frame { strings: [b\"GET\", b\"photo\"] }))";

/// What is read of `SET`.
const SET_READ: &str = "Ok(Some(Frame { strings: [b\"SET\", b\"photo\", b\"\\r\\n*1\"] }))";

/// The next frame of the input is printed so for debugging.
fn assert_reads<R: Abort>(rt: &R, alloc: Global, input: &mut &[u8], wanted: &str) {
    assert_prints(rt, alloc, &read_frame(alloc, input), wanted);
}

#[test]
fn commands_in_a_row(rt: HostRuntime) {
    let mut input: &[u8] = b"*2\r\n$3\r\nGET\r\n$5\r\nphoto\r\n*1\r\n$0\r\n\r\n*0\r\nPING";
    assert_reads(&rt, rt.alloc(), &mut input, GET_READ);
    assert_reads(
        &rt,
        rt.alloc(),
        &mut input,
        "Ok(Some(Frame { strings: [b\"\"] }))",
    );
    assert_reads(
        &rt,
        rt.alloc(),
        &mut input,
        "Ok(Some(Frame { strings: [] }))",
    );
    assert_bytes(&rt, input, b"PING");
}

#[test]
fn nothing_at_the_end(rt: HostRuntime) {
    assert_reads(&rt, rt.alloc(), &mut b"".as_slice(), "Ok(None)");
}

fn fault_of(alloc: Global, bytes: &[u8]) -> Option<Fault> {
    match read_frame(alloc, &mut &*bytes).err() {
        Some(FrameError::Fault(fault)) => Some(fault),
        _ => None,
    }
}

#[test]
fn faults(rt: HostRuntime) {
    for &(bytes, fault) in &FAULTS {
        assert!(rt; fault_of(rt.alloc(), bytes) == Some(fault), "{bytes:?}");
    }
}

#[test]
fn a_cut_at_every_byte(rt: HostRuntime) {
    for len in 1..SET.len() {
        assert!(rt; fault_of(rt.alloc(), &SET[..len]) == Some(Fault::UnexpectedEnd));
    }
}

#[test]
fn a_reader_that_fails_at_every_byte(rt: HostRuntime) {
    for calls in 0..SET.len() {
        let mut reader = Slow::new(rt.alloc(), SET, calls);
        let read = read_frame(rt.alloc(), &mut reader);
        assert!(rt;
            matches!(read, Err(FrameError::Failed(error)) if error.kind() == ErrorKind::ConnectionReset)
        );
    }
}

#[test]
fn one_byte_at_a_time(rt: HostRuntime) {
    let mut reader = Slow::new(rt.alloc(), SET, SET.len());
    assert_prints(
        &rt,
        rt.alloc(),
        &read_frame(rt.alloc(), &mut reader),
        SET_READ,
    );
}

/// With enough memory this is a frame, and wherever memory is refused, `NoMemory`.
#[test]
fn a_frame_or_no_memory(rt: HostRuntime) {
    let read = read_frame(rt.alloc(), &mut &SET[..]);
    assert!(rt;
        matches!(&read, Ok(Some(frame)) if is_set(frame))
            || matches!(&read, Err(FrameError::NoMemory))
    );
}
