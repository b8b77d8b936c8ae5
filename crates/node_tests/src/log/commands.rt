//! A command, and what it says.
use crate::checks::strings;
use frames::{Frame, write_frame};
use std::alloc::Global;
use std::process::Abort;

/// What `redis-cli` sends for `SET photo` with a value of CR, LF, `*` and `1`.
pub(crate) const SET: &[u8] = b"*3\r\n$3\r\nSET\r\n$5\r\nphoto\r\n$4\r\n\r\n*1\r\n";

fn is_text(string: &[u8], text: &[u8]) -> bool {
    string == text
}

pub(crate) fn is_set(frame: &Frame) -> bool {
    match frame.strings() {
        [name, key, value] => {
            is_text(name, b"SET") && is_text(key, b"photo") && is_text(value, b"\r\n*1")
        }
        _ => false,
    }
}

/// Returns the frame of `SET photo`, made of its strings.
pub(crate) fn set<R: Abort>(rt: &R, alloc: Global) -> Frame {
    let strings = strings(rt, alloc, &[b"SET", b"photo", b"\r\n*1"]);
    Frame::new(strings).expect(rt, "a frame")
}

/// Returns what is written to memory of this frame.
pub(crate) fn written<R: Abort>(rt: &R, alloc: Global, frame: &Frame) -> Vec<u8> {
    let mut out = Vec::new(alloc);
    write_frame(&mut out, frame).expect(rt, "memory");
    out
}
