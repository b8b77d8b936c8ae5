//! Frames of strings, and what they ask for.
use crate::checks::{assert_prints, strings};
use client_commands::{CommandFault, read_command};
use frames::Frame;
use std::alloc::Global;
use std::process::Abort;

/// The frame of these strings.
pub(crate) fn frame_of<R: Abort>(rt: &R, alloc: Global, texts: &[&[u8]]) -> Frame {
    Frame::new(strings(rt, alloc, texts)).expect(rt, "a frame")
}

/// The frame asks for this command, or for nothing by this fault, as the result is printed for debugging.
pub(crate) fn assert_asks<R: Abort>(rt: &R, alloc: Global, frame: Frame, wanted: &str) {
    assert_prints(rt, alloc, &read_command(frame), wanted);
}

/// Why the frame asks for no command.
pub(crate) fn fault_of(frame: Frame) -> Option<CommandFault> {
    read_command(frame).err()
}

/// The frame of these strings has this fault.
pub(crate) fn assert_fault<R: Abort>(rt: &R, alloc: Global, texts: &[&[u8]], wanted: CommandFault) {
    assert!(rt;
        fault_of(frame_of(rt, alloc, texts)) == Some(wanted),
        "{texts:?}"
    );
}
