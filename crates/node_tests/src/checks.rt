//! Strings, frames and layouts that are made, and comparisons with what is written by hand.
use bytes::Bytes;
use frames::{Frame, read_frame};
use layout::Layout;
use letter::SharedLayout;
use std::alloc::Global;
use std::fmt::Debug;
use std::process::Abort;

/// Returns copies of these strings.
pub(crate) fn strings<R: Abort>(rt: &R, alloc: Global, texts: &[&[u8]]) -> Vec<Bytes> {
    let mut strings = Vec::new(alloc);
    for text in texts {
        let copied = Bytes::copy_from_slice(alloc, text).expect(rt, "memory");
        strings.push(copied).expect(rt, "memory");
    }
    strings
}

/// The frame that these bytes are.
pub(crate) fn frame_in<R: Abort>(rt: &R, alloc: Global, sent: &[u8]) -> Frame {
    let frame = read_frame(alloc, &mut &*sent).expect(rt, "no fault");
    frame.expect(rt, "a frame")
}

/// The layout of these members.
pub(crate) fn layout<R: Abort>(rt: &R, k: u8, members: &[u8]) -> Layout {
    Layout::new(k, members).expect(rt, "a layout")
}

/// The layout of these members, to be shared.
pub(crate) fn shared_layout<R: Abort>(
    rt: &R,
    alloc: Global,
    k: u8,
    members: &[u8],
) -> SharedLayout {
    SharedLayout::new(alloc, layout(rt, k, members)).expect(rt, "memory")
}

fn are_equal(one: &[Bytes], other: &[Bytes]) -> bool {
    one == other
}

/// Asserts that the strings are the wanted ones.
pub(crate) fn assert_strings<R: Abort>(rt: &R, found: &[Bytes], wanted: &[Bytes]) {
    assert!(rt; are_equal(found, wanted), "{found:?}");
}

/// Asserts that the bytes are the wanted ones.
pub(crate) fn assert_bytes<R: Abort>(rt: &R, found: &[u8], wanted: &[u8]) {
    assert_eq!(rt; found, wanted);
}

/// Asserts that the text is the wanted one.
pub(crate) fn assert_text<R: Abort>(rt: &R, text: &str, wanted: &str) {
    assert!(rt; text == wanted, "{text}");
}

/// Asserts how the value is printed for debugging.
pub(crate) fn assert_prints<R: Abort, T: Debug>(rt: &R, alloc: Global, value: &T, wanted: &str) {
    let text = format!(in alloc; "{value:?}").expect(rt, "memory");
    assert_text(rt, text.as_str(), wanted);
}
