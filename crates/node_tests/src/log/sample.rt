//! An entry, and its bytes.
use crate::checks::strings;
use node_log::Entry;
use std::alloc::Global;
use std::process::Abort;

/// The entry of the strings `SET`, `photo` and `hello`, at the beginning of a log. The body has 35 bytes. All digests
/// were computed with a Python function that shifts one bit at a time and gives the sums of RFC 3720.
pub(crate) const SET: &[u8] =
    b"\x05\x00\x00\x00\x00\x00\x00#\xbde\x19o#\x97\xe8\x8b*3\r\n$3\r\nSET\r\n$5\r\nphoto\r\n$5\r\nhello\r\n";

/// The head of that entry in form 4.
pub(crate) const FORM_4_HEAD: [u8; 16] = *b"\x04\x00\x00\x00\x00\x00\x00#\xbde\x19o\x12\xe6<\xbb";

/// The head of that entry in form 3.
pub(crate) const FORM_3_HEAD: [u8; 16] = *b"\x03\x00\x00\x00\x00\x00\x00#\xbde\x19o\x84\xb3\x10+";

/// The head of that entry in form 2.
pub(crate) const FORM_2_HEAD: [u8; 16] =
    *b"\x02\x00\x00\x00\x00\x00\x00#\xbde\x19o\xb5\xc2\xc4\x1b";

/// The head of that entry in form 1.
pub(crate) const OLD_HEAD: [u8; 16] = *b"\x00\x00\x00\x00\x00\x00\x00#\xbde\x19o\xd7!l{";

/// That entry, and behind it the one without strings.
pub(crate) const SET_AND_NOTHING: &[u8] = b"\x05\x00\x00\x00\x00\x00\x00#\xbde\x19o#\x97\xe8\x8b\
    *3\r\n$3\r\nSET\r\n$5\r\nphoto\r\n$5\r\nhello\r\n\
    \x05\x00\x00\x00\x00\x00\x00\x04\xecY\x8b\x9e2\xda45*0\r\n";

/// Returns the entry of `SET photo hello`, made of its strings.
pub(crate) fn set<R: Abort>(rt: &R, alloc: Global) -> Entry {
    let strings = strings(rt, alloc, &[b"SET", b"photo", b"hello"]);
    Entry::new(alloc, strings).expect(rt, "an entry")
}

/// These bytes, so many zeros behind them, and other bytes behind these.
pub(crate) fn with_zeros<R: Abort>(
    rt: &R,
    alloc: Global,
    first: &[u8],
    zeros: usize,
    last: &[u8],
) -> Vec<u8> {
    let mut log = Vec::from_slice(alloc, first).expect(rt, "memory");
    for _ in 0..zeros {
        log.push(0).expect(rt, "memory");
    }
    log.extend_from_slice(last).expect(rt, "memory");
    log
}
