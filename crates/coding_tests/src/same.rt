//! What the tests share: the assertion of a table's row, and loops over bytes.
use std::alloc::Global;
use std::process::Abort;

/// What is tested of the row of this place in its table holds; if not, the message has the place.
pub(crate) fn assert_row(rt: &impl Abort, place: usize, holds: bool) {
    assert!(rt; holds, "row {place}");
}

/// Returns whether each byte is this one.
pub(crate) fn are_all(bytes: &[u8], byte: u8) -> bool {
    for found in bytes {
        if *found != byte {
            return false;
        }
    }
    true
}

/// Returns the byte at this place, or 0 after the end.
pub(crate) fn byte_at(bytes: &[u8], place: usize) -> u8 {
    match bytes.get(place) {
        Some(byte) => *byte,
        None => 0,
    }
}

/// Returns a length as a number of 32 bits, or 0 if it does not fit.
pub(crate) fn len_of(len: usize) -> u32 {
    match u32::try_from(len) {
        Ok(len) => len,
        Err(_) => 0,
    }
}

/// Fills bytes by a rule by which each value of a byte comes up, from another one on at another `seed`.
pub(crate) fn fill(seed: u8, bytes: &mut [u8]) {
    let mut next = seed;
    for byte in bytes.iter_mut() {
        *byte = next;
        next = next.wrapping_mul(5).wrapping_add(7);
    }
}

/// Returns so many bytes, as `fill` makes them from 1.
pub(crate) fn filled(rt: &impl Abort, alloc: Global, len: usize) -> Vec<u8> {
    let mut bytes = vec![in alloc; 0; len].expect(rt, "so many bytes");
    fill(1, &mut bytes);
    bytes
}
