//! The state of the check after bytes.
ghost use Rattle.std.specs.Prelude.{◌≡◌, length, slice_index};
ghost use Rattle.node_log.specs.Crc32c.{after_byte, after_bytes, crc32c};

use crate::folding::{MANY, after_many};
use crate::tables::{FAR, NEAR};

/// The CRC-32C of bytes.
pub fn checksum(bytes: &[u8]) -> u32
    ensures { result ≡ crc32c bytes.now }
{
    after_bytes(u32::MAX, bytes) ^ u32::MAX
}

/// The state after bytes.
pub(crate) fn after_bytes(state: u32, bytes: &[u8]) -> u32
    ensures { result ≡ after_bytes state bytes.now }
{
    if bytes.len() < MANY {
        after_few(state, bytes)
    } else {
        after_many(state, bytes)
    }
}

/// The state after bytes, of which eight are taken at a time.
pub(crate) fn after_few(state: u32, bytes: &[u8]) -> u32
    ensures { result ≡ after_bytes state bytes.now }
{
    let mut state = state;
    let mut rest = bytes;
    while let Some((first, more)) = rest.split_first_chunk::<8>() {
        state = after_eight(state, first);
        rest = more;
    }
    after_each(state, rest)
}

// The state after bytes, which are taken one at a time.
fn after_each(state: u32, bytes: &[u8]) -> u32
    ensures { result ≡ after_bytes state bytes.now }
{
    let mut state = state;
    for byte in bytes {
        state = after_byte(state, *byte);
    }
    state
}

// The state after one byte.
fn after_byte(state: u32, byte: u8) -> u32
    ensures { result ≡ after_byte state byte }
{
    let low = state.to_le_bytes();
    (state >> 8) ^ shifted(&NEAR[0], low[0] ^ byte)
}

// The state after eight bytes. Each byte, and each of the state's own, is shifted by itself, as far as the bytes
// behind it shift it, and the sum of all is the new state. The state is added to the first four bytes at once.
fn after_eight(state: u32, bytes: &[u8; 8]) -> u32
    ensures { result ≡ after_bytes state bytes.now }
{
    let first = u32::from_le_bytes([bytes[0], bytes[1], bytes[2], bytes[3]]);
    let sums = (state ^ first).to_le_bytes();
    shifted(&NEAR[0], bytes[7])
        ^ shifted(&NEAR[1], bytes[6])
        ^ shifted(&NEAR[2], bytes[5])
        ^ shifted(&NEAR[3], bytes[4])
        ^ shifted(&FAR[0], sums[3])
        ^ shifted(&FAR[1], sums[2])
        ^ shifted(&FAR[2], sums[1])
        ^ shifted(&FAR[3], sums[0])
}

// The entry of a table of shifted states.
#[inline(always)]
fn shifted(table: &[u32; 256], state: u8) -> u32
    ensures { result ≡ slice_index table.now state }
{
    table[state as usize]
}
