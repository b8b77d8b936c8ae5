//! The state of the check after many bytes. Most of them are folded, and not looked up in tables: each one is added to
//! five bytes behind it.
ghost use Rattle.std.specs.Prelude.{◌≡◌, ◌+◌, ◌<◌, ◌≤◌, length, slice_index};
ghost use Rattle.node_log.specs.Crc32c.{after_bytes};
ghost use Rattle.node_log.specs.Folding.{GoesOn, StandsAt, Unfolds, over_powers};

use crate::states::after_few;

// The last so many folded bytes stand for a state.
const REACH: usize = 437;

// So many bytes are folded at a time.
const BLOCK: usize = 1024;

/// Of so many bytes, a block can be folded.
pub(crate) const MANY: usize = REACH + BLOCK;

/// The state after bytes, of which there are at least as many as the last folded bytes. It is not inlined, so that few
/// bytes do not pay for its locals.
#[inline(never)]
pub(crate) fn after_many(state: u32, bytes: &[u8]) -> u32
    requires { 437 ≤ length bytes.now }
    ensures { result ≡ after_bytes state bytes.now }
{
    let mut folded = folded_state(state);
    let mut rest = bytes;
    while rest.len() >= MANY {
        let (first, more) = rest.split_at(BLOCK);
        fold(&mut folded, first);
        rest = more;
    }
    let (near, more) = rest.split_at(REACH);
    after_few(after_few(0, &unfolded(&mut folded, near)), more)
}

// Folded bytes that stand for a state, with room for a block behind them.
fn folded_state(state: u32) -> [u8; MANY]
    ensures { StandsAt state 0 result }
{
    let mut folded = [0; MANY];
    let low = state.to_le_bytes();
    for i in 0..4usize {
        folded[i] = low[i];
    }
    folded
}

// Folds a block of bytes behind the folded ones, and moves the last ones to the front.
fn fold(folded: &mut [u8], bytes: &[u8])
    requires room { length folded.old ≡ 1461 }
    requires block { length bytes.now ≡ 1024 }
    ensures len { length folded.new ≡ 1461 }
    ensures folds { GoesOn folded.old bytes.now folded.new }
{
    for i in 0..BLOCK {
        folded[REACH + i] = bytes[i] ^ added(folded, i);
    }
    folded.copy_within(BLOCK.., 0);
}

// Adds what the folded bytes stand for to the bytes behind them.
fn unfolded(folded: &mut [u8], bytes: &[u8]) -> [u8; REACH]
    requires room { length folded.old ≡ 1461 }
    requires near { length bytes.now ≡ 437 }
    ensures { Unfolds folded.old bytes.now result }
{
    for i in REACH..REACH + 177 {
        folded[i] = 0;
    }
    let mut unfolded = [0; REACH];
    for i in 0..REACH {
        unfolded[i] = bytes[i] ^ added(folded, i);
    }
    unfolded
}

// What is added to a byte: the sum of folded bytes from a place on.
#[inline(always)]
fn added(folded: &[u8], place: usize) -> u8
    requires { place + 177 < length folded.now }
    ensures { result ≡ over_powers (λ s. slice_index folded.now (place + s)) }
{
    folded[place]
        ^ folded[place + 58]
        ^ folded[place + 171]
        ^ folded[place + 176]
        ^ folded[place + 177]
}
