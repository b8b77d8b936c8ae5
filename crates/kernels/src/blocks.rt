//! Blocks of 32 bytes: loads with zeros past the end, and stores.

ghost use Rattle.std.specs.Prelude.{◌≡◌, ℕ, ◌+◌, ◌*◌, ◌<◌, ◌≤◌, length, slice_index, IsTrue};
ghost use Rattle.kernels.specs.Dot.{lanes_from};

use std::simd::prelude::*;

/// Bytes in a block, which one vector holds.
pub(crate) const BLOCK: usize = 32;

/// Returns the bytes of `value` from `start` on, with zeros past its end. If it is known that all are there, `whole`
/// saves the test.
#[inline(always)]
pub(crate) fn load(value: &[u8], start: usize, whole: bool) -> u8x32
    requires { IsTrue whole → start + BLOCK ≤ length value.now }
    ensures { result ≡ lanes_from (slice_index value.now) start }
{
    if whole {
        whole_block(value, start)
    } else {
        padded_block(value, start)
    }
}

/// Returns the bytes of `value` from `start` on, which are all there.
#[inline(always)]
fn whole_block(value: &[u8], start: usize) -> u8x32
    requires { start + BLOCK ≤ length value.now }
    ensures { result ≡ lanes_from (slice_index value.now) start }
{
    u8x32::from_slice(&value[start..])
}

/// Returns the bytes of `value` from `start` on, with zeros past its end.
#[inline(always)]
fn padded_block(value: &[u8], start: usize) -> u8x32
    ensures { result ≡ lanes_from (slice_index value.now) start }
{
    if start <= value.len() && value.len() - start >= BLOCK {
        whole_block(value, start)
    } else {
        last_block(value, start)
    }
}

/// `padded_block` near the end of `value`.
#[inline(never)]
fn last_block(value: &[u8], start: usize) -> u8x32
    ensures { result ≡ lanes_from (slice_index value.now) start }
{
    let mut block = [0; BLOCK];
    for i in 0..value.len().saturating_sub(start).min(BLOCK) {
        block[i] = value[start + i];
    }
    u8x32::from_array(block)
}

/// Writes the first `width` lanes over the bytes from `start` on.
#[inline(always)]
pub(crate) fn store(out: &mut [u8], start: usize, width: usize, lanes: u8x32)
    requires block { width ≤ BLOCK }
    requires room { start + width ≤ length out.old }
    ensures inside { (i : ℕ) → i < width → slice_index out.new (start + i) ≡ slice_index lanes i }
    ensures before { (n : ℕ) → n < start → slice_index out.new n ≡ slice_index out.old n }
    ensures after { (n : ℕ) → start + width ≤ n → slice_index out.new n ≡ slice_index out.old n }
{
    if width == BLOCK {
        lanes.copy_to_slice(&mut out[start..]);
    } else {
        store_first(out, start, width, lanes);
    }
}

/// `store`, as far as `out` goes.
#[inline(always)]
pub(crate) fn store_within(out: &mut [u8], start: usize, width: usize, lanes: u8x32)
    requires block { width ≤ BLOCK }
    ensures inside { (i : ℕ) → i < width → start + i < length out.old
        → slice_index out.new (start + i) ≡ slice_index lanes i }
    ensures before { (n : ℕ) → n < start → slice_index out.new n ≡ slice_index out.old n }
    ensures after { (n : ℕ) → start + width ≤ n → slice_index out.new n ≡ slice_index out.old n }
{
    if start < out.len() {
        store(out, start, width.min(out.len() - start), lanes);
    }
}

/// Writes the lanes of two blocks over the bytes from `start` on.
#[inline(always)]
pub(crate) fn store_two(out: &mut [u8], start: usize, left: u8x32, right: u8x32)
    requires room { start + 2 * BLOCK ≤ length out.old }
    ensures left { (i : ℕ) → i < BLOCK → slice_index out.new (start + i) ≡ slice_index left i }
    ensures right { (i : ℕ) → i < BLOCK → slice_index out.new (start + BLOCK + i) ≡ slice_index right i }
    ensures before { (n : ℕ) → n < start → slice_index out.new n ≡ slice_index out.old n }
    ensures after { (n : ℕ) → start + 2 * BLOCK ≤ n → slice_index out.new n ≡ slice_index out.old n }
{
    store(out, start, BLOCK, left);
    store(out, start + BLOCK, BLOCK, right);
}

/// `store` of fewer lanes than a block has.
#[inline(never)]
fn store_first(out: &mut [u8], start: usize, width: usize, lanes: u8x32)
    requires block { width ≤ BLOCK }
    requires room { start + width ≤ length out.old }
    ensures inside { (i : ℕ) → i < width → slice_index out.new (start + i) ≡ slice_index lanes i }
    ensures before { (n : ℕ) → n < start → slice_index out.new n ≡ slice_index out.old n }
    ensures after { (n : ℕ) → start + width ≤ n → slice_index out.new n ≡ slice_index out.old n }
{
    let bytes = lanes.to_array();
    for i in 0..width {
        out[start + i] = bytes[i];
    }
}
