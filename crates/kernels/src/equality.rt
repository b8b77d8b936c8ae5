//! Equality of slices.

ghost use Rattle.std.specs.Prelude.{◌≡◌, ℕ, ◌+◌, ◌<◌, ◌≤◌, ◌↔◌, length, slice_index, IsTrue};

use crate::BLOCK;
use std::simd::prelude::*;

/// Returns whether two slices of the same length hold the same bytes.
pub fn same(a: &[u8], b: &[u8]) -> bool
    requires { length a.now ≡ length b.now }
    ensures { IsTrue result ↔ (a.now ≡ b.now) }
{
    let blocks = a.len() / BLOCK;
    for block in 0..blocks {
        if !is_block_same(a, b, block * BLOCK) {
            return false;
        }
    }
    for i in blocks * BLOCK..a.len() {
        if a[i] != b[i] {
            return false;
        }
    }
    true
}

/// Returns whether the blocks of `BLOCK` bytes that begin at `start` hold the same bytes.
fn is_block_same(a: &[u8], b: &[u8], start: usize) -> bool
    requires left { start + BLOCK ≤ length a.now }
    requires right { start + BLOCK ≤ length b.now }
    ensures { IsTrue result ↔ ((n : ℕ) → n < BLOCK → slice_index a.now (start + n) ≡ slice_index b.now (start + n)) }
{
    let lanes = u8x32::from_slice(&a[start..]);
    lanes.simd_eq(u8x32::from_slice(&b[start..])).all()
}
