//! Sums of byte slices that are multiplied by constants of the field.

ghost use Rattle.std.specs.Prelude.{◌≡◌, ℕ, ◌+◌, ◌<◌, ◌≤◌, length, bit_xor, slice_index, EachIndex};
ghost use Rattle.gf256.specs.Field.{field_product};
ghost use Rattle.gf256.specs.Polynomial.{AreBytes, scaled as scaled_by};

use crate::BLOCK;
use gf256::{REDUCED_X8, mul};
use std::simd::prelude::*;

/// Multiplies each byte of `acc` by `c` and adds the byte of `src` at the same index. The slices have the same length.
pub fn scale_add(acc: &mut [u8], c: u8, src: &[u8])
    requires { length acc.old ≡ length src.now }
    ensures { EachIndex acc.new (λ b. slice_index acc.new b
        ≡ bit_xor (field_product c (slice_index acc.old b)) (slice_index src.now b)) }
{
    combine(acc, c, 1, src);
}

/// Adds to each byte of `dst` the product of `c` and the byte of `src` at the same index. The slices have the same
/// length.
pub fn add_scaled(dst: &mut [u8], c: u8, src: &[u8])
    requires { length dst.old ≡ length src.now }
    ensures { EachIndex dst.new (λ b. slice_index dst.new b
        ≡ bit_xor (slice_index dst.old b) (field_product c (slice_index src.now b))) }
{
    combine(dst, 1, c, src);
}

/// Replaces each byte of `target` by the sum of `own` times this byte and `other` times the byte of `src` at the same
/// index. It is inlined, so that a constant factor 1 costs nothing.
#[inline(always)]
fn combine(target: &mut [u8], own: u8, other: u8, src: &[u8])
    requires { length target.old ≡ length src.now }
    ensures sum { EachIndex target.new (λ b. slice_index target.new b
        ≡ bit_xor (field_product own (slice_index target.old b)) (field_product other (slice_index src.now b))) }
    ensures bytes { AreBytes target.old }
{
    let blocks = target.len() / BLOCK;
    for block in 0..blocks {
        combine_block(target, block * BLOCK, own, other, src);
    }
    for b in blocks * BLOCK..target.len() {
        target[b] = mul(own, target[b]) ^ mul(other, src[b]);
    }
}

/// Does what `combine` does for the one block that begins at `start`.
#[inline(always)]
fn combine_block(target: &mut [u8], start: usize, own: u8, other: u8, src: &[u8])
    requires len { length target.old ≡ length src.now }
    requires fits { start + BLOCK ≤ length target.old }
    ensures inside { (b : ℕ) → b < BLOCK → slice_index target.new (start + b)
        ≡ bit_xor (field_product own (slice_index target.old (start + b)))
        (field_product other (slice_index src.now (start + b))) }
    ensures before { (n : ℕ) → n < start → slice_index target.new n ≡ slice_index target.old n }
    ensures after { (n : ℕ) → start + BLOCK ≤ n → slice_index target.new n ≡ slice_index target.old n }
{
    let product = scaled(u8x32::from_slice(&target[start..]), own);
    let sum = product ^ scaled(u8x32::from_slice(&src[start..]), other);
    sum.copy_to_slice(&mut target[start..]);
}

/// `c` times each lane: the sum of x^i times the lane, over the bits i that are set in `c`. It stops at the highest set
/// bit.
#[inline(always)]
fn scaled(lanes: u8x32, c: u8) -> u8x32
    ensures { result ≡ scaled_by c lanes }
{
    let bits = 8 - c.leading_zeros();
    let mut term = lanes;
    let mut sum = if c & 1 == 1 { lanes } else { u8x32::splat(0) };
    for i in 1..bits {
        term = doubled(term);
        if (c >> i) & 1 == 1 {
            sum ^= term;
        }
    }
    sum
}

/// `x` times each lane.
#[inline(always)]
fn doubled(lanes: u8x32) -> u8x32
    ensures { result ≡ scaled_by 2 lanes }
{
    let high = lanes.simd_ge(u8x32::splat(0x80));
    (lanes + lanes) ^ high.select(u8x32::splat(REDUCED_X8), u8x32::splat(0))
}
