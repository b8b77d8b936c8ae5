//! Lines, lane by lane, that have a polynomial's values at both points of a pair.

ghost use Rattle.std.specs.Prelude.{◌≡◌, ℕ, ◌+◌, ◌%◌, ◌<◌, bit_xor, slice_index, IsTrue};
ghost use Rattle.gf256.specs.Field.{field_product};
ghost use Rattle.kernels.specs.Line.{IsRoot, line_at};

use crate::Tables;
use std::simd::prelude::*;

/// A line in each lane: `slope` times x plus `level`.
#[derive(Clone, Copy)]
pub(crate) struct Line {
    pub(crate) slope: u8x32,
    pub(crate) level: u8x32,
}

/// Returns the line of this slope and level, whose lanes are bytes.
#[inline(always)]
pub(crate) fn line_of(slope: u8x32, level: u8x32) -> Line
    ensures is { result ≡ record { slope = slope; level = level } }
    ensures slopes { (i : ℕ) → i < 32 → slice_index slope i < 256 }
    ensures levels { (i : ℕ) → i < 32 → slice_index level i < 256 }
{
    Line { slope, level }
}

/// Returns the line with the values of x times the line plus `block` at the two points whose product has these tables,
/// `step`. If it is known to be 0, `zero` saves a product.
#[inline(always)]
pub(crate) fn next(slope: u8x32, level: u8x32, step: &Tables, block: u8x32, zero: bool) -> Line
    requires { IsTrue zero → step.now ≡ 0 }
    ensures { (x i : ℕ) → IsRoot step.now x → i < 32 → line_at result x i
        ≡ bit_xor (slice_index block i) (field_product x (line_at (record { slope = slope; level = level }) x i)) }
{
    Line {
        slope: slope ^ level,
        level: block ^ product(step, slope, zero),
    }
}

/// Returns the values of the line at `point`. If it is known to be 0, `zero` saves a product.
#[inline(always)]
pub(crate) fn value(slope: u8x32, level: u8x32, point: &Tables, zero: bool) -> u8x32
    requires { IsTrue zero → point.now ≡ 0 }
    ensures { (i : ℕ) → i < 32
        → slice_index result i ≡ line_at (record { slope = slope; level = level }) point.now i }
{
    product(point, slope, zero) ^ level
}

/// Returns the values of a line at the second point of a pair, from those at the first.
#[inline(always)]
pub(crate) fn next_value(slope: u8x32, values: u8x32) -> u8x32
    ensures { (u level i : ℕ) → u < 256 → u % 2 ≡ 0 → i < 32
        → slice_index values i ≡ bit_xor (field_product u (slice_index slope i)) level
        → slice_index result i ≡ bit_xor (field_product (u + 1) (slice_index slope i)) level }
{
    values ^ slope
}

/// Returns the coefficient times each lane. If it is known to be 0, `zero` saves the look-ups.
#[inline(always)]
fn product(coefficient: &Tables, lanes: u8x32, zero: bool) -> u8x32
    requires { IsTrue zero → coefficient.now ≡ 0 }
    ensures { (i : ℕ) → i < 32 → slice_index result i ≡ field_product coefficient.now (slice_index lanes i) }
{
    if zero {
        u8x32::splat(0)
    } else {
        coefficient.times(lanes)
    }
}
