//! 32 bytes of each sum by the powers of points, from the lines that the sources leave by pairs of points.

ghost use Rattle.std.specs.Prelude.{◌≡◌, ℕ, ◌+◌, ◌-◌, ◌*◌, ◌/◌, ◌%◌, ◌<◌, ◌≤◌, [], bit_xor};
ghost use Rattle.std.specs.Prelude.{length, slice_index, slice_index_or, IsTrue};
ghost use Rattle.gf256.specs.Field.{field_power, field_product};
ghost use Rattle.kernels.specs.Dot.{bytes_of, dot_byte, lanes_from};
ghost use Rattle.kernels.specs.Line.{ArePairs, HasBytes, IsRoot, line_at, no_line, value_from};

use crate::Tables;
use crate::blocks::{BLOCK, load};
use crate::dots::MOST_ROWS;
use crate::line::{Line, line_of, next, next_value, value};
use std::simd::prelude::*;

/// Returns the line of the last two sources, or of the last one if there is no other.
#[inline(always)]
fn last_line(sources: &[&[u8]], start: usize, whole: bool) -> Line
    requires some { 1 ≤ length sources.now }
    requires whole { IsTrue whole → (j : ℕ) → j < length sources.now
        → start + BLOCK ≤ length (slice_index_or (bytes_of sources.now) j []) }
    ensures values { (x i : ℕ) → i < 32
        → line_at result x i ≡ value_from (bytes_of sources.now) x (start + i) (length sources.now - 2) }
    ensures bytes { (i : ℕ) → i < 32 → HasBytes (bytes_of sources.now) (start + i) (length sources.now - 2) }
{
    let count = sources.len();
    let level = load(sources[count.saturating_sub(2)], start, whole);
    if count < 2 {
        line_of(u8x32::splat(0), level)
    } else {
        line_of(load(sources[count - 1], start, whole), level)
    }
}

/// Returns the lines of one block further down.
#[inline(always)]
fn next_lines<const R: usize>(
    lines: [Line; R],
    steps: &[Tables; R],
    block: u8x32,
    zero: bool,
) -> [Line; R]
    requires { IsTrue zero → 0 < R → slice_index steps.now 0 ≡ 0 }
    ensures bytes { (i : ℕ) → i < 32 → slice_index block i < 256 }
    ensures values { (p x i : ℕ) → p * 2 < R → IsRoot (slice_index steps.now p) x → i < 32
        → line_at (slice_index_or result p no_line) x i
        ≡ bit_xor (slice_index block i) (field_product x (line_at (slice_index_or lines.entry p no_line) x i)) }
{
    let mut nexts = lines;
    for p in 0..R.div_ceil(2) {
        let line = nexts[p];
        nexts[p] = next(line.slope, line.level, &steps[p], block, zero && p == 0);
    }
    nexts
}

/// For each pair of points the line with the values at both, of the polynomial whose coefficients are the sources.
#[inline(always)]
fn lines<const R: usize>(
    steps: &[Tables; R],
    sources: &[&[u8]],
    start: usize,
    whole: bool,
    zero: bool,
) -> [Line; R]
    requires few { R ≤ MOST_ROWS }
    requires some { 1 ≤ length sources.now }
    requires whole { IsTrue whole → (j : ℕ) → j < length sources.now
        → start + BLOCK ≤ length (slice_index_or (bytes_of sources.now) j []) }
    requires zero { IsTrue zero → 0 < R → slice_index steps.now 0 ≡ 0 }
    ensures { (p x i : ℕ) → p * 2 < R → IsRoot (slice_index steps.now p) x → i < 32
        → line_at (slice_index_or result p no_line) x i ≡ dot_byte (field_power x) (bytes_of sources.now) (start + i) }
{
    let mut lines = [last_line(sources, start, whole); R];
    let mut j = sources.len().saturating_sub(2);
    while j > 0 {
        j -= 1;
        let source = sources[j];
        lines = next_lines::<R>(lines, steps, load(source, start, whole), zero);
    }
    lines
}

/// Returns the values of the lines at both points of each pair.
#[inline(always)]
fn values<const R: usize>(lines: [Line; R], points: &[Tables; R], zero: bool) -> [u8x32; R]
    requires few { R ≤ MOST_ROWS }
    requires zero { IsTrue zero → 0 < R → slice_index points.now 0 ≡ 0 }
    ensures wide { (r : ℕ) → r < R → length (slice_index_or result r []) ≡ BLOCK }
    ensures values { (r i : ℕ) → r < R → slice_index points.now (r / 2) < 256 → slice_index points.now (r / 2) % 2 ≡ 0
        → i < 32
        → slice_index (slice_index_or result r []) i
        ≡ line_at (slice_index_or lines.entry (r / 2) no_line) (slice_index points.now (r / 2) + r % 2) i }
{
    let mut sums = [u8x32::splat(0); R];
    for r in 0..R {
        let line = lines[r / 2];
        sums[r] = if r % 2 == 0 {
            value(line.slope, line.level, &points[r / 2], zero && r == 0)
        } else {
            next_value(line.slope, sums[r - 1])
        };
    }
    sums
}

/// 32 bytes of each row's sum, from byte `start` on.
#[inline(always)]
pub(crate) fn power_lanes<const R: usize>(
    steps: &[Tables; R],
    points: &[Tables; R],
    sources: &[&[u8]],
    first: usize,
    start: usize,
    whole: bool,
    zero: bool,
) -> [u8x32; R]
    requires few { R ≤ MOST_ROWS }
    requires some { 1 ≤ length sources.now }
    requires whole { IsTrue whole → (j : ℕ) → j < length sources.now
        → start + BLOCK ≤ length (slice_index_or (bytes_of sources.now) j []) }
    requires zero { IsTrue zero → first ≡ 0 }
    requires pairs { ArePairs points.now steps.now R first }
    ensures { (r : ℕ) → r < R → slice_index_or result r []
        ≡ lanes_from (dot_byte (field_power (first + r)) (bytes_of sources.now)) start }
{
    let lines = lines::<R>(steps, sources, start, whole, zero);
    values::<R>(lines, points, zero)
}
