//! Sums by the powers of points, of several points in one pass over the sources, without tables for each source.
//!
//! Two points u and u + 1, with u even, are the roots of x^2 + x + u(u + 1). If the polynomial whose coefficients are
//! the sources is divided by it, the remainder is a line with the polynomial's values at both points. So one product
//! serves both points.

ghost use Rattle.std.specs.Prelude.{◌≡◌, ℕ, ◌+◌, ◌*◌, ◌%◌, ◌<◌, ◌≤◌, []};
ghost use Rattle.std.specs.Prelude.{length, slice_index, slice_index_or, IsTrue};
ghost use Rattle.gf256.specs.Field.{field_product};
ghost use Rattle.kernels.specs.Dot.{bytes_of};
ghost use Rattle.kernels.specs.Line.{ArePairs, ArePowers};

use crate::Tables;
use crate::blocks::BLOCK;
use crate::dots::{MOST_ROWS, shortest, store_rows, store_two_rows};
use crate::lanes::power_lanes;
use gf256::mul;
use std::simd::prelude::*;

/// Sets byte b of row r of `out`, which has `R` rows of `size` bytes, to the sum of the bytes b of the sources, each
/// source j times the power j of the point `first + r`. Past the end of a source its bytes count as zero.
pub fn powers_of<const R: usize>(out: &mut [u8], sources: &[&[u8]], size: usize, first: usize)
    requires few { R ≤ MOST_ROWS }
    requires some { 1 ≤ length sources.now }
    requires even { first % 2 ≡ 0 }
    requires points { first + R ≤ 256 }
    requires rows { length out.old ≡ R * size }
    ensures { ArePowers out.new R (bytes_of sources.now) size size first }
{
    powers_between::<R>(out, sources, size, first, 0, size);
}

/// Does what `powers_of` does, for the bytes of each row from byte `from` up to byte `until`. The caller has made the
/// bytes before `from`.
pub fn powers_between<const R: usize>(
    out: &mut [u8],
    sources: &[&[u8]],
    size: usize,
    first: usize,
    from: usize,
    until: usize,
)
    requires few { R ≤ MOST_ROWS }
    requires some { 1 ≤ length sources.now }
    requires even { first % 2 ≡ 0 }
    requires points { first + R ≤ 256 }
    requires rows { length out.old ≡ R * size }
    requires part { until ≤ size }
    ensures { ArePowers out.old R (bytes_of sources.now) size from first
        → ArePowers out.new R (bytes_of sources.now) size until first }
{
    let points = points::<R>(first);
    let steps = steps::<R>(first);
    if first == 0 {
        write_rows::<R>(
            out, &steps, &points, sources, size, first, from, until, true,
        );
    } else {
        write_rows::<R>(
            out, &steps, &points, sources, size, first, from, until, false,
        );
    }
}

/// Returns the tables of the first points of the pairs from `first` on.
fn points<const R: usize>(first: usize) -> [Tables; R]
    requires few { R ≤ MOST_ROWS }
    requires points { first + R ≤ 256 }
    ensures { (p : ℕ) → p * 2 < R → slice_index result p ≡ first + p * 2 }
{
    let mut points = [Tables::zero(); R];
    for p in 0..R.div_ceil(2) {
        points[p] = Tables::new((first + 2 * p) as u8);
    }
    points
}

/// Returns the tables of the products of both points of the pairs from `first` on.
fn steps<const R: usize>(first: usize) -> [Tables; R]
    requires few { R ≤ MOST_ROWS }
    requires even { first % 2 ≡ 0 }
    requires points { first + R ≤ 256 }
    ensures { (p : ℕ) → p * 2 < R
        → slice_index result p ≡ field_product (first + p * 2) (first + p * 2 + 1) }
{
    let mut steps = [Tables::zero(); R];
    for p in 0..R.div_ceil(2) {
        let point = first + 2 * p;
        steps[p] = Tables::new(mul(point as u8, (point + 1) as u8));
    }
    steps
}

/// `powers_between`, where the tables are made. If `first` is known to be 0, `zero` saves the products of the first
/// pair.
#[inline(always)]
fn write_rows<const R: usize>(
    out: &mut [u8],
    steps: &[Tables; R],
    points: &[Tables; R],
    sources: &[&[u8]],
    size: usize,
    first: usize,
    from: usize,
    until: usize,
    zero: bool,
)
    requires few { R ≤ MOST_ROWS }
    requires some { 1 ≤ length sources.now }
    requires zero { IsTrue zero → first ≡ 0 }
    requires pairs { ArePairs points.now steps.now R first }
    requires rows { length out.old ≡ R * size }
    requires part { until ≤ size }
    ensures { ArePowers out.old R (bytes_of sources.now) size from first
        → ArePowers out.new R (bytes_of sources.now) size until first }
{
    let twos = shortest(sources, until).saturating_sub(from) / BLOCK / 2;
    for two in 0..twos {
        let start = from + two * 2 * BLOCK;
        write_two_blocks::<R>(out, steps, points, sources, size, first, start, zero);
    }
    let start = from + twos * 2 * BLOCK;
    write_end::<R>(out, steps, points, sources, size, first, start, until, zero);
}

/// Makes the rows, whose bytes up to `from` are made, go on up to byte `until`.
#[inline(always)]
fn write_end<const R: usize>(
    out: &mut [u8],
    steps: &[Tables; R],
    points: &[Tables; R],
    sources: &[&[u8]],
    size: usize,
    first: usize,
    from: usize,
    until: usize,
    zero: bool,
)
    requires few { R ≤ MOST_ROWS }
    requires some { 1 ≤ length sources.now }
    requires zero { IsTrue zero → first ≡ 0 }
    requires pairs { ArePairs points.now steps.now R first }
    requires rows { length out.old ≡ R * size }
    requires part { until ≤ size }
    ensures { ArePowers out.old R (bytes_of sources.now) size from first
        → ArePowers out.new R (bytes_of sources.now) size until first }
{
    let blocks = until.saturating_sub(from) / BLOCK;
    for block in 0..blocks {
        let start = from + block * BLOCK;
        write_block::<R>(
            out, steps, points, sources, size, first, start, BLOCK, false, zero,
        );
    }
    if from + blocks * BLOCK < until {
        // It overlaps what stands before it: `out` is written and never read.
        let start = until.saturating_sub(BLOCK);
        let width = until - start;
        write_block::<R>(
            out, steps, points, sources, size, first, start, width, false, zero,
        );
    }
}

/// Makes the rows, whose bytes up to `start` are made, go on for `width` bytes.
#[inline(always)]
fn write_block<const R: usize>(
    out: &mut [u8],
    steps: &[Tables; R],
    points: &[Tables; R],
    sources: &[&[u8]],
    size: usize,
    first: usize,
    start: usize,
    width: usize,
    whole: bool,
    zero: bool,
)
    requires few { R ≤ MOST_ROWS }
    requires some { 1 ≤ length sources.now }
    requires zero { IsTrue zero → first ≡ 0 }
    requires pairs { ArePairs points.now steps.now R first }
    requires rows { length out.old ≡ R * size }
    requires block { width ≤ BLOCK }
    requires within { start + width ≤ size }
    requires whole { IsTrue whole → (j : ℕ) → j < length sources.now
        → start + BLOCK ≤ length (slice_index_or (bytes_of sources.now) j []) }
    ensures { ArePowers out.old R (bytes_of sources.now) size start first
        → ArePowers out.new R (bytes_of sources.now) size (start + width) first }
{
    let sums = power_lanes::<R>(steps, points, sources, first, start, whole, zero);
    store_rows::<R>(out, size, start, width, sums);
}

/// `write_block` of two whole blocks: what a row gains of both goes out together.
#[inline(always)]
fn write_two_blocks<const R: usize>(
    out: &mut [u8],
    steps: &[Tables; R],
    points: &[Tables; R],
    sources: &[&[u8]],
    size: usize,
    first: usize,
    start: usize,
    zero: bool,
)
    requires few { R ≤ MOST_ROWS }
    requires some { 1 ≤ length sources.now }
    requires zero { IsTrue zero → first ≡ 0 }
    requires pairs { ArePairs points.now steps.now R first }
    requires rows { length out.old ≡ R * size }
    requires within { start + 2 * BLOCK ≤ size }
    requires whole { (j : ℕ) → j < length sources.now
        → start + 2 * BLOCK ≤ length (slice_index_or (bytes_of sources.now) j []) }
    ensures { ArePowers out.old R (bytes_of sources.now) size start first
        → ArePowers out.new R (bytes_of sources.now) size (start + 2 * BLOCK) first }
{
    let left = power_lanes::<R>(steps, points, sources, first, start, true, zero);
    let right = power_lanes::<R>(steps, points, sources, first, start + BLOCK, true, zero);
    store_two_rows::<R>(out, size, start, left, right);
}
