//! Sums of products whose coefficients sum up to 0 or 1. They take a product for each source but the first.
//!
//! The sum of the sources, each times its coefficient, equals the sum of their differences from the first source, each
//! times the same coefficient, plus the first source times the sum of all coefficients. A source's difference is
//! computed once for all rows.

ghost use Rattle.std.specs.Prelude.{◌≡◌, ℕ, ◌+◌, ◌*◌, ◌^◌, ◌<◌, ◌≤◌, [], length, slice_index, slice_index_or};
ghost use Rattle.kernels.specs.Dot.{AreDots, AreDotsWithin, bytes_of, lanes_from};
ghost use Rattle.kernels.specs.Level.{HaveLevels, level};

use crate::Tables;
use crate::blocks::{BLOCK, load};
use crate::dots::{MOST_ROWS, shortest, store_two_rows, write_end};
use std::simd::prelude::*;

/// Does what `dots_of` does, with one product fewer for each row. The coefficients of each row must sum up to 0, except
/// that those of row 0 must sum up to 1 if `one` is true.
pub fn differences_of<const R: usize>(
    out: &mut [u8],
    tables: &[Tables],
    sources: &[&[u8]],
    size: usize,
    one: bool,
)
    requires few { R ≤ MOST_ROWS }
    requires some { 1 ≤ length sources.now }
    requires coefficients { length tables.now ≡ length sources.now * R }
    requires levels { HaveLevels tables.now R (length sources.now) one }
    requires rows { length out.old ≡ R * size }
    ensures { AreDots out.new tables.now R (bytes_of sources.now) size size }
{
    differences_between::<R>(out, tables, sources, size, 0, size, one);
}

/// Does what `differences_of` does, for the bytes of each row from byte `from` up to byte `until`, as far as `out`
/// goes: `out` may end before the rows do, so that the last row is cut short. The caller has made the bytes before
/// `from`.
pub fn differences_between<const R: usize>(
    out: &mut [u8],
    tables: &[Tables],
    sources: &[&[u8]],
    size: usize,
    from: usize,
    until: usize,
    one: bool,
)
    requires few { R ≤ MOST_ROWS }
    requires some { 1 ≤ length sources.now }
    requires coefficients { length tables.now ≡ length sources.now * R }
    requires levels { HaveLevels tables.now R (length sources.now) one }
    requires part { until ≤ size }
    requires fits { R * size < 2 ^ 64 }
    ensures { AreDotsWithin out.old tables.now R (bytes_of sources.now) size from
        → AreDotsWithin out.new tables.now R (bytes_of sources.now) size until }
{
    let lacking = (R * size).saturating_sub(out.len());
    let whole = shortest(sources, until.min(size.saturating_sub(lacking)));
    let twos = whole.saturating_sub(from) / BLOCK / 2;
    for two in 0..twos {
        write_two_blocks::<R>(out, tables, sources, size, from + two * 2 * BLOCK, one);
    }
    write_end::<R>(out, tables, sources, size, from + twos * 2 * BLOCK, until);
}

/// Makes the rows, whose bytes up to `start` are made, go on for two blocks.
#[inline(always)]
fn write_two_blocks<const R: usize>(
    out: &mut [u8],
    tables: &[Tables],
    sources: &[&[u8]],
    size: usize,
    start: usize,
    one: bool,
)
    requires few { R ≤ MOST_ROWS }
    requires some { 1 ≤ length sources.now }
    requires coefficients { length tables.now ≡ length sources.now * R }
    requires levels { HaveLevels tables.now R (length sources.now) one }
    requires within { start + 2 * BLOCK ≤ size }
    requires room { R * size + (start + 2 * BLOCK) ≤ length out.old + size }
    requires whole { (j : ℕ) → j < length sources.now
        → start + 2 * BLOCK ≤ length (slice_index_or (bytes_of sources.now) j []) }
    ensures { AreDotsWithin out.old tables.now R (bytes_of sources.now) size start
        → AreDotsWithin out.new tables.now R (bytes_of sources.now) size (start + 2 * BLOCK) }
{
    let origin = sources[0];
    let near_origin = load(origin, start, true);
    let far_origin = load(origin, start + BLOCK, true);
    let mut left = first_sums::<R>(near_origin, one);
    let mut right = first_sums::<R>(far_origin, one);
    for j in 1..sources.len() {
        let source = sources[j];
        let near = load(source, start, true) ^ near_origin;
        let far = load(source, start + BLOCK, true) ^ far_origin;
        for r in 0..R {
            let coefficient = &tables[j * R + r];
            left[r] = left[r] ^ coefficient.times(near);
            right[r] = right[r] ^ coefficient.times(far);
        }
    }
    store_two_rows::<R>(out, size, start, left, right);
}

/// Returns the first source's lanes in row 0 if `one` says so, and otherwise zeros.
#[inline(always)]
fn first_sums<const R: usize>(origin: u8x32, one: bool) -> [u8x32; R]
    requires few { R ≤ MOST_ROWS }
    ensures len { length result ≡ R }
    ensures bytes { (i : ℕ) → i < 32 → slice_index origin i < 256 }
    ensures sums { (r i : ℕ) → r < R → i < 32
        → slice_index (slice_index_or result r []) i ≡ level one r * slice_index origin i }
    ensures wide { (r : ℕ) → r < R → length (slice_index_or result r []) ≡ 32 }
{
    let mut sums = [u8x32::splat(0); R];
    if one && R > 0 {
        sums[0] = origin;
    }
    sums
}
