//! Sums of products, of several rows of coefficients in one pass over the sources.

ghost use Rattle.std.specs.Prelude.{◌≡◌, ℕ, ◌+◌, ◌*◌, ◌^◌, ◌<◌, ◌≤◌, [], length, slice_index, slice_index_or};
ghost use Rattle.std.specs.Prelude.{EachIndex};
ghost use Rattle.kernels.specs.Dot.{AreDots, AreDotsWithin, bytes_of, dot_byte, row, lanes_from};

use crate::Tables;
use crate::blocks::{BLOCK, load, store_two, store_within};
use std::simd::prelude::*;

/// The most rows of one pass. With more than some six, their sums no longer fit the registers.
pub const MOST_ROWS: usize = 16;

/// Sets byte b of `out` to the sum of the bytes b of the sources, each times its coefficient. Past the end of a source
/// its bytes count as zero.
pub fn dot(out: &mut [u8], tables: &[Tables], sources: &[&[u8]])
    requires { length tables.now ≡ length sources.now }
    ensures { EachIndex out.new (λ b. slice_index out.new b
        ≡ dot_byte (slice_index tables.now) (bytes_of sources.now) b) }
{
    dots_of::<1>(out, tables, sources, out.len());
}

/// Does what `dot` does for `R` rows of coefficients, in one pass over the sources. Row r goes to the `size` bytes of
/// `out` from `r * size` on, and its coefficient of source j stands at `j * R + r` in `tables`.
pub fn dots_of<const R: usize>(out: &mut [u8], tables: &[Tables], sources: &[&[u8]], size: usize)
    requires few { R ≤ MOST_ROWS }
    requires coefficients { length tables.now ≡ length sources.now * R }
    requires rows { length out.old ≡ R * size }
    ensures { AreDots out.new tables.now R (bytes_of sources.now) size size }
{
    let whole = shortest(sources, size) / BLOCK;
    for two in 0..whole / 2 {
        write_two_blocks::<R>(out, tables, sources, size, two * 2 * BLOCK);
    }
    write_end::<R>(out, tables, sources, size, whole / 2 * 2 * BLOCK, size);
}

/// Makes the rows, whose bytes up to `from` are made, go on up to byte `until`, each as far as `out` goes.
pub(crate) fn write_end<const R: usize>(
    out: &mut [u8],
    tables: &[Tables],
    sources: &[&[u8]],
    size: usize,
    from: usize,
    until: usize,
)
    requires few { R ≤ MOST_ROWS }
    requires coefficients { length tables.now ≡ length sources.now * R }
    requires part { until ≤ size }
    requires fits { R * size < 2 ^ 64 }
    ensures { AreDotsWithin out.old tables.now R (bytes_of sources.now) size from
        → AreDotsWithin out.new tables.now R (bytes_of sources.now) size until }
{
    let blocks = until.saturating_sub(from) / BLOCK;
    for block in 0..blocks {
        write_block::<R>(out, tables, sources, size, from + block * BLOCK, BLOCK);
    }
    if from + blocks * BLOCK < until {
        // It overlaps what stands before it: `out` is written and never read.
        let start = until.saturating_sub(BLOCK);
        write_block::<R>(out, tables, sources, size, start, until - start);
    }
}

/// Returns the length of the shortest source, and `most` if each is longer.
pub(crate) fn shortest(sources: &[&[u8]], most: usize) -> usize
    ensures most { result ≤ most }
    ensures each { (j : ℕ) → j < length sources.now → result ≤ length (slice_index_or (bytes_of sources.now) j []) }
{
    let mut shortest = most;
    for j in 0..sources.len() {
        let source = sources[j];
        shortest = shortest.min(source.len());
    }
    shortest
}

/// Makes the rows, whose bytes up to `start` are made, go on for `width` bytes, each as far as `out` goes.
#[inline(always)]
fn write_block<const R: usize>(
    out: &mut [u8],
    tables: &[Tables],
    sources: &[&[u8]],
    size: usize,
    start: usize,
    width: usize,
)
    requires few { R ≤ MOST_ROWS }
    requires coefficients { length tables.now ≡ length sources.now * R }
    requires block { width ≤ BLOCK }
    requires within { start + width ≤ size }
    requires fits { R * size < 2 ^ 64 }
    ensures { AreDotsWithin out.old tables.now R (bytes_of sources.now) size start
        → AreDotsWithin out.new tables.now R (bytes_of sources.now) size (start + width) }
{
    let sums = row_lanes::<R>(tables, sources, start);
    store_rows::<R>(out, size, start, width, sums);
}

/// `write_block` of two whole blocks: the tables of a coefficient are fetched once for both.
#[inline(always)]
fn write_two_blocks<const R: usize>(
    out: &mut [u8],
    tables: &[Tables],
    sources: &[&[u8]],
    size: usize,
    start: usize,
)
    requires few { R ≤ MOST_ROWS }
    requires coefficients { length tables.now ≡ length sources.now * R }
    requires rows { length out.old ≡ R * size }
    requires within { start + 2 * BLOCK ≤ size }
    requires whole { (j : ℕ) → j < length sources.now
        → start + 2 * BLOCK ≤ length (slice_index_or (bytes_of sources.now) j []) }
    ensures { AreDots out.old tables.now R (bytes_of sources.now) size start
        → AreDots out.new tables.now R (bytes_of sources.now) size (start + 2 * BLOCK) }
{
    let mut left = [u8x32::splat(0); R];
    let mut right = [u8x32::splat(0); R];
    for j in 0..sources.len() {
        let source = sources[j];
        let near = load(source, start, true);
        let far = load(source, start + BLOCK, true);
        for r in 0..R {
            let coefficient = &tables[j * R + r];
            left[r] = left[r] ^ coefficient.times(near);
            right[r] = right[r] ^ coefficient.times(far);
        }
    }
    store_two_rows::<R>(out, size, start, left, right);
}

/// 32 bytes of each row's sum, from byte `start` on.
#[inline(always)]
fn row_lanes<const R: usize>(tables: &[Tables], sources: &[&[u8]], start: usize) -> [u8x32; R]
    requires few { R ≤ MOST_ROWS }
    requires coefficients { length tables.now ≡ length sources.now * R }
    ensures { (r : ℕ) → r < R
        → slice_index_or result r [] ≡ lanes_from (dot_byte (row tables.now R r) (bytes_of sources.now)) start }
{
    let mut sums = [u8x32::splat(0); R];
    for j in 0..sources.len() {
        let source = sources[j];
        let lanes = load(source, start, false);
        for r in 0..R {
            sums[r] = sums[r] ^ tables[j * R + r].times(lanes);
        }
    }
    sums
}

/// Writes the first `width` lanes of each row over its bytes from `start` on, as far as `out` goes.
#[inline(always)]
pub(crate) fn store_rows<const R: usize>(
    out: &mut [u8],
    size: usize,
    start: usize,
    width: usize,
    sums: [u8x32; R],
)
    requires few { R ≤ MOST_ROWS }
    requires block { width ≤ BLOCK }
    requires within { start + width ≤ size }
    requires fits { R * size < 2 ^ 64 }
    ensures inside { (r i : ℕ) → r < R → i < width → r * size + (start + i) < length out.old
        → slice_index out.new (r * size + (start + i)) ≡ slice_index (slice_index_or sums.entry r []) i }
    ensures before { (r b : ℕ) → r < R → b < start
        → slice_index out.new (r * size + b) ≡ slice_index out.old (r * size + b) }
{
    for r in 0..R {
        store_within(out, r * size + start, width, sums[r]);
    }
}

/// Writes the lanes of two blocks of each row over its bytes from `start` on.
#[inline(always)]
pub(crate) fn store_two_rows<const R: usize>(
    out: &mut [u8],
    size: usize,
    start: usize,
    left: [u8x32; R],
    right: [u8x32; R],
)
    requires few { R ≤ MOST_ROWS }
    requires within { start + 2 * BLOCK ≤ size }
    requires room { R * size + (start + 2 * BLOCK) ≤ length out.old + size }
    ensures left { (r i : ℕ) → r < R → i < BLOCK
        → slice_index out.new (r * size + (start + i)) ≡ slice_index (slice_index_or left.entry r []) i }
    ensures right { (r i : ℕ) → r < R → i < BLOCK
        → slice_index out.new (r * size + (start + BLOCK + i)) ≡ slice_index (slice_index_or right.entry r []) i }
    ensures before { (r b : ℕ) → r < R → b < start
        → slice_index out.new (r * size + b) ≡ slice_index out.old (r * size + b) }
{
    for r in 0..R {
        store_two(out, r * size + start, left[r], right[r]);
    }
}
