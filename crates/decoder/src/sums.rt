//! Sums of fragments by the columns of a table, several columns in one pass over the fragments, and stripe by stripe: a
//! stripe is what all fragments have from one byte on, and stays in the near caches while its passes are made.

ghost use Rattle.std.specs.Prelude.{◌≡◌, ◌≢◌, ℕ, ◌+◌, ◌*◌, ◌^◌, ◌<◌, ◌≤◌, length, slice_index};
ghost use Rattle.kernels.specs.Dot.{bytes_of};
ghost use Rattle.decoder.specs.Rows.{AreBlockBytes, AreBlockRows, AreBlocksUntil, HaveColumnSums, block_byte};

use kernels::{Tables, differences_between};

/// The most blocks of one pass, whose sums fit the registers.
const MOST_BLOCKS: usize = 6;

/// As many bytes of all fragments as a stripe has.
const STRIPE: usize = 131_072;

/// Bytes of a line of the caches.
const LINE: usize = 64;

/// Makes `out` be the first bytes of the blocks, of `size` bytes each. A pass takes as many blocks as `room` has tables
/// for.
pub(crate) fn write_blocks(
    out: &mut [u8],
    room: &mut [Tables],
    table: &[u8],
    fragments: &[&[u8]],
    size: usize,
)
    requires some { 1 ≤ length fragments.now }
    requires table { length table.now ≡ length fragments.now * length fragments.now }
    requires sums { HaveColumnSums table.now (length fragments.now) }
    requires room { length fragments.now ≤ length room.old }
    requires within { length out.old ≤ length fragments.now * size }
    requires fits { length fragments.now * size < 2 ^ 64 }
    ensures { AreBlockBytes out.new size table.now (bytes_of fragments.now) }
{
    let width = stripe_width(fragments.len(), size);
    let mut from = 0;
    while from < size {
        let until = from + width.min(size - from);
        write_stripe(out, room, table, fragments, size, from, until);
        from = until;
    }
}

/// Returns how many bytes of each of `k` fragments a stripe has: all of them if one pass makes all blocks.
fn stripe_width(k: usize, size: usize) -> usize
    ensures { 1 ≤ result }
{
    if k <= MOST_BLOCKS {
        size.max(1)
    } else {
        (STRIPE / k / LINE * LINE).max(LINE)
    }
}

/// Makes the blocks, whose bytes up to `from` are made, go on up to byte `until`.
fn write_stripe(
    out: &mut [u8],
    room: &mut [Tables],
    table: &[u8],
    fragments: &[&[u8]],
    size: usize,
    from: usize,
    until: usize,
)
    requires some { 1 ≤ length fragments.now }
    requires table { length table.now ≡ length fragments.now * length fragments.now }
    requires sums { HaveColumnSums table.now (length fragments.now) }
    requires room { length fragments.now ≤ length room.old }
    requires within { length out.old ≤ length fragments.now * size }
    requires fits { length fragments.now * size < 2 ^ 64 }
    requires part { until ≤ size }
    ensures { AreBlocksUntil out.old (length fragments.now) size table.now (bytes_of fragments.now) from
        → AreBlocksUntil out.new (length fragments.now) size table.now (bytes_of fragments.now) until }
{
    let k = fragments.len();
    let most = (room.len() / k).min(MOST_BLOCKS);
    let mut done = 0;
    while done * size < out.len() {
        let rows = blocks_at_once(k - done, most).min(k - done);
        write_rows(out, room, table, fragments, size, from, until, done, rows);
        done += rows;
    }
}

/// Returns how many blocks one pass takes if `left` are left, at most `most`: the passes have about as many as each
/// other.
fn blocks_at_once(left: usize, most: usize) -> usize
    requires { 1 ≤ most }
    ensures some { 1 ≤ result }
    ensures most { result ≤ most }
{
    if left <= most {
        // One pass is enough. What follows gives the same, but takes two divisions.
        return left.max(1);
    }
    let passes = left.div_ceil(most);
    left.div_ceil(passes).clamp(1, most)
}

/// `write_some` on the bytes of `out` that belong to block `first` and those after it.
fn write_rows(
    out: &mut [u8],
    room: &mut [Tables],
    table: &[u8],
    fragments: &[&[u8]],
    size: usize,
    from: usize,
    until: usize,
    first: usize,
    rows: usize,
)
    requires some { 1 ≤ length fragments.now }
    requires most { rows ≤ MOST_BLOCKS }
    requires table { length table.now ≡ length fragments.now * length fragments.now }
    requires sums { HaveColumnSums table.now (length fragments.now) }
    requires room { length fragments.now * rows ≤ length room.old }
    requires few { first + rows ≤ length fragments.now }
    requires fits { length fragments.now * size < 2 ^ 64 }
    requires start { first * size ≤ length out.old }
    requires part { until ≤ size }
    ensures inside { ((r b : ℕ) → r < rows → b < from → first * size + (r * size + b) < length out.old
        → slice_index out.old (first * size + (r * size + b))
        ≡ block_byte table.now (bytes_of fragments.now) (first + r) b)
        → (r b : ℕ) → r < rows → b < until → first * size + (r * size + b) < length out.new
        → slice_index out.new (first * size + (r * size + b))
        ≡ block_byte table.now (bytes_of fragments.now) (first + r) b }
    ensures before { (n : ℕ) → n < first * size → slice_index out.new n ≡ slice_index out.old n }
    ensures after { (n : ℕ) → first * size + rows * size ≤ n → slice_index out.new n ≡ slice_index out.old n }
{
    let start = first * size;
    let end = start + (rows * size).min(out.len() - start);
    let part = &mut out[start..end];
    write_some(part, room, table, fragments, size, from, until, first, rows);
}

/// Makes the `rows` rows of `out`, of `size` bytes each and made up to `from`, go on up to byte `until` of the sums of
/// as many blocks, from block `first` on. The rows go as far as `out` does.
fn write_some(
    out: &mut [u8],
    room: &mut [Tables],
    table: &[u8],
    fragments: &[&[u8]],
    size: usize,
    from: usize,
    until: usize,
    first: usize,
    rows: usize,
)
    requires some { 1 ≤ length fragments.now }
    requires most { rows ≤ MOST_BLOCKS }
    requires table { length table.now ≡ length fragments.now * length fragments.now }
    requires sums { HaveColumnSums table.now (length fragments.now) }
    requires room { length fragments.now * rows ≤ length room.old }
    requires few { first + rows ≤ length fragments.now }
    requires fits { length fragments.now * size < 2 ^ 64 }
    requires part { until ≤ size }
    ensures { AreBlockRows out.old rows size table.now (bytes_of fragments.now) first from
        → AreBlockRows out.new rows size table.now (bytes_of fragments.now) first until }
{
    match rows {
        1 => write_pass::<1>(out, room, table, fragments, size, from, until, first),
        2 => write_pass::<2>(out, room, table, fragments, size, from, until, first),
        3 => write_pass::<3>(out, room, table, fragments, size, from, until, first),
        4 => write_pass::<4>(out, room, table, fragments, size, from, until, first),
        5 => write_pass::<5>(out, room, table, fragments, size, from, until, first),
        6 => write_pass::<6>(out, room, table, fragments, size, from, until, first),
        _ => {}
    }
}

/// `write_some` of `R` rows. If it were inlined, each call would prepare the passes of all six numbers of rows.
#[inline(never)]
fn write_pass<const R: usize>(
    out: &mut [u8],
    room: &mut [Tables],
    table: &[u8],
    fragments: &[&[u8]],
    size: usize,
    from: usize,
    until: usize,
    first: usize,
)
    requires some { 1 ≤ length fragments.now }
    requires most { R ≤ MOST_BLOCKS }
    requires table { length table.now ≡ length fragments.now * length fragments.now }
    requires sums { HaveColumnSums table.now (length fragments.now) }
    requires room { length fragments.now * R ≤ length room.old }
    requires few { first + R ≤ length fragments.now }
    requires fits { length fragments.now * size < 2 ^ 64 }
    requires part { until ≤ size }
    ensures { AreBlockRows out.old R size table.now (bytes_of fragments.now) first from
        → AreBlockRows out.new R size table.now (bytes_of fragments.now) first until }
{
    let tables = &mut room[..fragments.len() * R];
    fill_columns(tables, table, fragments.len(), first, R);
    differences_between::<R>(out, tables, fragments, size, from, until, first == 0);
}

/// Fills in the tables of the columns from `first` on, those of one line side by side.
fn fill_columns(tables: &mut [Tables], table: &[u8], k: usize, first: usize, rows: usize)
    requires columns { first + rows ≤ k }
    requires table { length table.now ≡ k * k }
    requires room { length tables.old ≡ k * rows }
    ensures { (i r : ℕ) → i < k → r < rows
        → slice_index tables.new (i * rows + r) ≡ slice_index table.now (i * k + (first + r)) }
{
    for r in 0..rows {
        fill_column(tables, table, k, first + r, rows, r);
    }
}

/// Fills in column `r` of the tables with those of column `j`.
fn fill_column(tables: &mut [Tables], table: &[u8], k: usize, j: usize, rows: usize, r: usize)
    requires from { j < k }
    requires column { r < rows }
    requires table { length table.now ≡ k * k }
    requires room { length tables.old ≡ k * rows }
    ensures inside { (i : ℕ) → i < k → slice_index tables.new (i * rows + r) ≡ slice_index table.now (i * k + j) }
    ensures others { (i q : ℕ) → q < rows → q ≢ r
        → slice_index tables.new (i * rows + q) ≡ slice_index tables.old (i * rows + q) }
{
    for i in 0..k {
        tables[i * rows + r] = Tables::new(table[i * k + j]);
    }
}
