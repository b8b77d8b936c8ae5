//! Sums of sources by the powers of points, of several points in one pass over the sources, and stripe by stripe: a
//! stripe is what all sources have from one byte on, and stays in the near caches while its passes are made.

ghost use Rattle.std.specs.Prelude.{◌≡◌, ◌≢◌, ℕ, ◌+◌, ◌*◌, ◌%◌, ◌<◌, ◌≤◌, length, slice_index, EachIndex};
ghost use Rattle.gf256.specs.Field.{field_power};
ghost use Rattle.kernels.specs.Dot.{bytes_of, dot_byte};
ghost use Rattle.kernels.specs.Line.{ArePowers};
ghost use Rattle.encoder.specs.Points.{ArePoints};

use kernels::{Tables, dot, powers_between};

/// The most points of one pass, whose sums fit the registers.
const MOST_POINTS: usize = 8;

/// The most sources.
const MOST_SOURCES: usize = 255;

/// As many bytes of all sources as a stripe has.
const STRIPE: usize = 65_536;

/// Bytes of a line of the caches.
const LINE: usize = 64;

/// Makes row r of `out`, of `size` bytes each, be the sum of the sources, each times its power of the point `first +
/// r`.
pub(crate) fn write_points(out: &mut [u8], sources: &[&[u8]], size: usize, first: usize, n: usize)
    requires some { 1 ≤ length sources.now }
    requires few { length sources.now ≤ MOST_SOURCES }
    requires points { first + n ≤ 256 }
    requires room { length out.old ≡ n * size }
    ensures { ArePoints out.new n (bytes_of sources.now) size first }
{
    let width = stripe_width(sources.len(), n, size);
    let mut from = 0;
    while from < size {
        let until = from + width.min(size - from);
        write_stripe(out, sources, size, first, n, from, until);
        from = until;
    }
}

/// Returns how many bytes of each of `k` sources a stripe has for `n` rows: all of them if one pass makes all rows.
fn stripe_width(k: usize, n: usize, size: usize) -> usize
    requires { 1 ≤ k }
    ensures { 1 ≤ result }
{
    if n <= MOST_POINTS {
        size.max(1)
    } else {
        (STRIPE / k / LINE * LINE).max(LINE)
    }
}

/// Makes the rows, whose bytes up to `from` are made, go on up to byte `until`.
fn write_stripe(
    out: &mut [u8],
    sources: &[&[u8]],
    size: usize,
    first: usize,
    n: usize,
    from: usize,
    until: usize,
)
    requires some { 1 ≤ length sources.now }
    requires few { length sources.now ≤ MOST_SOURCES }
    requires points { first + n ≤ 256 }
    requires room { length out.old ≡ n * size }
    requires part { (from ≤ until) × (until ≤ size) }
    ensures { ArePowers out.old n (bytes_of sources.now) size from first
        → ArePowers out.new n (bytes_of sources.now) size until first }
{
    let mut done = 0;
    while done < n {
        let rows = points_at_once(first + done).min(n - done);
        write_rows(out, sources, size, first, from, until, done, rows);
        done += rows;
    }
}

/// Returns how many points one pass takes from `first` on: points go in pairs, of which the first one is even.
fn points_at_once(first: usize) -> usize
    ensures some { 1 ≤ result }
    ensures most { result ≤ MOST_POINTS }
    ensures odd { first % 2 ≢ 0 → result ≡ 1 }
{
    if first % 2 == 0 { MOST_POINTS } else { 1 }
}

/// `write_some` on the rows of `out` from row `done` on, which belongs to the point `first + done`.
fn write_rows(
    out: &mut [u8],
    sources: &[&[u8]],
    size: usize,
    first: usize,
    from: usize,
    until: usize,
    done: usize,
    rows: usize,
)
    requires some { 1 ≤ length sources.now }
    requires few { length sources.now ≤ MOST_SOURCES }
    requires most { rows ≤ MOST_POINTS }
    requires odd { (first + done) % 2 ≢ 0 → rows ≡ 1 }
    requires points { first + done + rows ≤ 256 }
    requires room { done * size + rows * size ≤ length out.old }
    requires part { (from ≤ until) × (until ≤ size) }
    ensures inside { ((r b : ℕ) → r < rows → b < from → slice_index out.old (done * size + (r * size + b))
        ≡ dot_byte (field_power (first + done + r)) (bytes_of sources.now) b)
        → (r b : ℕ) → r < rows → b < until → slice_index out.new (done * size + (r * size + b))
        ≡ dot_byte (field_power (first + done + r)) (bytes_of sources.now) b }
    ensures before { (n : ℕ) → n < done * size → slice_index out.new n ≡ slice_index out.old n }
    ensures after { (n : ℕ) → done * size + rows * size ≤ n → slice_index out.new n ≡ slice_index out.old n }
{
    let start = done * size;
    let part = &mut out[start..start + rows * size];
    write_some(part, sources, size, first + done, rows, from, until);
}

/// Makes the `rows` rows of `out`, whose bytes up to `from` are made, go on up to byte `until`, in one pass: from an
/// even point on or at one odd point.
fn write_some(
    out: &mut [u8],
    sources: &[&[u8]],
    size: usize,
    first: usize,
    rows: usize,
    from: usize,
    until: usize,
)
    requires some { 1 ≤ length sources.now }
    requires few { length sources.now ≤ MOST_SOURCES }
    requires most { rows ≤ MOST_POINTS }
    requires odd { first % 2 ≢ 0 → rows ≡ 1 }
    requires points { first + rows ≤ 256 }
    requires room { length out.old ≡ rows * size }
    requires part { until ≤ size }
    ensures { ArePowers out.old rows (bytes_of sources.now) size from first
        → ArePowers out.new rows (bytes_of sources.now) size until first }
{
    if first % 2 == 0 {
        write_pairs(out, sources, size, first, rows, from, until);
    } else {
        write_point(out, sources, first as u8);
    }
}

/// `write_some` from an even point on.
fn write_pairs(
    out: &mut [u8],
    sources: &[&[u8]],
    size: usize,
    first: usize,
    rows: usize,
    from: usize,
    until: usize,
)
    requires some { 1 ≤ length sources.now }
    requires most { rows ≤ MOST_POINTS }
    requires even { first % 2 ≡ 0 }
    requires points { first + rows ≤ 256 }
    requires room { length out.old ≡ rows * size }
    requires part { until ≤ size }
    ensures { ArePowers out.old rows (bytes_of sources.now) size from first
        → ArePowers out.new rows (bytes_of sources.now) size until first }
{
    match rows {
        1 => powers_between::<1>(out, sources, size, first, from, until),
        2 => powers_between::<2>(out, sources, size, first, from, until),
        3 => powers_between::<3>(out, sources, size, first, from, until),
        4 => powers_between::<4>(out, sources, size, first, from, until),
        5 => powers_between::<5>(out, sources, size, first, from, until),
        6 => powers_between::<6>(out, sources, size, first, from, until),
        7 => powers_between::<7>(out, sources, size, first, from, until),
        8 => powers_between::<8>(out, sources, size, first, from, until),
        _ => {}
    }
}

/// Makes `out` be the sum of the sources, each times its power of `point`.
fn write_point(out: &mut [u8], sources: &[&[u8]], point: u8)
    requires { length sources.now ≤ MOST_SOURCES }
    ensures { EachIndex out.new (λ b. slice_index out.new b
        ≡ dot_byte (field_power point) (bytes_of sources.now) b) }
{
    let mut room = [Tables::zero(); MOST_SOURCES];
    let tables = &mut room[..sources.len()];
    fill_powers(tables, point);
    dot(out, tables, sources);
}

/// Fills in the tables of the powers of `point`.
fn fill_powers(tables: &mut [Tables], point: u8)
    ensures { (j : ℕ) → j < length tables.new → slice_index tables.new j ≡ field_power point j }
{
    let step = Tables::new(point);
    let mut power = Tables::new(1);
    for j in 0..tables.len() {
        tables[j] = power;
        power = step.product(&power);
    }
}
