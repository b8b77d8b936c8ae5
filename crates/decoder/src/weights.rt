//! The values of Lagrange's rows at a point, by which the fragments sum up to the one there.

ghost use Rattle.std.specs.Prelude.{◌≡◌, ℕ, ◌+◌, ◌*◌, ◌<◌, ◌≤◌, length, take, drop, slice_index, EachIndex};
ghost use Rattle.gf256.specs.Polynomial.{AreDistinct};
ghost use Rattle.kernels.specs.Dot.{bytes_of, dot_byte};
ghost use Rattle.poly.specs.Basis.{HasRows};
ghost use Rattle.decoder.specs.Rows.{line_value};

use kernels::{Tables, differences_of};
use poly::value_at;

/// Makes `out` be the sum of the fragments, each times the value of its row at `point`.
pub(crate) fn write_sum(
    out: &mut [u8],
    tables: &mut [Tables],
    table: &[u8],
    fragments: &[&[u8]],
    points: &[u8],
    point: u8,
)
    requires some { 1 ≤ length fragments.now }
    requires points { length points.now ≡ length fragments.now }
    requires distinct { AreDistinct points.now }
    requires coefficients { length table.now ≡ length fragments.now * length fragments.now }
    requires rows { HasRows table.now points.now }
    requires tables { length tables.old ≡ length fragments.now }
    ensures { EachIndex out.new (λ b. slice_index out.new b
        ≡ dot_byte (line_value table.now (length points.now) point) (bytes_of fragments.now) b) }
{
    fill_values(tables, table, point);
    differences_of::<1>(out, tables, fragments, out.len(), true);
}

/// Fills in the tables of the lines' values at `x`: there are as many as a line has coefficients.
fn fill_values(tables: &mut [Tables], table: &[u8], x: u8)
    requires { length table.now ≡ length tables.old * length tables.old }
    ensures { EachIndex tables.new (λ i. slice_index tables.new i ≡ line_value table.now (length tables.old) x i) }
{
    let k = tables.len();
    for i in 0..k {
        tables[i] = Tables::new(value_at(line(table, k, i), x));
    }
}

/// Line `i` of the table.
fn line(table: &[u8], k: usize, i: usize) -> &[u8]
    requires line { i < k }
    requires room { length table.now ≡ k * k }
    ensures { result.now ≡ take k (drop (i * k) table.now) }
{
    &table[i * k..i * k + k]
}
