ghost use Rattle.std.specs.Prelude.{◌≡◌, ℕ, ◌*◌, ◌<◌, ◌≤◌, length, slice_index};
ghost use Rattle.arrayvec.specs.ArrayVec.{array_vec_len};
ghost use Rattle.gf256.specs.Polynomial.{AreDistinct, IsBasisRow};
ghost use Rattle.poly.specs.Basis.{AreRows, HasRow, HasRows};

use crate::product::{MOST_COEFFICIENTS, fill_product};
use crate::quotient::{quotient, scale};
use arrayvec::ArrayVec;
use gf256::inv;
use std::marker::Model;
use tag::MOST_MEMBERS;

/// Lagrange's rows for a list of points. For `k` points, `new` takes about `k * k / 2` field products and each row
/// about `3 * k` more. They are kept in arrays of fixed size, and no memory is allocated.
#[derive(Drop)]
pub struct Rows {
    points: ArrayVec<u8, MOST_MEMBERS>,
    // The product of `x + point` over the points. The constant coefficient comes first.
    product: ArrayVec<u8, MOST_COEFFICIENTS>,
}

impl Model for Rows {
    ghost use Rattle.poly.specs.Basis.{Basis, AreRows};

    ghost Value = { Basis };

    ghost view = { λ r. record { points = r.points.items } };

    ghost invariant = { λ r. AreRows r.points.items r.product.items };
}

impl Rows {
    /// Makes the rows for these points, of which there are at most `MOST_MEMBERS`, all distinct.
    pub fn new(points: &[u8]) -> Rows
        requires distinct { AreDistinct points.now }
        requires fits { length points.now ≤ MOST_MEMBERS }
        ensures { result.points ≡ points.now }
    {
        let mut product = ArrayVec::new();
        fill_product(&mut product, points);
        let Ok(points) = ArrayVec::try_from(points) else {
            unreachable!()
        };
        Rows { points, product }
    }

    /// Writes row `i` into `row`: the coefficients of the polynomial that is 1 at point `i` and 0 at the other points.
    /// There are as many as points, and the constant one comes first.
    pub fn row(&self, i: usize, row: &mut [u8])
        requires place { i < length self.now.points }
        requires room { length row.old ≡ length self.now.points }
        ensures { IsBasisRow self.now.points i row.new }
    {
        write_row(row, self.points.as_slice(), self.product.as_slice(), i);
    }
}

/// Returns row `i` by itself: the coefficients of the polynomial that is 1 at point `i` and 0 at the other points, the
/// constant one first. Several rows of the same points cost less by `Rows`, which computes what they share only once.
pub fn basis(points: &[u8], i: usize) -> ArrayVec<u8, MOST_MEMBERS>
    requires distinct { AreDistinct points.now }
    requires fits { length points.now ≤ MOST_MEMBERS }
    requires place { i < length points.now }
    ensures len { array_vec_len result ≡ length points.now }
    ensures row { IsBasisRow points.now i result.items }
{
    let Ok(mut row) = ArrayVec::try_from(points) else {
        unreachable!()
    };
    Rows::new(points).row(i, row.as_mut_slice());
    row
}

/// Fills in the table with the rows for these points, one after another: line `i`, which has as many bytes as there are
/// points, is row `i` of `Rows`.
pub fn fill_rows(table: &mut [u8], points: &[u8])
    requires distinct { AreDistinct points.now }
    requires fits { length points.now ≤ MOST_MEMBERS }
    requires room { length table.old ≡ length points.now * length points.now }
    ensures { HasRows table.new points.now }
{
    // The product stays where it is made. For few points, moving a `Rows` would take as long as computing the rows.
    let mut product = ArrayVec::new();
    fill_product(&mut product, points);
    for i in 0..points.len() {
        write_line(table, points, product.as_slice(), i);
    }
}

/// Writes row `i` to line `i` of the table, whose lines have as many bytes as there are points.
fn write_line(table: &mut [u8], points: &[u8], product: &[u8], i: usize)
    requires rows { AreRows points.now product.now }
    requires line { i < length points.now }
    requires room { length table.old ≡ length points.now * length points.now }
    ensures row { HasRow table.new points.now i }
    ensures before { (n : ℕ) → n < i * length points.now → slice_index table.new n ≡ slice_index table.old n }
{
    let k = points.len();
    write_row(&mut table[i * k..i * k + k], points, product, i);
}

/// Writes row `i` to `row`, from the product of `x + point` over the points.
fn write_row(row: &mut [u8], points: &[u8], product: &[u8], i: usize)
    requires rows { AreRows points.now product.now }
    requires place { i < length points.now }
    requires room { length row.old ≡ length points.now }
    ensures { IsBasisRow points.now i row.new }
{
    let value = quotient(row, product, points[i]);
    scale(row, inv(value));
}
