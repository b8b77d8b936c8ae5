//! The product of the factors `x + point` over a list of points.
ghost use Rattle.std.specs.Prelude.{◌≡◌, ℕ, ◌+◌, ◌<◌, ◌≤◌, [], length, bit_xor, slice_index};
ghost use Rattle.gf256.specs.Field.{field_product};
ghost use Rattle.gf256.specs.Polynomial.{AreBytes, evaluate};
ghost use Rattle.arrayvec.specs.ArrayVec.{array_vec_len};
ghost use Rattle.poly.specs.Basis.{IsProduct};

use arrayvec::ArrayVec;
use gf256::mul;
use tag::MOST_MEMBERS;

/// The greatest number of coefficients of such a product: one more than there are points.
pub(crate) const MOST_COEFFICIENTS: usize = MOST_MEMBERS + 1;

/// Makes `product`, which is empty, the product of `x + point` over the points. The constant coefficient comes first.
pub(crate) fn fill_product(product: &mut ArrayVec<u8, MOST_COEFFICIENTS>, points: &[u8])
    requires fits { length points.now ≤ MOST_MEMBERS }
    requires empty { product.old.items ≡ [] }
    ensures { IsProduct points.now (length points.now) product.new.items }
{
    product.push(1);
    for &point in points {
        multiply_by_root(product, point);
    }
}

/// Multiplies the polynomial `row` by `x + root`, which appends one coefficient.
fn multiply_by_root(row: &mut ArrayVec<u8, MOST_COEFFICIENTS>, root: u8)
    requires { array_vec_len row.old < MOST_COEFFICIENTS }
    ensures len { array_vec_len row.new ≡ array_vec_len row.old + 1 }
    ensures bytes { AreBytes row.new.items }
    ensures highest { (m : ℕ) → array_vec_len row.old ≡ m + 1 →
        slice_index row.new.items (m + 1) ≡ slice_index row.old.items m }

    ensures value { (x : ℕ) → x < 256 →
        evaluate row.new.items x ≡ field_product (bit_xor x root) (evaluate row.old.items x) }
{
    row.push(0);
    multiply_in_place(row.as_mut_slice(), root);
}

/// Multiplies the polynomial `row` by `x + root`. Its highest coefficient must be 0, to make room for the product's.
fn multiply_in_place(row: &mut [u8], root: u8)
    requires { 0 < length row.old }
    // The type of `row` implies this; it is stated for callers that hold no slice of it.
    ensures bytes { AreBytes row.old }
    ensures constant { slice_index row.new 0 ≡ field_product (slice_index row.old 0) root }
    ensures others { (m : ℕ) → m + 1 < length row.old → slice_index row.new (m + 1)
        ≡ bit_xor (slice_index row.old m) (field_product (slice_index row.old (m + 1)) root) }
{
    for m in (1..row.len()).rev() {
        row[m] = row[m - 1] ^ mul(row[m], root);
    }
    row[0] = mul(row[0], root);
}
