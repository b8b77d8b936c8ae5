//! Division of a polynomial by `x + root`, if it is 0 at the root, and what is computed from the quotient.
ghost use Rattle.std.specs.Prelude.{◌≡◌, ℕ, ◌+◌, ◌<◌, length, drop, slice_index};
ghost use Rattle.gf256.specs.Field.{field_product};
ghost use Rattle.gf256.specs.Polynomial.{evaluate};

use gf256::mul;

/// Sets `row` to the quotient of the polynomial by `x + root`, and returns the quotient's value at the root.
/// Coefficient `m` of the quotient is the value, at the root, of the polynomial whose coefficients are those after the
/// first `m + 1`.
pub(crate) fn quotient(row: &mut [u8], polynomial: &[u8], root: u8) -> u8
    requires { length row.old + 1 ≡ length polynomial.now }
    ensures coefficients { (m : ℕ) → m + 1 < length polynomial.now →
        slice_index row.new m ≡ evaluate (drop (m + 1) polynomial.now) root }
    ensures value { result ≡ evaluate row.new root }
{
    let mut coefficient = 0;
    let mut value = 0;
    for m in (0..row.len()).rev() {
        coefficient = polynomial[m + 1] ^ mul(root, coefficient);
        row[m] = coefficient;
        value = coefficient ^ mul(root, value);
    }
    value
}

/// Returns the value at `x` of the polynomial with these coefficients, the constant one first.
pub fn value_at(polynomial: &[u8], x: u8) -> u8
    ensures { result ≡ evaluate polynomial.now x }
{
    let mut value = 0;
    for m in (0..polynomial.len()).rev() {
        value = polynomial[m] ^ mul(x, value);
    }
    value
}

/// Multiplies each coefficient of `row` by `factor`.
pub(crate) fn scale(row: &mut [u8], factor: u8)
    ensures { (m : ℕ) → m < length row.old → slice_index row.new m ≡ field_product (slice_index row.old m) factor }
{
    for coefficient in row {
        *coefficient = mul(*coefficient, factor);
    }
}
