//! Products, quotients and powers of elements; the sum of two elements, and their difference, is `a ^ b`.

ghost use Rattle.std.specs.Prelude.{◌≡◌, ◌<◌};
ghost use Rattle.gf256.specs.Field.{field_product, field_power};

use crate::logarithms::{ORDER, logarithm, power};

/// `x^8` modulo `x^8 + x^4 + x^3 + x^2 + 1`: the byte to add if doubling an element carries out of 8 bits.
pub const REDUCED_X8: u8 = 0x1D;

/// Returns the product of two elements of the field.
pub fn mul(a: u8, b: u8) -> u8
    ensures { result ≡ field_product a b }
{
    if a == 0 || b == 0 {
        return 0;
    }
    power(logarithm(a) + logarithm(b))
}

/// Returns the inverse of `a`: the element whose product with `a` is 1. `a` must not be 0.
pub fn inv(a: u8) -> u8
    requires { 0 < a }
    ensures { field_product result a ≡ 1 }
{
    // The 255 nonzero elements form a group under multiplication, so the 255th power of each is 1.
    power(ORDER - logarithm(a))
}

/// Returns `a` divided by `b`: the element whose product with `b` is `a`. `b` must not be 0.
pub fn div(a: u8, b: u8) -> u8
    requires { 0 < b }
    ensures { field_product result b ≡ a }
{
    mul(a, inv(b))
}

/// Returns `a` to the power `exponent`. Any element to the power 0 is 1.
pub fn pow(a: u8, exponent: u32) -> u8
    ensures { result ≡ field_power a exponent }
{
    let mut product = 1;
    let mut base = a;
    let mut left = exponent;
    while left > 0 {
        if left % 2 == 1 {
            product = mul(product, base);
        }
        base = mul(base, base);
        left /= 2;
    }
    product
}
