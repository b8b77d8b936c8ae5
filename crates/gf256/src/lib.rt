//! The field of 256 elements: a byte is a polynomial over two elements, with bit `i` as the coefficient of `x^i`,
//! modulo `x^8 + x^4 + x^3 + x^2 + 1`.
#![tactic(auto)]

ghost use Rattle.std.specs.Prelude.{ℕ, ◌<◌};
ghost use Rattle.gf256.specs.Field.{field_product, polynomial_product, IsRemainder};

pub use arithmetic::{REDUCED_X8, div, inv, mul, pow};

mod arithmetic;
mod logarithms;

/// A law: the field product of two bytes is the remainder of their product as polynomials by the modulus.
pub fn product_is_the_remainder()
    ensures { (a b : ℕ) → a < 256 → b < 256 → IsRemainder (polynomial_product 8 a b) (field_product a b) }
{}
