//! Lagrange's rows, for polynomial interpolation over the field of 256 elements, and the value of a polynomial.
#![tactic(auto)]

pub use quotient::value_at;
pub use rows::{Rows, basis, fill_rows};

mod product;
mod quotient;
mod rows;
