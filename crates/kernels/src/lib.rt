//! Operations on byte slices over the field of 256 elements, 32 bytes at a time: sums of products of several sources by
//! coefficients, for several rows of coefficients in one pass, each product by two look-ups in tables of 16; sums in
//! which one slice is multiplied by a constant; and equality.
#![tactic(auto)]

pub use differences::{differences_between, differences_of};
pub use dots::{MOST_ROWS, dot, dots_of};
pub use equality::same;
pub use powers::{powers_between, powers_of};
pub use sums::{add_scaled, scale_add};
pub use tables::Tables;

mod blocks;
mod differences;
mod dots;
mod equality;
mod lanes;
mod line;
mod powers;
mod products;
mod sums;
mod tables;

/// The number of bytes in a block, which fits one SIMD vector.
const BLOCK: usize = 32;
