//! The pieces of a value: the values of a polynomial at n points, any k of which determine it (Reed and Solomon, 1960).
#![tactic(auto)]

pub use block::{encode_into, fill_blocks, fragment_into, piece};
pub use coded::{Coded, assemble, encode};

mod block;
mod coded;
mod points;
