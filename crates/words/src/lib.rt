//! What texts are made of: lines, words, numbers and bytes.
#![tactic(auto)]

pub use digits::{first_digit, with_digit};
pub use hexadecimal::{Hexadecimal, parse_bytes};
pub use lines::split_lines;
pub use number::parse_number;

mod digits;
mod hexadecimal;
mod lines;
mod number;
