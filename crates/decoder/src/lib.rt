//! Values from their pieces: any k pieces of a value at distinct points give it back.
#![tactic(auto)]

pub use code::{empty_values_have_empty_fragments, fragments_determine_values};
pub use decoded::{Decoded, decode};
pub use into::decode_into;
pub use past::bad_pieces_give_a_byte_past_the_length;
pub use repair::repair_into;

mod code;
mod decoded;
mod into;
mod lawful;
mod padding;
mod past;
mod repair;
mod rooms;
mod sums;
mod value;
mod weights;
