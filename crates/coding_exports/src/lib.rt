//! A coding library for programs in C and Rust, which pass each slice as a pointer and then its length. A call answers
//! 0, or the number of a refusal, and then it has changed nothing.
#![tactic(auto)]

pub use decode::coding_exports_decode;
pub use encode::coding_exports_encode;
pub use fragments::{coding_encode, coding_encode_one, coding_fragment_length};
pub use lost::coding_repair_fragment;
pub use repair::coding_repair;
pub use text::coding_text;
pub use value::coding_decode;

mod answer;
mod decode;
mod encode;
mod fragments;
mod lost;
mod repair;
mod room;
mod text;
mod value;
