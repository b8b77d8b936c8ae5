//! The command lines that encode and decode: the fragments of a value, and the value of fragments.
#![tactic(auto)]

pub use fault::Fault;
pub use program::{answer_request, run_words};
pub use request::{CodingRequest, decode_request, fragments_request};

mod arguments;
mod fault;
mod fragments;
mod output;
mod program;
mod request;
mod value;
