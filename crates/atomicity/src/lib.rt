//! A sound record is atomic, and so is every run of an object.
//!
//! The definitions, which a reader has to believe, are in `specs/`. Each law is the contract of a function with an
//! empty body. Atomicity is that of Lynch's Distributed Algorithms (1996).
#![tactic(auto)]

pub use atomicity::{
    journaled_values_are_unique, reads_return_journaled_values, runs_are_atomic,
    settled_values_are_journaled, sound_records_are_atomic, tag_sequences_are_sequences,
};
pub use lacking::{
    complete_fetches_have_enough, few_pieces_are_kept, lacking_fetches_are_overlapped,
    lacking_is_to_have_too_few,
};

mod atomicity;
mod lacking;
