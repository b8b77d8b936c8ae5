//! Calls of separate nodes that end early: answers that clients are told before the record makes a step that answers.
//!
//! The definitions, which a reader has to believe, are in `specs/`. Each law is the contract of a function with an
//! empty body.
#![tactic(auto)]

pub use laws::{told_answers_are_atomic, told_reads_return_journaled_values};

mod laws;
