//! Separate nodes: what they keep of an object and send each other, what may happen, and why each run of theirs does
//! what the record of the object does.
//!
//! The definitions, which a reader has to believe, are in `specs/`. Each law is the contract of a function with an
//! empty body.
#![tactic(auto)]

pub use events::{
    advances_are_followed, answers_are_followed, begun_calls_are_followed,
    begun_moves_are_followed, given_up_calls_are_followed, restarts_are_followed,
    serves_are_followed, settles_are_followed, takes_are_followed,
};
pub use runs::{runs_are_followed, worlds_are_atomic, worlds_keep_values};

mod events;
mod runs;
