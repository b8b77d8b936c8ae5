//! Which records of an object are sound, and that every step keeps a record sound.
//!
//! The definitions, which a reader has to believe, are in `specs/`. Each law is the contract of a function with an
//! empty body. The record and its steps are those of the crate `record`.
#![tactic(auto)]

pub use accounts::{mailed_bytes_come_and_go, stored_bytes_come_and_go};
pub use origins::{labels_come_with_their_requests, sent_tags_are_journaled};
pub use retiring::{
    retired_positions_were_moved_out_of, retiring_frees_the_base, retiring_raises_the_base,
};
pub use soundness::{
    due_positions_are_there, opened_objects_are_sound, runs_are_sound, runs_keep_soundness,
    sent_values_are_there, steps_keep_soundness, tags_are_past, wanted_pieces_fit_the_layout,
};

mod accounts;
mod origins;
mod retiring;
mod soundness;
