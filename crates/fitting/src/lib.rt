//! Objects of a node all of whose letters can be written as messages.
//!
//! Each letter that a node sends about a fit object is a message between nodes, and its strings are a frame.
#![tactic(auto)]

pub use laws::{
    all_stay_fit, fit_letters_are_messages, new_is_fit, read_letters_are_fit, stays_fit,
};
pub use outcomes::{
    beginning_stays_fit, closing_stays_fit, ending_stays_fit, first_letters_are_fit,
    hearing_stays_fit, reading_on_stays_fit, resent_is_fit, serving_stays_fit, taking_stays_fit,
};
pub use restoring::{raising_letters_are_fit, restoring_letters_are_fit};

mod laws;
mod outcomes;
mod restoring;
