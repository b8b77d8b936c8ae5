//! What separate nodes do, each by what it keeps itself, are events of the world of all nodes. So what all nodes of a
//! cluster do with all their objects keeps the promise for each object.
//!
//! The definitions, which a reader has to believe, are in `specs/`. Each law is the contract of a function with an
//! empty body.
#![tactic(auto)]

pub use clusters::{
    clusters_are_atomic, clusters_have_systems, clusters_keep_values, seen_histories_are_atomic,
};
pub use events::{
    local_events_are_world_events, plain_events_are_world_events, resent_letters_were_sent,
    restarts_are_world_events,
};
pub use starting::starts_grow;
pub use systems::{
    answered_reads_have_values, answers_are_in_history, early_answers_are_in_history,
    events_in_a_row_are_events, systems_are_atomic, systems_have_worlds, systems_keep_values,
};

mod clusters;
mod events;
mod starting;
mod systems;
