//! Clusters of node programs: processes that stop at any moment, logs of which a stop leaves the synced entries and
//! perhaps more, and frames that are lost, delayed, repeated and reordered.
//!
//! The definitions, which a reader has to believe, are in `specs/`. Each law is the contract of a function with an
//! empty body, or one that only calls the code of which the law speaks.
#![tactic(auto)]

pub use kills::killed_rounds_are_events;
pub use laws::{
    clients_get_their_answers, clients_see_atomic_histories, left_logs_have_distinct_moves,
    logs_have_distinct_moves, processes_are_atomic, processes_have_clusters, processes_keep_values,
    rewrites_are_events, rounds_are_events, sessions_are_events, starts_are_events,
    starts_have_the_open_moves, stopped_sessions_are_events, stopped_starts_are_events,
    stops_are_events, unexchanged_sessions_are_events,
};

mod kills;
mod laws;
