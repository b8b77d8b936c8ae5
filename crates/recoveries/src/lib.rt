//! What a node gets back from its log, which records the log needs for that, and what a log needs that is written anew.
//!
//! The definitions, which a reader has to believe, are in `specs/`. Each law is the contract of a function with an
//! empty body.
#![tactic(auto)]

pub use logged::{
    closes_are_logged, moves_are_logged, raises_are_logged, served_is_logged, starts_are_logged,
    taken_is_logged,
};
pub use own_calls::{
    handling_keeps_own_calls, logged_ids_differ, new_nodes_have_own_calls,
    restarting_keeps_own_calls,
};
pub use rewritten::{
    handling_keeps_own, new_nodes_have_own, recovering_keeps_own, rewritten_logs_record,
    starts_keep_own,
};
pub use runs::{
    copies_restart, more_is_recorded, new_is_recorded, recovered_nodes_restart, two_are_logged,
    two_are_recovered,
};
pub use stops::{
    more_is_safe, one_record_is_safe, stopped_nodes_restart, two_are_safe, unlogged_is_safe,
};
pub use unlogged::{
    given_up_needs_no_record, reading_on_needs_no_record, reads_need_no_record,
    same_needs_no_record, taken_needs_no_record, unchanged_needs_no_record, writes_need_no_record,
};

mod logged;
mod own_calls;
mod rewritten;
mod runs;
mod stops;
mod unlogged;
