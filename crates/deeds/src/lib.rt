//! What a node does with all its objects, how the contracts of its functions are put together, and the ids that it
//! gives its calls.
//!
//! The definitions, which a reader has to believe, are in `specs/`. A law is the contract of a function with an empty
//! body. A node makes an id of its own number, of its epoch, which is the number of times that it began to count, and
//! of a count.
#![tactic(auto)]

pub use handled::{
    events_are_handled, more_may_come, nothing_is_handled, resent_is_handled, two_are_one,
};
pub use ids::{CallIds, call_ids_differ};

mod handled;
mod ids;
