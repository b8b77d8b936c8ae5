//! The types that every layer shares: tags of versions, numbers of steps, refusals, and the limits on sizes and counts.
#![tactic(auto)]

pub use call_id::CallId;
pub use limits::{
    LONGEST_NAME, LONGEST_VALUE, MOST_BYTES, MOST_CALLS, MOST_LAYOUTS, MOST_MEMBERS, MOST_MESSAGES,
    MOST_OBJECTS, MOST_PHASES, MOST_POSITIONS, MOST_SEATS, MOST_SERVERS, MOST_STEPS, MOST_WORKERS,
    limits_are_these,
};
pub use refusal::Refusal;
pub use stamp::Stamp;
pub use tag::Tag;

mod call_id;
mod limits;
mod refusal;
mod stamp;
mod tag;
