//! Layouts: which servers keep the fragments of a value, how many fragments give it back, and how large a quorum is.
#![tactic(auto)]

pub use layout::{Layout, quorums_share};
pub use member_set::MemberSet;

mod layout;
mod member_set;
