//! The parts of a soak that look at its cluster and need no thread: the cluster with which a soak begins, and the
//! summary of the one with which it ends.
#![tactic(auto)]

pub use audit::are_accounted;
pub use setting::make_setting;
pub use summary::Summary;

mod audit;
mod setting;
mod summary;
