//! A node of a cluster that another program embeds. It reads no file and sends nothing itself: it returns, step by
//! step, what the program has to do with its log and its network.
#![tactic(auto)]

pub use embedded::NodeCore;
pub use error::CoreError;
pub use laws::{
    cut_off_rounds_stop_early, cut_off_starts_are_stopped, exchanged_logs_are_renewals,
    failed_rounds_stop_early, opened_cores_have_started, rounds_are_served,
};
pub use opening::{Opened, open};
pub use steps::{Step, step_at};

mod embedded;
mod error;
mod laws;
mod opening;
mod rewriting;
mod steps;
