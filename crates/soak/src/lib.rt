//! A soak: many clients and an administrator work through one store at once, each in a thread. When all have ended, the
//! store is closed, and its cluster is summed up and checked.
#![tactic(auto)]

pub use run::{run_plan, run_store};

mod client_thread;
mod counts;
mod crew;
mod moves;
mod run;
mod watch;
