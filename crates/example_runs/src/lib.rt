//! Runs of processes that are carried out: nodes of a cluster in one program, with logs in memory, and frames that are
//! carried between them. What is done is proved to be a run of processes, as `processes` defines it.
#![tactic(auto)]

pub use error::RunError;
pub use example::three_nodes_write_and_read;
pub use members::Member;
pub use process_run::ProcessRun;
pub use sent::Sent;
pub use values::write_and_read;

mod error;
mod example;
mod members;
mod process_run;
mod sent;
mod steps;
#[cfg(test)]
mod tests;
mod values;
