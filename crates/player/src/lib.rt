//! Plays a script over a cluster of its own, and prints what each command prints.
#![tactic(auto)]

pub use run::{End, play_line, read_script, report_end, report_unread, run_script};

mod account_line;
mod call_commands;
mod cluster_commands;
mod mail_commands;
mod player;
mod report;
mod run;
mod shown;
mod whole_calls;
