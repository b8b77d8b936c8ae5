//! The language of scripts: lines, their words, and the commands that they spell.
#![tactic(auto)]

pub use change::Change;
pub use command::{Command, parse_command};
pub use error::LineError;
pub use line::{Line, parse_line};

mod arguments;
mod call_commands;
mod change;
mod cluster_commands;
mod command;
mod error;
mod line;
mod mail_commands;
mod number_commands;
mod object_commands;
mod values;
