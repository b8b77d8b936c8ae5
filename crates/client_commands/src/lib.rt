//! What a client asks a node, as a Redis client writes it, and what it is answered.
#![tactic(auto)]

pub use answer::{Answer, AnswerError};
pub use command::{Command, CommandName, Wanted, count_names};
pub use deletion::Deletion;
pub use fault::CommandFault;
pub use laws::{answers_have_frames, error_texts_are_printable};
pub use patterns::matching_names;
pub use reading::read_command;
pub use scanning::{DEFAULT_COUNT, MOST_SCANNED, ScanOptions};
pub use sections::Sections;
pub use writing::push_answer;

mod answer;
mod arguments;
mod command;
mod deletion;
mod fault;
mod laws;
mod layouts;
mod patterns;
mod reading;
mod scanning;
mod sections;
mod vocabulary;
mod writing;
