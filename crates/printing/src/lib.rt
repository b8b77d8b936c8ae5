//! The lines that commands of a script print. Each type borrows what it prints, and printing allocates no memory.
//!
//! A type named `..Line`, and `Outcome`, prints one line without its line feed. A type named `..Lines` prints several
//! lines, each with its line feed.
#![tactic(auto)]

pub use answer_line::AnswerLine;
pub use bank_line::BankLine;
pub use call_line::CallLine;
pub use history_lines::HistoryLines;
pub use mail_lines::MailLines;
pub use outcome::Outcome;
pub use sequence_line::SequenceLine;
pub use vocabulary::{kind_word, operation_word};

mod answer_line;
mod bank_line;
mod call_line;
mod dash;
mod history_lines;
mod mail_lines;
mod outcome;
mod sequence_line;
mod vocabulary;
