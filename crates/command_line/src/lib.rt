//! The command line of the program `cas`: codes a value into fragments, decodes a value from fragments, runs a script,
//! and soaks the store, as the words say.
#![tactic(auto)]

pub use program::{run_words, run_words_with_progress};

mod file;
mod program;
mod soaking;
