//! Letters: the messages that the nodes of a cluster send each other about their objects.
#![tactic(auto)]

pub use letter::{Letter, NamedLetter};
pub use shared_layout::SharedLayout;
pub use start::Start;
pub use telling::Telling;

mod letter;
mod shared_layout;
mod start;
mod telling;
