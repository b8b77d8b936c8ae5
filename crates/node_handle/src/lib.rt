//! A node that C holds: its core, what its program has yet to do, and the handle behind which both lie.
#![tactic(auto)]

pub use embedded::{Embedded, Handled, open};
pub use held::Held;
pub use task::{Task, Work};

mod copying;
mod embedded;
mod held;
mod task;
