//! Brings a call to its answer: single rounds, and whole calls for one thread.
#![tactic(auto)]

pub use choices::{Filter, choice_at, choose};
pub use chooser::{Chooser, First};
pub use coding::{settle, supply};
pub use congruential::Congruential;
pub use driver::finish;
pub use messages::{Handled, handle, handle_at};
pub use round::{Round, make_round, make_round_at, make_step_at};
pub use whole_call::{NotAnswered, move_to, read, write};

mod choices;
mod chooser;
mod coding;
mod congruential;
mod driver;
mod messages;
mod round;
mod whole_call;
