//! The plan of a soak: its limits, the calls and moves by their numbers, and the line that shows how far a soak has
//! come.
#![tactic(auto)]

pub use plan::{MOST_CLIENTS, Plan};
pub use planned_call::{object_called, value_written};
pub use planned_move::{layout_after, object_moved};
pub use progress::Progress;

mod plan;
mod planned_call;
mod planned_move;
mod progress;
