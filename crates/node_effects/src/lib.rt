//! What a node wants done after it has handled a frame, what it still has to do itself, and why it stops.
#![tactic(auto)]

pub use effects::Effects;
pub use error::{NodeError, RecoveryError};
pub use machine::Machine;
pub use notice::Notice;
pub use output::Output;
pub use report::Report;
pub use work::Work;

mod effects;
mod error;
mod machine;
mod notice;
mod output;
mod report;
mod work;
