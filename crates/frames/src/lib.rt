//! Frames: lists of byte strings, as Redis writes them, over any reader and writer.
#![tactic(auto)]

pub use error::{Fault, FrameError};
pub use filling::{read_full, read_some};
pub use frame::{Frame, frames_are_read_back, limits_are_these};
pub use gathered::Gathered;
pub use gathering::{push_frame, write_gathered};
pub use limits::{LONGEST_STRING, MOST_STRINGS, SHARED_FROM};
pub use output::write_bytes;
pub use reading::read_frame;
pub use writing::write_frame;

mod error;
mod filling;
mod frame;
mod gathered;
mod gathering;
mod input;
mod limits;
mod number;
mod output;
mod reading;
mod writing;
