//! Encodes one value with several worker threads, which share a bounded queue of jobs. Each job makes one piece.
#![tactic(auto)]

pub use gate::{Gate, NoGate};
pub use pool::encode_all;

mod crew;
mod gate;
mod jobs;
mod pool;
mod worker;
