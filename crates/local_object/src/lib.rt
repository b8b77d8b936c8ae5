//! What one node of a cluster of processes keeps of one object, and what it does with it: it serves requests, and
//! carries out calls. The node hands each letter in, and sends those that come out.
#![tactic(auto)]

pub use kept_bank::KeptBank;
pub use local_object::LocalObject;
pub use place::Place;
pub use progress::{Ended, Progress};
pub use report::Report;

mod calls;
mod changes;
mod coding;
mod early;
mod going;
mod kept_bank;
mod letters;
mod local_object;
mod missing;
mod pieces;
mod place;
mod places;
mod progress;
mod querying;
mod reading;
mod report;
mod reports;
mod tellings;
