//! The clients of a node, and the calls that it carries out for them: which client gets which answer, and when.
#![tactic(auto)]

pub use connection::{Connection, State};
pub use connections::Connections;
pub use counts::Counts;
pub use desk::Desk;
pub use next::Next;
pub use open_call::{Aged, OpenCall};
pub use rest::Rest;

mod connection;
mod connections;
mod counts;
mod desk;
mod next;
mod open_call;
mod rest;
