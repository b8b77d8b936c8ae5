//! Whole calls of client threads: a store under one lock that they share, with their seats.
//!
//! A method holds the lock for at most one step at a time, and encodes and decodes while the lock is free. It may be
//! refused with `NoMemory`, unless its comment says that it allocates no memory.
#![tactic(auto)]

pub use driver::{Chooser, First, finish};
pub use locked_steps::{
    Admin, Begin, Booked, CallRecord, Closed, NotClosed, Order, Seat, StoreName,
};
pub use record::Operation;
pub use register::Receipt;
pub use store::{Opened, Store};

pub mod sections;
mod store;
