//! The critical sections of a store that threads share. Each locked section is one call of a function that is lent the
//! cluster with its book, and whose contract says which steps it made. The lock and the waiting are in `client`.
//!
//! A section that is refused leaves cluster, book and seats as they were. Any section may be refused with `NoMemory`,
//! unless its comment says that it allocates no memory.
#![tactic(auto)]

pub use admin::{Admin, Order};
pub use begin::begin_in;
pub use booked::{Booked, StoreName};
pub use call_record::{Begin, CallRecord};
pub use close::{Closed, NotClosed, close_in};
pub use handed_in::HandedIn;
pub use messages::{disturb_in, stir_in};
pub use moves::{begin_move_in, has_move_in, move_round_in};
pub use opening::{Parts, open_in};
pub use orders::admin_in;
pub use retiring::retire_in;
pub use rounds::round_in;
pub use seat::Seat;
pub use steps::{move_step_in, step_in};

mod admin;
mod begin;
mod booked;
mod call_record;
mod close;
mod compare;
mod fitting;
mod handed_in;
mod messages;
mod moves;
mod opening;
mod orders;
mod retiring;
mod rounds;
mod seat;
mod steps;
