//! One object in running code: its positions with their banks, its mail, its calls, and the steps that change them. A
//! bank is one server's state for one position.
//!
//! The invariant of `Register` says that its record is sound. So all that `soundness` and `atomicity` prove about
//! sound records holds for every `Register`.
#![tactic(auto)]

pub use act::{Act, Answered};
pub use call::{CallView, Receipt};
pub use code::fragments_are_a_code;
pub use register::Register;

mod act;
mod code;
mod pieces;
mod position;
mod register;
mod requests;
mod tracked_call;
