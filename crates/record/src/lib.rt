//! The record of a coded atomic object: the object as plain data, the steps that change it, when each may be made, and
//! the order of a call's phases.
//!
//! The definitions, which a reader has to believe, are in `specs/`. Each law is the contract of a function with an
//! empty body. The protocol is Coded Atomic Storage (Cadambe, Lynch, Médard and Musial, 2014). Layouts change after
//! ARES (Nicolaou, Cadambe, Prakash, Trigeorgi, Konwar, Médard and Lynch, 2019).
#![tactic(auto)]

pub use call::{CallKind, Entry, Operation, TaggedCall};
pub use shape::{
    answered_calls_are_whole, courses_are_beginnings, finished_calls_are_whole,
    readings_come_before_tags,
};
pub use stage::{Stage, Want};

mod call;
mod shape;
mod stage;
