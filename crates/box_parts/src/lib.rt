//! A box taken apart, for structs that hold what a box points to behind a pointer of their own.
#![tactic(auto)]

pub use parts::Parts;

mod parts;
