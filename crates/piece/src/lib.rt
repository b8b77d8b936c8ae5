//! Pieces of values. Banks hold them, messages carry them, and any k pieces of a value determine it.
#![tactic(auto)]

pub use piece::Piece;

mod piece;
