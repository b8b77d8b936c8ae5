//! The calls that a node carries out, as one list: definitions for specifications, and lemmas on such lists.
//!
//! The definitions, which a reader has to believe, are in `specs/`. There is no code.
#![tactic(auto)]
