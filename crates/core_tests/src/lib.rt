//! Tests of a node that another program embeds. They stand in a crate of their own, since a crate with tests is proved
//! twice.
#![tactic(auto)]

#[cfg(test)]
mod embedded;
#[cfg(test)]
mod members;
