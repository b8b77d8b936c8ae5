//! Tests of the command line, whose function is called here as any other crate can call it.
#![tactic(auto)]

#[cfg(test)]
mod lines;
