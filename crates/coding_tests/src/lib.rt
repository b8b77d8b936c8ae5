//! Tests of the coding crates, each called with values that were worked out by hand or by Intel's ISA-L, and of the
//! pool of coding workers, with values that 0 to 64 workers code. The tests stand in a crate of their own, since a
//! crate with tests is proved twice.
#![tactic(auto)]

#[cfg(test)]
mod by_hand;
#[cfg(test)]
mod coding;
#[cfg(test)]
mod crowd;
#[cfg(test)]
mod decoded;
#[cfg(test)]
mod defined;
#[cfg(test)]
mod dots;
#[cfg(test)]
mod encoded;
#[cfg(test)]
mod hold;
#[cfg(test)]
mod lanes;
#[cfg(test)]
mod last_hundred;
#[cfg(test)]
mod log;
#[cfg(test)]
mod made;
#[cfg(test)]
mod pool;
#[cfg(test)]
mod pool_gate;
#[cfg(test)]
mod products;
#[cfg(test)]
mod repaired;
#[cfg(test)]
mod rows;
#[cfg(test)]
mod same;
