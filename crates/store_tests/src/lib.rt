//! Tests of stores of one object over four servers, which threads of the tests use. They stand in a crate of their own,
//! so that the store is proved once less.
#![tactic(auto)]

#[cfg(test)]
mod acts;
#[cfg(test)]
mod anew;
#[cfg(test)]
mod coding;
#[cfg(test)]
mod collected;
#[cfg(test)]
mod crew;
#[cfg(test)]
mod disturbed;
#[cfg(test)]
mod ends;
#[cfg(test)]
mod greatest;
#[cfg(test)]
mod insisting;
#[cfg(test)]
mod kept;
#[cfg(test)]
mod limits;
#[cfg(test)]
mod moved;
#[cfg(test)]
mod resumed;
#[cfg(test)]
mod retired;
#[cfg(test)]
mod scene;
#[cfg(test)]
mod seats;
#[cfg(test)]
mod servers;
#[cfg(test)]
mod strangers;
#[cfg(test)]
mod tally;
#[cfg(test)]
mod turns;
#[cfg(test)]
mod unprepared;
#[cfg(test)]
mod varied;
