//! Tests of the small crates that an object is built from, of objects, of histories, of clusters of objects, and of
//! whole calls. They stand in a crate of their own, since a crate with tests is proved twice.
#![tactic(auto)]

#[cfg(test)]
mod acts;
#[cfg(test)]
mod bank_deeds;
#[cfg(test)]
mod banks;
#[cfg(test)]
mod calls;
#[cfg(test)]
mod edges_of_words;
#[cfg(test)]
mod histories;
#[cfg(test)]
mod layouts;
#[cfg(test)]
mod limits;
#[cfg(test)]
mod mails;
#[cfg(test)]
mod one_object;
#[cfg(test)]
mod phases;
#[cfg(test)]
mod pieces;
#[cfg(test)]
mod readings;
#[cfg(test)]
mod same;
#[cfg(test)]
mod sequences;
#[cfg(test)]
mod stages;
#[cfg(test)]
mod tags;
#[cfg(test)]
mod two_objects;
#[cfg(test)]
mod whole_calls;
