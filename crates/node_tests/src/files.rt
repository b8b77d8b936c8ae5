//! The cluster file, with texts and faults that were written by hand, and the layouts that it gives to names, which
//! were computed by another program.
mod digests;
mod faults;
mod movers;
mod placed;
mod read;
mod rows;
mod spread;
