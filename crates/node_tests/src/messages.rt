//! Messages between nodes, to frames that are written by hand and back.
mod bodies;
mod faults;
mod heads;
mod replies;
mod samples;
mod starts;
mod tellings;
mod writing;
