//! Commands as clients send them, and answers as Redis documents them.
mod answers;
mod commands;
mod faults;
mod moves;
mod patterns;
mod samples;
mod scans;
