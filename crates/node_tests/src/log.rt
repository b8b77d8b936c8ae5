//! A node's log and what it is made of: CRC-32C against published sums; frames as Redis's clients write them, and
//! others; readers and writers that give and take one byte at a time, and that fail; entries of a log, written, read
//! and damaged.
mod commands;
mod damage;
mod entries;
mod limits;
mod reading;
mod sample;
mod slow;
mod sums;
mod writing;
