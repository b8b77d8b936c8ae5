//! What holds for each object: its history is atomic, and the tags of its calls define a sequence of it.
//!
//! A certificate is an object's entries with a sequence of them. `check` decides whether a list of calls is a sequence
//! of entries, and `order_by_tags` computes the list that the tags of calls define. Neither needs a `Register`.
#![tactic(auto)]

pub use certificate::check;
pub use laws::{calls_are_in_turn, entries_are_lawful, tag_orders_are_sequences};
pub use object::{atomic, sequence};
pub use order::order_by_tags;

mod certificate;
mod laws;
mod object;
mod order;
