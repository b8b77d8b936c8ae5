//! What a node keeps: its cluster file, its objects, each under its name, and the source of its calls' ids; and what it
//! does with each letter and each call. It knows no clients.
#![tactic(auto)]

pub use delivered::{Begun, Delivered};
pub use entries::push_entry;
pub use ids::OwnIds;
pub use keeper::Keeper;
pub use laws::reads_ask_for_the_next_position;
pub use objects::Objects;
pub use objects::scan::Page;

mod delivered;
mod entries;
mod ids;
mod keeper;
mod laws;
mod objects;
mod placing;
mod post;
