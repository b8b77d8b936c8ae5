//! What the strings of a node's frames and of its log mean: where a frame comes from and where it goes, what an entry
//! of the log records, and the parts of strings: words, numbers in decimal digits and layouts.
#![tactic(auto)]

pub use address::{ConnectionId, client_address, node_address};
pub use arrival::{Arrival, read_arrival};
pub use heard::Heard;
pub use laws::strings_are_read_back;
pub use layouts::{checked_layout, read_layout};
pub use number::read_number;
pub use pushing::{push_bytes, push_layout, push_number, push_shared, push_word};
pub use reading::read_record;
pub use record::Record;
pub use text::is_text;
pub use writing::record_strings;

mod address;
mod arrival;
mod heard;
mod laws;
mod layouts;
mod number;
mod parts;
mod pushing;
mod reading;
mod record;
mod text;
mod writing;
