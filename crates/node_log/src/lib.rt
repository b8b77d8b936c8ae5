//! The log of a node: entries, each a list of byte strings with a digest, over any reader and writer. The digests of
//! the heads go on from one entry to the next.
//!
//! The digest is CRC-32C: the cyclic redundancy check of iSCSI, ext4 and many databases, of 32 bits.
#![tactic(auto)]

pub use chain::Chain;
pub use checksum_laws::changed_bytes_are_noticed;
pub use entry::Entry;
pub use error::{Damage, LogError};
pub use head::{HEAD_LENGTH, is_old_head};
pub use laws::{entries_are_read_back, moved_entries_are_noticed};
pub use reading::read_entry;
pub use states::checksum;
pub use writing::{push_entry, write_entry};

mod chain;
mod checksum_laws;
mod digest;
mod entry;
mod error;
mod folding;
mod head;
mod input;
mod laws;
mod reading;
mod states;
mod tables;
mod tally;
mod writing;
