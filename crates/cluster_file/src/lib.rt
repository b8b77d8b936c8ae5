//! The file that all nodes of a cluster share, and placement: the layout that a name has before any move, which each
//! node computes for itself from the nodes that the file lists.
#![tactic(auto)]

pub use cluster_nodes::ClusterNodes;
pub use error::{Fault, FileError, FileFault};
pub use file::{ClusterFile, DIGEST_LENGTH};
pub use laws::{
    hashed_bytes_differ, placed_layouts_are_lawful, read_files_are_written, written_files_are_read,
};
pub use placement_laws::{
    inputs_differ, newcomers_change_one_place, order_of_listing_does_not_matter, others_may_leave,
    placed_are_first, placed_are_lawful,
};
pub use reading::read_cluster_file;
pub use setting::Setting;

mod cluster_nodes;
mod digest;
mod error;
mod file;
mod laws;
mod lines;
mod nodes;
mod number;
mod placement_laws;
mod reading;
mod scored;
mod setting;
mod values;
