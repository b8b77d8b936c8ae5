//! The file of a node's log: reading it at the node's start, appending to it, and writing it anew; and the loop over
//! frames.
#![tactic(auto)]

pub use batch::Batch;
pub use disk::{DiskFile, DiskFolder};
pub use end::LogEnd;
pub use error::{StoreError, StoreFault};
pub use folder::{FolderLog, SecondLog};
pub use gathering::{Round, gather_round};
pub use given::GivenBytes;
pub use laws::{
    cut_logs_are_fronts, left_logs_are_read, logs_are_read_once, moved_entries_stop_reading,
    steps_keep_order,
};
pub use log::Log;
pub use reading::recover_machine;
pub use rewriting::{Rewriting, has_grown, is_worth_rewriting, rewrite_log};
pub use second::RewritableLog;
pub use serving::serve_frames;
pub use stop::ServeError;
pub use stopping::{StoppingLog, StoppingWriter};
pub use stored::StoredLog;
pub use surviving::SurvivingLog;
pub use writing::{append_bytes, push_entries};

mod batch;
mod disk;
mod end;
mod error;
mod folder;
mod gathering;
mod given;
mod laws;
mod log;
mod reading;
mod rewriting;
mod second;
mod serving;
mod stop;
mod stopping;
mod stored;
mod surviving;
mod writing;
