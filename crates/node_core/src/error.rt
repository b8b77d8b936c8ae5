//! Why a core fails.
use cluster_file::FileError;
use node_effects::NodeError;
use node_store::{ServeError, StoreError};
use thiserror::Error;

/// Why a core cannot be opened, or cannot go on.
#[derive(Debug, Drop, Error)]
pub enum CoreError {
    /// The text of the cluster file has a fault, or there is no memory to read it.
    #[error("the cluster file, {0}")]
    BadFile(FileError),
    /// The cluster file names no node of this number.
    #[error("the cluster file has no node {0}")]
    NoNode(u8),
    /// The log has an older form.
    #[error("the log has an older form")]
    OldForm,
    /// The log is damaged, or is not this node's. The error says where, and what is wrong there.
    #[error("{0}")]
    BadLog(StoreError),
    /// The node cannot start, or its log cannot be written anew.
    #[error("{0}")]
    Refused(NodeError),
    /// Memory is refused.
    #[error("out of memory")]
    NoMemory,
    /// The core stopped at the frames that came.
    #[error("{0}")]
    Ended(ServeError),
    /// The core has stopped before. The program opens a new one from the log.
    #[error("the node has stopped")]
    Stopped,
}
