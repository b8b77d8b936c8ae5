//! Why something cannot be done in a run of processes.
use cluster_file::FileError;
use frames::Fault;
use node_effects::NodeError;
use node_store::StoreError;
use std::alloc::{AllocError, AllocFailed};
use std::io;
use thiserror::Error;

/// Why something cannot be done in a run of processes.
#[derive(Debug, Drop, Error)]
pub enum RunError {
    /// The text of the cluster file has a fault, or there is no memory to read it.
    #[error("the cluster file, {0}")]
    BadFile(FileError),
    /// The run has no process of this number.
    #[error("no such process")]
    NoMember,
    /// The process runs already.
    #[error("the process runs")]
    Runs,
    /// The process is stopped.
    #[error("the process is stopped")]
    Stopped,
    /// The log cannot be read.
    #[error("{0}")]
    BadLog(StoreError),
    /// The node cannot start, or cannot go on.
    #[error("{0}")]
    Refused(NodeError),
    /// So many frames were not written.
    #[error("no such frame")]
    NoFrameThere,
    /// The strings are no frame.
    #[error("{0}")]
    NoFrame(Fault),
    /// An entry is not written to the log, because memory is refused.
    #[error("{0}")]
    Unwritten(io::Error),
    /// Memory is refused.
    #[error("out of memory")]
    NoMemory,
}

impl From<FileError> for RunError {
    fn from(error: FileError) -> RunError {
        RunError::BadFile(error)
    }
}

impl From<StoreError> for RunError {
    fn from(error: StoreError) -> RunError {
        RunError::BadLog(error)
    }
}

impl From<NodeError> for RunError {
    fn from(error: NodeError) -> RunError {
        RunError::Refused(error)
    }
}

impl From<Fault> for RunError {
    fn from(fault: Fault) -> RunError {
        RunError::NoFrame(fault)
    }
}

impl From<io::Error> for RunError {
    fn from(error: io::Error) -> RunError {
        RunError::Unwritten(error)
    }
}

impl From<AllocError> for RunError {
    fn from(_error: AllocError) -> RunError {
        RunError::NoMemory
    }
}

impl<T: Drop> From<AllocFailed<T>> for RunError {
    fn from(_error: AllocFailed<T>) -> RunError {
        RunError::NoMemory
    }
}
