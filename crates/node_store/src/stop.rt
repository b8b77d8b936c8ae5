//! Why a node's loop ends early.
use frames::Fault;
use node_effects::NodeError;
use std::io;
use thiserror::Error;

/// Why a node's loop ended before its input did. The effects of the frames that were handled last may be lost.
#[derive(Debug, Drop, Error)]
pub enum ServeError {
    /// What came in is no frame. The fault is never `UnexpectedEnd`, because an input that ends within a frame counts
    /// as ended there.
    #[error("the input is no frame: {0}")]
    NoFrame(Fault),
    /// The input cannot be read.
    #[error("cannot read the input: {0}")]
    NoInput(io::Error),
    /// The log cannot be written or synced. Nothing that depends on what was lost was sent.
    #[error("cannot write the log: {0}")]
    LogLost(io::Error),
    /// The output cannot be written.
    #[error("cannot write the output: {0}")]
    OutputLost(io::Error),
    /// The machine cannot go on, or memory is refused.
    #[error("{0}")]
    Stopped(NodeError),
}
