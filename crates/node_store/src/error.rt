//! Why a log cannot be read.
use node_effects::RecoveryError;
use node_log::Damage;
use std::io;
use thiserror::Error;

/// What is wrong with a log.
#[derive(Debug, Drop, Error)]
pub enum StoreFault {
    /// The bytes are no entry.
    #[error("{0}")]
    Damaged(Damage),
    /// The machine cannot carry out the entry again.
    #[error("{0}")]
    NotCarriedOut(RecoveryError),
    /// The bytes up to the end of the entry are more than 2^64 - 1.
    #[error("the log is too long")]
    TooLong,
    /// Memory is refused.
    #[error("out of memory")]
    NoMemory,
    /// The reader fails.
    #[error("{0}")]
    Failed(io::Error),
}

/// Why a log was not read to its end, and where the entry with this fault begins.
#[derive(Debug, Drop, Error)]
#[error("the log, from byte {at}: {fault}")]
pub struct StoreError {
    /// How many bytes of the log come before the entry.
    pub at: u64,
    /// What is wrong.
    pub fault: StoreFault,
}
