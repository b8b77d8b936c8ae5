//! Why no entry can be read.
use std::alloc::AllocError;
use std::io;
use thiserror::Error;

/// What is wrong with the bytes in an entry's place.
#[derive(Clone, Copy, Debug, PartialEq, Eq, Error)]
pub enum Damage {
    /// The digest of the entry's head is wrong, so nobody knows where the entry ends; or the entry does not belong
    /// behind the one before it.
    #[error("wrong head, or an entry that is not in its place")]
    WrongHead,
    /// The digest of the entry's body is wrong.
    #[error("wrong digest")]
    WrongDigest,
    /// Both digests are right, and the body is the frame of no strings.
    #[error("no frame")]
    NoFrame,
}

/// Why no entry was read.
#[derive(Debug, Drop, Error)]
pub enum LogError {
    /// The bytes are damaged.
    #[error("{0}")]
    Damaged(Damage),
    /// Memory is refused for the body, for a string or for the list of strings.
    #[error("out of memory")]
    NoMemory,
    /// The reader fails, and not because of a signal.
    #[error("{0}")]
    Failed(io::Error),
}

impl From<io::Error> for LogError {
    ghost use Rattle.std.specs.Prelude.{◌≡◌};
    ghost use Rattle.node_log.specs.declared.error.LogError.TheVariants.{Failed};

    ghost from_gives = { λ failed error. error ≡ Failed failed };

    fn from(error: io::Error) -> LogError {
        LogError::Failed(error)
    }
}

impl From<AllocError> for LogError {
    ghost use Rattle.std.specs.Prelude.{◌≡◌};
    ghost use Rattle.node_log.specs.declared.error.LogError.TheVariants.{NoMemory};

    ghost from_gives = { λ _ error. error ≡ NoMemory };

    fn from(_error: AllocError) -> LogError {
        LogError::NoMemory
    }
}
