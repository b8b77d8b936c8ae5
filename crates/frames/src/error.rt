//! Why no frame can be read.
use std::alloc::{AllocError, AllocFailed};
use std::io;
use thiserror::Error;

/// What is wrong with bytes that should be a frame: the first fault from left to right.
#[derive(Clone, Copy, Debug, PartialEq, Eq, Error)]
pub enum Fault {
    /// The frame begins with another byte than `*`, or a string with another byte than `$`.
    #[error("unknown type byte")]
    BadType,
    /// A byte of a number is no digit (a sign, for example), a number has no digits, or a digit follows a leading 0.
    #[error("bad number")]
    BadNumber,
    /// A number or a string is not followed by CR LF.
    #[error("line end missing")]
    NoLineEnd,
    /// The frame has more than `MOST_STRINGS` strings.
    #[error("too many strings")]
    TooManyStrings,
    /// A string is longer than `LONGEST_STRING`.
    #[error("string too long")]
    StringTooLong,
    /// The input ends within the frame.
    #[error("unexpected end")]
    UnexpectedEnd,
}

/// Why no frame was read.
#[derive(Debug, Drop, Error)]
pub enum FrameError {
    /// The bytes are no frame.
    #[error("{0}")]
    Fault(Fault),
    /// There is no memory for a string or for the list of strings.
    #[error("out of memory")]
    NoMemory,
    /// The reader fails, and not because of a signal.
    #[error("{0}")]
    Failed(io::Error),
}

impl From<Fault> for FrameError {
    ghost use Rattle.std.specs.Prelude.{◌≡◌};
    ghost use Rattle.frames.specs.declared.error.FrameError.TheVariants.{Fault as IsFault};

    ghost from_gives = { λ fault error. error ≡ IsFault fault };

    fn from(fault: Fault) -> FrameError {
        FrameError::Fault(fault)
    }
}

impl From<AllocError> for FrameError {
    ghost use Rattle.std.specs.Prelude.{◌≡◌};
    ghost use Rattle.frames.specs.declared.error.FrameError.TheVariants.{NoMemory};

    ghost from_gives = { λ _ error. error ≡ NoMemory };

    fn from(_error: AllocError) -> FrameError {
        FrameError::NoMemory
    }
}

impl<T: Drop> From<AllocFailed<T>> for FrameError {
    ghost use Rattle.std.specs.Prelude.{◌≡◌};
    ghost use Rattle.frames.specs.declared.error.FrameError.TheVariants.{NoMemory};

    ghost from_gives = { λ _ error. error ≡ NoMemory };

    fn from(_error: AllocFailed<T>) -> FrameError {
        FrameError::NoMemory
    }
}
