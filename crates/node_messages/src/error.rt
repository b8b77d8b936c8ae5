//! Why a message is not read, or not written.
use std::alloc::{AllocError, AllocFailed};
use thiserror::Error;

/// What is wrong with the strings of a frame, or with a message: the first fault.
#[derive(Clone, Copy, Debug, PartialEq, Eq, Error)]
pub enum Fault {
    /// A string is missing, or there is a string after the message.
    #[error("wrong number of strings")]
    WrongCount,
    /// The first string is no head of this form: it is too short, or its first byte is not `FORM`.
    #[error("another form of messages")]
    OtherForm,
    /// The object's name is longer than `LONGEST_NAME`.
    #[error("name too long")]
    NameTooLong,
    /// A code stands for neither a request nor a reply, for no kind, for no status, for neither a piece nor none, or
    /// for nothing that a letter asks or tells besides its message.
    #[error("unknown code")]
    UnknownCode,
    /// A request to pre-write has no piece.
    #[error("no piece")]
    NoPiece,
    /// A layout is cut short or not lawful, or the position of a start is cut short.
    #[error("bad layout")]
    BadLayout,
    /// There are bytes in the head after the layouts and the start.
    #[error("head too long")]
    LongHead,
    /// The layout has no such member.
    #[error("no such member")]
    NoMember,
    /// A request tells something of a member, or a reply asks for a piece.
    #[error("a request that tells, or a reply that asks")]
    BadTelling,
    /// A place of the head that the message does not use has another byte than zero.
    #[error("unused place is not zero")]
    UnusedPlace,
    /// The answer does not belong to a request of its kind. Only a message can have this fault, not a frame.
    #[error("answer to another kind")]
    BadAnswer,
    /// A message has a next layout although it names none, or has none although it names one. Only a message can have
    /// this fault, not a frame.
    #[error("bad next layout")]
    BadNext,
    /// The piece of a message, or the one that its letter tells, is longer than a string of a frame may be. Only a
    /// message can have this fault. No other string of a message can be so long.
    #[error("piece too long")]
    PieceTooLong,
}

/// Why a message was not read, or not written.
#[derive(Debug, Drop, Error)]
pub enum MessageError {
    /// The frame is no message, or the message has no frame.
    #[error("{0}")]
    Fault(Fault),
    /// There is no memory, or a string of the frame has too many owners.
    #[error("out of memory")]
    NoMemory,
}

impl From<Fault> for MessageError {
    ghost use Rattle.std.specs.Prelude.{◌≡◌};
    ghost use Rattle.node_messages.specs.declared.error.MessageError.TheVariants.{Fault as IsFault};

    ghost from_gives = { λ fault error. error ≡ IsFault fault };

    fn from(fault: Fault) -> MessageError {
        MessageError::Fault(fault)
    }
}

impl From<AllocError> for MessageError {
    ghost use Rattle.std.specs.Prelude.{◌≡◌};
    ghost use Rattle.node_messages.specs.declared.error.MessageError.TheVariants.{NoMemory};

    ghost from_gives = { λ _ error. error ≡ NoMemory };

    fn from(_error: AllocError) -> MessageError {
        MessageError::NoMemory
    }
}

impl<T: Drop> From<AllocFailed<T>> for MessageError {
    ghost use Rattle.std.specs.Prelude.{◌≡◌};
    ghost use Rattle.node_messages.specs.declared.error.MessageError.TheVariants.{NoMemory};

    ghost from_gives = { λ _ error. error ≡ NoMemory };

    fn from(_error: AllocFailed<T>) -> MessageError {
        MessageError::NoMemory
    }
}
