ghost use Rattle.std.specs.Prelude.{◌≡◌, Some};
ghost use Rattle.tag.specs.Refusal.{number_of, name_of, refusal_text};
ghost use Rattle.tag.specs.declared.refusal.Refusal.TheVariants.{NoMemory};

use std::alloc::{AllocError, AllocFailed};
use std::error::Error;
use std::fmt;

/// Why a call was refused.
#[derive(Clone, Copy, Debug, PartialEq, Eq, Hash)]
pub enum Refusal {
    /// An allocation was refused.
    NoMemory = 1,
    /// The layout breaks the rule `1 <= k <= n <= MOST_MEMBERS` or names a server twice, there is no server of this
    /// number, or there is no layout of this number.
    BadLayout,
    /// No object has this name.
    NoObject,
    /// An object with this name exists already.
    ObjectExists,
    /// The value is longer than `LONGEST_VALUE` bytes, or the name is longer than `LONGEST_NAME` bytes.
    TooLong,
    /// There is no call of this number, or no pending call that could go on.
    NoCall,
    /// The call, the message or the store is not in a state in which it can make this step.
    NotNow,
    /// There is no message at this place.
    NoMessage,
    /// The server that the request is for is down.
    Down,
    /// The encoded value is not the call's value for the layout that gets it, or the value was not decoded from pieces
    /// that the call's current phase took.
    WrongCode,
    /// The object, or the administrator, has a move that is not answered yet.
    MovePending,
    /// A limit on a count or on bytes is reached, such as `MOST_CALLS` or `MOST_BYTES`.
    Full,
    /// The call's phase lacks a quorum of replies, and none of the call's messages can be handled.
    Stuck,
    /// The call was not answered within the number of turns that the caller allowed.
    GaveUp,
    /// The pieces to decode are not k lawful pieces of values of one length at distinct points, or no value has them.
    BadPieces,
    /// A complete fetch has fewer than k pieces, since other members had dropped theirs.
    Collected,
    /// A seat or a receipt does not fit this store, as when it comes from another store.
    Stranger,
}

impl Refusal {
    /// Returns the number of the refusal, from 1 to 17, by which programs print it.
    pub fn number(self) -> u8
        ensures { result ≡ number_of self }
    {
        self as u8
    }

    /// Returns the name of the refusal, by which programs print it.
    pub fn name(self) -> &'static str
        ensures { result.now ≡ name_of self }
    {
        match self {
            Refusal::NoMemory => "NoMemory",
            Refusal::BadLayout => "BadLayout",
            Refusal::NoObject => "NoObject",
            Refusal::ObjectExists => "ObjectExists",
            Refusal::TooLong => "TooLong",
            Refusal::NoCall => "NoCall",
            Refusal::NotNow => "NotNow",
            Refusal::NoMessage => "NoMessage",
            Refusal::Down => "Down",
            Refusal::WrongCode => "WrongCode",
            Refusal::MovePending => "MovePending",
            Refusal::Full => "Full",
            Refusal::Stuck => "Stuck",
            Refusal::GaveUp => "GaveUp",
            Refusal::BadPieces => "BadPieces",
            Refusal::Collected => "Collected",
            Refusal::Stranger => "Stranger",
        }
    }
}

/// A refusal is printed as its number, a space and its name.
impl fmt::Display for Refusal {
    ghost output = { λ r. Some (refusal_text r) };

    fn fmt<W: fmt::Write>(&self, f: &mut fmt::Formatter<W>) -> fmt::Result {
        write!(f, "{} {}", self.number(), self.name())
    }
}

impl Error for Refusal {}

impl From<AllocError> for Refusal {
    ghost from_gives = { λ _ r. r ≡ NoMemory };

    fn from(_error: AllocError) -> Refusal {
        Refusal::NoMemory
    }
}

impl<T: Drop> From<AllocFailed<T>> for Refusal {
    ghost from_gives = { λ _ r. r ≡ NoMemory };

    fn from(_error: AllocFailed<T>) -> Refusal {
        Refusal::NoMemory
    }
}
