//! Why a text is not a cluster file.
use crate::setting::Setting;
use std::alloc::AllocError;
use thiserror::Error;

/// What is wrong with a word, or is missing in its place.
#[derive(Clone, Copy, Debug, PartialEq, Eq, Error)]
pub enum Fault {
    /// The first word of the line names no setting.
    #[error("unknown setting")]
    UnknownSetting,
    /// An earlier line has this setting already.
    #[error("setting given twice")]
    SettingTwice,
    /// This setting is due here, but a later one or the end of the text is here.
    #[error("setting `{0}` missing")]
    SettingMissing(Setting),
    /// The line ends where a value is due.
    #[error("value missing")]
    ValueMissing,
    /// The setting has one value, and this is a word after it.
    #[error("word behind the value")]
    WordBehind,
    /// The word is not a number in decimal digits without a leading zero, nor `none` for `delta`.
    #[error("not a number")]
    NotANumber,
    /// The number is too small or too great for its setting.
    #[error("number out of range")]
    OutOfRange,
    /// `n` is 0 or exceeds the number of nodes.
    #[error("n is not from 1 to the number of nodes")]
    BadN,
    /// `k` is 0 or exceeds n.
    #[error("k is not from 1 to n")]
    BadK,
    /// The node is named already.
    #[error("node named twice")]
    NodeTwice,
    /// `MOST_SERVERS` nodes are named already.
    #[error("too many nodes")]
    TooManyNodes,
    /// `mover` is neither one of `nodes` nor one of `later`.
    #[error("the mover is named neither under nodes nor under later")]
    NoNode,
}

/// A fault, and where it is.
#[derive(Clone, Copy, Debug, PartialEq, Eq, Error)]
#[error("line {line}, word {word}: {fault}")]
pub struct FileFault {
    /// The line, from 1.
    pub line: u64,
    /// The word of the line, from 1.
    pub word: u64,
    /// What is wrong there.
    pub fault: Fault,
}

/// Why no cluster file was read.
#[derive(Debug, Drop, Error)]
pub enum FileError {
    /// The text is no cluster file.
    #[error("{0}")]
    Fault(FileFault),
    /// There is no memory for the lines and words of the text.
    #[error("out of memory")]
    NoMemory,
}

impl From<FileFault> for FileError {
    ghost use Rattle.std.specs.Prelude.{◌≡◌};
    ghost use Rattle.cluster_file.specs.declared.error.FileError.TheVariants.{Fault as IsFault};

    ghost from_gives = { λ fault error. error ≡ IsFault fault };

    fn from(fault: FileFault) -> FileError {
        FileError::Fault(fault)
    }
}

impl From<AllocError> for FileError {
    ghost use Rattle.std.specs.Prelude.{◌≡◌};
    ghost use Rattle.cluster_file.specs.declared.error.FileError.TheVariants.{NoMemory};

    ghost from_gives = { λ _ error. error ≡ NoMemory };

    fn from(_error: AllocError) -> FileError {
        FileError::NoMemory
    }
}
