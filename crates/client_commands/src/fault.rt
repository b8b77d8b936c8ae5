ghost use Rattle.std.specs.Prelude.{◌≡◌, Some};
ghost use Rattle.client_commands.specs.Texts.{fault_code, fault_text};

use crate::command::CommandName;
use std::error::Error;
use std::fmt;

/// Why a frame asks for no command: the first fault in the order of these variants; among faults of numbers, and among
/// those of the options of a `SCAN`, the first from left to right, byte by byte.
#[derive(Clone, Copy, Debug, PartialEq, Eq)]
pub enum CommandFault {
    /// The first string names no command, or there is none.
    UnknownCommand,
    /// The string after `CLIENT` is not `ID`, `SETNAME`, `SETINFO` or `GETNAME`.
    UnknownSubcommand,
    /// The command of this name has another number of arguments.
    WrongCount(CommandName),
    /// `SELECT` with another word than `0`.
    NoDatabase,
    /// `HELLO` with another version of the protocol than 2.
    NoProtocol,
    /// `AUTH` with a password alone: a node has none.
    NoPassword,
    /// `AUTH`, or the `AUTH` of a `HELLO`, with another user than `default`.
    WrongUser,
    /// A command that gives a value a time to live, or an option of `SET` that does.
    NoExpiry,
    /// A command whose write depends on the value before it, or an option of `SET` that makes it so.
    NoCondition,
    /// A command on several names.
    SeveralNames,
    /// The cursor of a `SCAN` is no number of 64 bits.
    BadCursor,
    /// There are other words where a `SET`, a `HELLO`, an `AUTH` or a `SCAN` may have options, or the `COUNT` of a
    /// `SCAN` is 0.
    SyntaxError,
    /// The `COUNT` of a `SCAN` is no number, or above 2^63 - 1.
    NotInteger,
    /// The name is longer than `LONGEST_NAME`.
    NameTooLong,
    /// The value is longer than `LONGEST_VALUE`.
    ValueTooLong,
    /// A string for k or a node has a byte that is no digit, a leading 0, or no byte.
    BadNumber,
    /// The digits so far of k or of a node are those of a number above 255.
    OutOfRange,
    /// k is 0, there are fewer nodes than k, or a node is named twice.
    BadLayout,
    /// The pattern of a `SCAN` is longer than `LONGEST_NAME`.
    PatternTooLong,
    /// The pattern of a `SCAN` has a set of bytes, such as `[ab]`.
    NoSets,
}

/// The text that the client gets.
impl fmt::Display for CommandFault {
    ghost output = { λ fault. Some (fault_text fault) };

    fn fmt<W: fmt::Write>(&self, f: &mut fmt::Formatter<W>) -> fmt::Result {
        match self {
            CommandFault::UnknownCommand => f.write_str("unknown command"),
            CommandFault::UnknownSubcommand => f.write_str("unknown subcommand"),
            CommandFault::WrongCount(name) => {
                write!(f, "wrong number of arguments for '{name}' command")
            }
            CommandFault::NoDatabase => f.write_str("DB index is out of range"),
            CommandFault::NoProtocol => f.write_str("unsupported protocol version"),
            CommandFault::NoPassword => f.write_str(
                "AUTH <password> called without any password configured for the default user. \
                Are you sure your configuration is correct?",
            ),
            CommandFault::WrongUser => {
                f.write_str("invalid username-password pair or user is disabled.")
            }
            CommandFault::NoExpiry => {
                f.write_str("values do not expire in this store; nothing was changed")
            }
            CommandFault::NoCondition => f.write_str(
                "a write does not depend on the value before it in this store; nothing was changed",
            ),
            CommandFault::SeveralNames => {
                f.write_str("a command has one name in this store; nothing was done")
            }
            CommandFault::BadCursor => f.write_str("invalid cursor"),
            CommandFault::SyntaxError => f.write_str("syntax error"),
            CommandFault::NotInteger => { f.write_str("value is not an integer or out of range") }
            CommandFault::NameTooLong => f.write_str("name too long"),
            CommandFault::ValueTooLong => f.write_str("value too long"),
            CommandFault::BadNumber => f.write_str("bad number"),
            CommandFault::OutOfRange => f.write_str("number out of range"),
            CommandFault::BadLayout => f.write_str("bad layout"),
            CommandFault::PatternTooLong => f.write_str("pattern too long"),
            CommandFault::NoSets => {
                f.write_str("a pattern has no sets in this store; write \\[ for the byte")
            }
        }
    }
}

impl Error for CommandFault {}

impl CommandFault {
    /// Returns the word with which the line of the fault begins, as Redis has it.
    pub fn code(self) -> &'static str
        ensures { result.now ≡ fault_code self }
    {
        match self {
            CommandFault::NoProtocol => "NOPROTO",
            CommandFault::WrongUser => "WRONGPASS",
            _ => "ERR",
        }
    }
}
