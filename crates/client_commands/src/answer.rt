ghost use Rattle.std.specs.Prelude.{◌≡◌, Some};
ghost use Rattle.client_commands.specs.Texts.{error_code, error_text, refused_text};

use crate::fault::CommandFault;
use bytes::Bytes;
use std::error::Error;
use std::fmt;
use tag::Refusal;

/// An answer to a client's command.
#[derive(Debug, PartialEq, Eq, Drop)]
pub enum Answer {
    /// `OK`: the command was carried out.
    Ok,
    /// `PONG`: to a `PING` without a text.
    Pong,
    /// A value, a text, or the lines of `INFO`.
    Value(Bytes),
    /// There is no value.
    Nil,
    /// A number.
    Number(u64),
    /// An empty list, to `COMMAND`.
    NoCommands,
    /// The cursor with which the next `SCAN` goes on, or 0 if there is nothing left, and names.
    Page { next: u64, names: Vec<Bytes> },
    /// What the node is, to a `HELLO` on the connection of this number.
    Greeting(u64),
    /// The command was not carried out.
    Error(AnswerError),
}

/// Why a command was not carried out.
#[derive(Clone, Copy, Debug, PartialEq, Eq)]
pub enum AnswerError {
    /// The frame asks for no command.
    Fault(CommandFault),
    /// The call was refused.
    Refused(Refusal),
    /// The call was given up, because no quorum answered in time. A write may still take effect.
    NoQuorum,
    /// The command moves an object, and this node is not the one that moves objects.
    NotMover,
    /// The command moves an object to a node that is not in the cluster file.
    NoSuchNode(u8),
    /// The command moves an object to nodes of which the host hears fewer than a quorum. It does not hear this one.
    TooFewHeard(u8),
    /// What the client sent is no frame. The connection ends after this answer.
    Protocol,
}

/// The text that the client gets.
impl fmt::Display for AnswerError {
    ghost output = { λ error. Some (error_text error) };

    fn fmt<W: fmt::Write>(&self, f: &mut fmt::Formatter<W>) -> fmt::Result {
        match self {
            AnswerError::Fault(fault) => write!(f, "{fault}"),
            AnswerError::Refused(refusal) => write!(f, "{}", RefusedText(*refusal)),
            AnswerError::NoQuorum => f.write_str("no quorum answered in time"),
            AnswerError::NotMover => f.write_str("only the mover moves objects"),
            AnswerError::NoSuchNode(node) => write!(f, "node {node} is not in the cluster file"),
            AnswerError::TooFewHeard(node) => write!(
                f,
                "fewer than a quorum of the new nodes answer: node {node} is not heard"
            ),
            AnswerError::Protocol => f.write_str("protocol"),
        }
    }
}

impl Error for AnswerError {}

impl AnswerError {
    /// Returns the word with which the line of the error begins, as Redis has it.
    pub fn code(self) -> &'static str
        ensures { result.now ≡ error_code self }
    {
        match self {
            AnswerError::Fault(fault) => fault.code(),
            _ => "ERR",
        }
    }
}

// The text of a refusal. A client gets no other refusals than those that have a sentence here.
#[derive(Clone, Copy)]
struct RefusedText(Refusal);

impl fmt::Display for RefusedText {
    ghost output = { λ it. Some (refused_text it.0) };

    fn fmt<W: fmt::Write>(&self, f: &mut fmt::Formatter<W>) -> fmt::Result {
        match self.0 {
            Refusal::NotNow => f.write_str("a call with this number is under way"),
            Refusal::TooLong => f.write_str("value too long"),
            Refusal::MovePending => f.write_str("another move of this name is under way"),
            Refusal::Full => f.write_str("this name has been moved as often as is possible"),
            refusal => write!(f, "refused: {refusal}"),
        }
    }
}
