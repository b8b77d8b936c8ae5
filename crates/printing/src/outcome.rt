//! The line that says what a command did.
ghost use Rattle.std.specs.Prelude.{Some};
ghost use Rattle.printing.specs.Outcome.{outcome_text};

use crate::vocabulary::took_word;
use mail::Took;
use std::fmt;
use tag::{CallId, Refusal};

/// What a command did, if it shows nothing. It prints as one line.
#[derive(Clone, Copy, Debug, PartialEq, Eq)]
pub enum Outcome {
    /// `ok`
    Done,
    /// `layout ID`
    Layout(u32),
    /// `call C`
    Called(CallId),
    /// `recorded`, `complete`, `stale` or `doubled`
    Took(Took),
    /// `handled N`, where N is the number of steps made
    Handled(u64),
    /// `freed BYTES`
    Freed(u64),
    /// `refused N Name`
    Refused(Refusal),
    /// `call C refused N Name`: the call began, and a later step was refused
    CallRefused { call: CallId, refusal: Refusal },
    /// `check true` or `check false`
    Checked(bool),
}

impl fmt::Display for Outcome {
    ghost output = { λ o. Some (outcome_text o) };

    fn fmt<W: fmt::Write>(&self, f: &mut fmt::Formatter<W>) -> fmt::Result {
        match self {
            Outcome::Done => f.write_str("ok"),
            Outcome::Layout(id) => write!(f, "layout {id}"),
            Outcome::Called(call) => write!(f, "call {call}"),
            Outcome::Took(took) => f.write_str(took_word(*took)),
            Outcome::Handled(steps) => write!(f, "handled {steps}"),
            Outcome::Freed(bytes) => write!(f, "freed {bytes}"),
            Outcome::Refused(refusal) => write!(f, "refused {refusal}"),
            Outcome::CallRefused { call, refusal } => write!(f, "call {call} refused {refusal}"),
            Outcome::Checked(holds) => write!(f, "check {holds}"),
        }
    }
}
