ghost use Rattle.std.specs.Prelude.{◌≡◌, ◌↔◌, IsOk, IfOk, IfErr, length, nat_le};
ghost use Rattle.std.specs.List.{list_all};
ghost use Rattle.frames.specs.declared.error.Fault.TheVariants.{TooManyStrings, StringTooLong};
ghost use Rattle.frames.specs.declared.limits.TheConstants.{MOST_STRINGS, LONGEST_STRING};
ghost use Rattle.frames.specs.Frame.{IsFrame, IsNoFrame};
ghost use Rattle.frames.specs.Laws.{WrittenIsRead, ReadWasWritten, BeginsOneFrame, CutEndsEarly};

use crate::error::Fault;
use crate::limits::{LONGEST_STRING, MOST_STRINGS};
use bytes::Bytes;
use std::marker::Model;

/// A list of byte strings within the limits: at most `MOST_STRINGS` of them, each of at most `LONGEST_STRING` bytes.
#[derive(Debug, Drop)]
pub struct Frame {
    strings: Vec<Bytes>,
}

impl Model for Frame {
    ghost use Rattle.std.specs.Prelude.{ℕ, List};
    ghost use Rattle.frames.specs.Frame.{IsFrame};

    ghost Value = { List (List ℕ) };

    ghost view = { λ frame. frame.strings.items };

    ghost invariant = { λ frame. IsFrame frame.strings.items };
}

impl Frame {
    /// The frame of these strings. `TooManyStrings` if there are more than `MOST_STRINGS`, and otherwise
    /// `StringTooLong` if one is longer than `LONGEST_STRING`.
    pub fn new(strings: Vec<Bytes>) -> Result<Frame, Fault>
        ensures made { IfOk result (λ frame. frame ≡ strings.items) }
        ensures lawful { IsOk result ↔ IsFrame strings.items }
        ensures refused { IfErr result (λ fault. IsNoFrame strings.items fault) }
    {
        if strings.len() > MOST_STRINGS {
            return Err(Fault::TooManyStrings);
        }
        if !are_short(&strings) {
            return Err(Fault::StringTooLong);
        }
        Ok(Frame { strings })
    }

    pub(crate) fn of(strings: Vec<Bytes>) -> Frame
        requires { IsFrame strings.items }
        ensures { result ≡ strings.items }
    {
        Frame { strings }
    }

    /// Returns the strings, in order.
    pub fn strings(&self) -> &[Bytes]
        ensures strings { result.now ≡ self.now }
        ensures lawful { IsFrame self.now }
    {
        &self.strings
    }

    /// Returns the strings, in order.
    pub fn into_strings(self) -> Vec<Bytes>
        ensures strings { result.items ≡ self }
        ensures lawful { IsFrame self }
    {
        self.strings
    }
}

/// A law: a frame that is written is read back, and exactly the bytes after it are left; what is read as a frame was
/// there as it is written; if two frames begin the same bytes, they are the same frame; and the bytes of a frame that
/// are cut short give the fault `UnexpectedEnd`.
pub fn frames_are_read_back()
    ensures written { WrittenIsRead }
    ensures read { ReadWasWritten }
    ensures one { BeginsOneFrame }
    ensures cut { CutEndsEarly }
{}

/// A law: the value of each limit, written out, so that a changed limit breaks this contract.
pub fn limits_are_these()
    ensures strings { MOST_STRINGS ≡ 1024 }
    ensures string { LONGEST_STRING ≡ 16842752 }
{}

fn are_short(strings: &[Bytes]) -> bool
    ensures { result ≡ list_all (λ string. nat_le (length string) LONGEST_STRING) strings.now }
{
    strings.iter().all(|string| string.len() <= LONGEST_STRING)
}
