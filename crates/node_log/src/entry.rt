//! One entry of a log.
ghost use Rattle.std.specs.Prelude.{◌≡◌, MatchResult, OnOk, length};
ghost use Rattle.frames.specs.Frame.{IsFrame, frame_bytes};
ghost use Rattle.node_log.specs.Entry.{described, sealed, IsEntry, IsNoEntry};

use crate::head::SAYS_LENGTH;
use crate::tally::says_of;
use bytes::Bytes;
use frames::{Frame, FrameError};
use std::alloc::Global;
use std::marker::Model;

/// Strings, and what the head says of their frame that stands before it in a log.
#[derive(Debug, Drop)]
pub struct Entry {
    says: [u8; SAYS_LENGTH],
    frame: Frame,
}

impl Model for Entry {
    ghost use Rattle.std.specs.Prelude.{◌≡◌, ℕ, List};
    ghost use Rattle.frames.specs.Frame.{frame_bytes};
    ghost use Rattle.node_log.specs.Entry.{described};

    ghost Value = { List (List ℕ) };

    ghost view = { λ entry. entry.frame };

    ghost invariant = { λ entry. entry.says ≡ described (frame_bytes entry.frame) };
}

impl Entry {
    /// The entry of these strings. `Fault` with `TooManyStrings` where there are more than `MOST_STRINGS`, and
    /// otherwise with `StringTooLong` where one is longer than `LONGEST_STRING`. The digest is computed over the
    /// strings as they lie, so this asks for no memory.
    pub fn new(_alloc: Global, strings: Vec<Bytes>) -> Result<Entry, FrameError>
        ensures made { MatchResult result (λ entry. entry ≡ sealed strings.items) (IsNoEntry strings.items) }
        ensures fits { OnOk result (IsEntry strings.items) }
    {
        let frame = Frame::new(strings)?;
        Ok(Entry {
            says: says_of(&frame),
            frame,
        })
    }

    /// The entry of a frame of which it is known what its head says.
    pub(crate) fn of(says: [u8; SAYS_LENGTH], frame: Frame) -> Entry
        requires { says ≡ described (frame_bytes frame) }
        ensures { result ≡ frame }
    {
        Entry { says, frame }
    }

    /// What the head says of the frame.
    pub(crate) fn says(&self) -> &[u8; SAYS_LENGTH]
        ensures { result.now ≡ described (frame_bytes self.now) }
    {
        &self.says
    }

    /// The strings as a frame.
    pub(crate) fn frame(&self) -> &Frame
        ensures { result.now ≡ self.now }
    {
        &self.frame
    }

    /// The strings, in order.
    pub fn strings(&self) -> &[Bytes]
        ensures { self.now ≡ sealed result.now }
    {
        self.frame.strings()
    }

    /// The strings, in order.
    pub fn into_strings(self) -> Vec<Bytes>
        ensures { self ≡ sealed result.items }
    {
        self.frame.into_strings()
    }
}
