//! Frames from a reader.
ghost use Rattle.std.specs.Prelude.{◌≡◌, ◌++◌, ℕ, List, Some, IfOk, MatchOption, Ok, length};
ghost use Rattle.std.specs.List.{AllByRecursion};
ghost use Rattle.std.specs.Io.KnownBytes.{Consumes, IsAtEnd};
ghost use Rattle.frames.specs.Frame.{IsFrame, IsShort, frame_bytes};
ghost use Rattle.frames.specs.Reading.{GivesAs, Returns, frame_at, array_at, strings_at, string_at};

use crate::error::{Fault, FrameError};
use crate::frame::Frame;
use crate::input::{next_byte, read_bytes, read_expected, read_line_end};
use crate::limits::{LONGEST_STRING, MOST_STRINGS};
use crate::number::read_number;
use bytes::Bytes;
use std::alloc::Global;
use std::io::Read;

/// The next frame, or none if the input ends before its first byte. It reads no byte beyond the frame.
///
/// A `Fault` is the first one from left to right. The reader is then just after the byte that is wrong. A number is
/// refused as soon as its digits exceed the limit. Memory for a string is allocated once its length is read, so never
/// for more than `LONGEST_STRING` bytes beyond what has come. After `NoMemory` and `Failed` the reader is somewhere
/// within the frame. A read that a signal interrupts is tried again.
pub fn read_frame<R: Read>(alloc: Global, reader: &mut R) -> Result<Option<Frame>, FrameError>
    // What is read stood at the front, and nothing else is taken.
    ensures found { IfOk result (λ found. MatchOption found (IsAtEnd (R.remaining reader.old))
        (λ frame. Consumes (R.remaining reader.old) (R.remaining reader.new) (frame_bytes frame))) }
    // A frame that stands at the front is read, unless memory is refused or the reader fails.
    ensures only { (strings : List (List ℕ)) (rest : List ℕ) → IsFrame strings
        → R.remaining reader.old ≡ Some (frame_bytes strings ++ rest)
        → Returns (λ _. Ok (Some strings, rest)) (R.remaining reader.old) (R.remaining reader.new) result }
    // Which fault it is, and what is left behind it.
    ensures exact { Returns frame_at (R.remaining reader.old) (R.remaining reader.new) result }
{
    read_next(alloc, reader)
}

// Does what `read_frame` does, and promises its clause `exact` alone. The other clauses follow from that one.
fn read_next<R: Read>(alloc: Global, reader: &mut R) -> Result<Option<Frame>, FrameError>
    ensures { Returns frame_at (R.remaining reader.old) (R.remaining reader.new) result }
{
    match next_byte(reader) {
        Ok(None) => Ok(None),
        Ok(Some(b'*')) => Ok(Some(read_array(alloc, reader)?)),
        Ok(Some(_)) => Err(FrameError::Fault(Fault::BadType)),
        Err(error) => Err(FrameError::Failed(error)),
    }
}

// What follows the `*` of a frame.
fn read_array<R: Read>(alloc: Global, reader: &mut R) -> Result<Frame, FrameError>
    ensures { Returns array_at (R.remaining reader.old) (R.remaining reader.new) result }
{
    let count = read_number(reader, MOST_STRINGS as u32, Fault::TooManyStrings)?;
    let strings = read_strings(alloc, reader, count)?;
    Ok(Frame::of(strings))
}

fn read_strings<R: Read>(
    alloc: Global,
    reader: &mut R,
    count: u32,
) -> Result<Vec<Bytes>, FrameError>
    ensures count { IfOk result (λ strings. length strings.items ≡ count) }
    ensures short { IfOk result (λ strings. AllByRecursion IsShort strings.items) }
    ensures exact { GivesAs (λ strings. strings.items) (strings_at count)
        (R.remaining reader.old) (R.remaining reader.new) result }
{
    let mut strings = Vec::with_capacity(alloc, count as usize)?;
    for _ in 0..count {
        let string = read_string(alloc, reader)?;
        strings.push(string)?;
    }
    Ok(strings)
}

fn read_string<R: Read>(alloc: Global, reader: &mut R) -> Result<Bytes, FrameError>
    ensures short { IfOk result IsShort }
    ensures exact { Returns string_at (R.remaining reader.old) (R.remaining reader.new) result }
{
    read_expected(reader, b'$', Fault::BadType)?;
    let len = read_number(reader, LONGEST_STRING as u32, Fault::StringTooLong)?;
    let string = read_bytes(alloc, reader, len)?;
    read_line_end(reader)?;
    Ok(Bytes::from_vec(string)?)
}
