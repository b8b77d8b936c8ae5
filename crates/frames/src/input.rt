//! Bytes of a reader.
ghost use Rattle.std.specs.Prelude.{◌≡◌, ◌∷◌, [], IfOk, MatchOption, length};
ghost use Rattle.std.specs.Io.KnownBytes.{Consumes, IsAtEnd, Keeps};
ghost use Rattle.frames.specs.Reading.{GivesAs, Returns, byte_at, expected_at, line_end_at, bytes_at};
ghost use Rattle.frames.specs.declared.error.Fault.TheVariants.{NoLineEnd};

use crate::error::{Fault, FrameError};
use crate::filling::{read_full, read_some};
use std::alloc::Global;
use std::io;
use std::io::Read;

/// Reads one byte.
pub(crate) fn read_byte<R: Read>(reader: &mut R) -> Result<u8, FrameError>
    ensures { Returns byte_at (R.remaining reader.old) (R.remaining reader.new) result }
{
    match next_byte(reader) {
        Ok(Some(byte)) => Ok(byte),
        Ok(None) => Err(FrameError::Fault(Fault::UnexpectedEnd)),
        Err(error) => Err(FrameError::Failed(error)),
    }
}

/// Reads this byte, or fails with this fault at another byte.
pub(crate) fn read_expected<R: Read>(
    reader: &mut R,
    expected: u8,
    fault: Fault,
) -> Result<u8, FrameError>
    ensures { Returns (expected_at expected fault) (R.remaining reader.old) (R.remaining reader.new) result }
{
    let byte = read_byte(reader)?;
    if byte != expected {
        return Err(FrameError::Fault(fault));
    }
    Ok(byte)
}

/// CR LF.
pub(crate) fn read_line_end<R: Read>(reader: &mut R) -> Result<u8, FrameError>
    ensures { Returns line_end_at (R.remaining reader.old) (R.remaining reader.new) result }
{
    read_expected(reader, b'\r', Fault::NoLineEnd)?;
    read_expected(reader, b'\n', Fault::NoLineEnd)
}

/// Reads the next byte, or returns none at the end of the input.
pub(crate) fn next_byte<R: Read>(reader: &mut R) -> io::Result<Option<u8>>
    ensures { IfOk result (λ found. MatchOption found
        (IsAtEnd (R.remaining reader.old) × Keeps (R.remaining reader.old) (R.remaining reader.new))
        (λ byte. Consumes (R.remaining reader.old) (R.remaining reader.new) (byte ∷ []))) }
{
    let mut room = [0];
    let count = read_some(reader, &mut room)?;
    if count == 0 {
        return Ok(None);
    }
    Ok(Some(room[0]))
}

/// So many bytes. The memory for them is asked for first.
pub(crate) fn read_bytes<R: Read>(
    alloc: Global,
    reader: &mut R,
    len: u32,
) -> Result<Vec<u8>, FrameError>
    ensures length { IfOk result (λ bytes. length bytes.items ≡ len) }
    ensures exact { GivesAs (λ bytes. bytes.items) (bytes_at len)
        (R.remaining reader.old) (R.remaining reader.new) result }
{
    let mut bytes = vec![in alloc; 0; len as usize]?;
    match read_full(reader, &mut bytes) {
        Ok(count) => {
            if count < bytes.len() {
                return Err(FrameError::Fault(Fault::UnexpectedEnd));
            }
            Ok(bytes)
        }
        Err(error) => Err(FrameError::Failed(error)),
    }
}
