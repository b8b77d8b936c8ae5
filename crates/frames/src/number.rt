//! Numbers in decimal digits.
ghost use Rattle.std.specs.Prelude.{◌≡◌, ◌≤◌, ◌<◌, IfOk};
ghost use Rattle.frames.specs.Reading.{Returns, number_at, digits_at};

use crate::error::{Fault, FrameError};
use crate::input::{read_byte, read_expected};
use std::io::Read;
use words::{first_digit, with_digit};

/// Reads a number up to `most`, which is below 2^32, and CR LF. Fails with the fault `above` at a greater number.
pub(crate) fn read_number<R: Read>(
    reader: &mut R,
    most: u32,
    above: Fault,
) -> Result<u32, FrameError>
    requires { 9 ≤ most }
    ensures within { IfOk result (λ number. number ≤ most) }
    ensures exact { Returns (number_at most above) (R.remaining reader.old) (R.remaining reader.new) result }
{
    let byte = read_byte(reader)?;
    let first = first_digit(byte, Fault::BadNumber)?;
    let number = read_digits(reader, most as u64, above, first)?;
    read_expected(reader, b'\n', Fault::NoLineEnd)?;
    Ok(number as u32)
}

// The rest of a number that begins with the digits of `first`, and CR.
fn read_digits<R: Read>(
    reader: &mut R,
    most: u64,
    above: Fault,
    first: u64,
) -> Result<u64, FrameError>
    requires { first ≤ most }
    ensures within { IfOk result (λ number. number ≤ most) }
    ensures exact { Returns (digits_at most above first) (R.remaining reader.old) (R.remaining reader.new) result }
{
    let mut number = first;
    let mut byte = read_byte(reader)?;
    while byte != b'\r' {
        number = with_digit(number, byte, most, Fault::BadNumber, above)?;
        byte = read_byte(reader)?;
    }
    Ok(number)
}
