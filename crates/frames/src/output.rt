//! Bytes to a writer.
ghost use Rattle.frames.specs.Writing.{Writes};

use std::io;
use std::io::{ErrorKind, Write};

/// Writes all of the bytes. It does not flush. Where it fails, a front of them was written. A write that a signal
/// interrupts is tried again, at most 2^64 - 1 times in a row, and then the error is `TimedOut`.
pub fn write_bytes<W: Write>(writer: &mut W, bytes: &[u8]) -> io::Result<()>
    ensures { Writes (W.contents writer.old) (W.contents writer.new) result bytes.now }
{
    let mut rest = bytes;
    for _ in 0..u64::MAX {
        if rest.is_empty() {
            return Ok(());
        }
        match writer.write(rest) {
            Ok(0) => return Err(io::Error::from(ErrorKind::WriteZero)),
            Ok(count) => rest = &rest[count..],
            Err(error) => {
                if error.kind() != ErrorKind::Interrupted {
                    return Err(error);
                }
            }
        }
    }
    Err(io::Error::from(ErrorKind::TimedOut))
}
