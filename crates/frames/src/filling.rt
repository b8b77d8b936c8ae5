//! Buffers that are filled from a reader.
ghost use Rattle.std.specs.Prelude.{◌≡◌, ◌<◌, ◌≤◌, ◌+◌, IfOk, length, take, drop};
ghost use Rattle.std.specs.Io.KnownBytes.{Consumes, IsAtEnd, ReadConsumes};
ghost use Rattle.std.specs.Io.{ReadsAtMost};

use std::io;
use std::io::{ErrorKind, Read};

/// Fills the buffer with the next bytes of the reader. Returns how many there were: fewer than the buffer has room for
/// only if the input ends. Fails with the error of the reader if that is not because of a signal.
pub fn read_full<R: Read>(reader: &mut R, buf: &mut [u8]) -> io::Result<usize>
    ensures same { length buf.new ≡ length buf.old }
    ensures fits { IfOk result (λ count. count ≤ length buf.new) }
    ensures bytes { IfOk result (λ count. Consumes (R.remaining reader.old) (R.remaining reader.new)
        (take count buf.new)) }
    ensures end { IfOk result (λ count. count < length buf.new → IsAtEnd (R.remaining reader.new)) }
{
    let mut filled = 0;
    while filled < buf.len() {
        match read_at(reader, buf, filled) {
            Ok(0) => return Ok(filled),
            Ok(count) => filled += count,
            Err(error) => return Err(error),
        }
    }
    Ok(filled)
}

// One read of bytes to the part of the buffer from `at` on.
fn read_at<R: Read>(reader: &mut R, buf: &mut [u8], at: usize) -> io::Result<usize>
    requires { at < length buf.old }
    ensures same { length buf.new ≡ length buf.old }
    ensures front { take at buf.new ≡ take at buf.old }
    ensures fits { IfOk result (λ count. at + count ≤ length buf.new) }
    ensures bytes { IfOk result (λ count.
        Consumes (R.remaining reader.old) (R.remaining reader.new) (take count (drop at buf.new))) }
    ensures end { IfOk result (λ count. count ≡ 0 → IsAtEnd (R.remaining reader.new)) }
{
    read_some(reader, &mut buf[at..])
}

/// One read, which is made again if a signal interrupts it. Returns how many bytes it took, which is 0 only at the end
/// of the input or if the buffer is empty.
pub fn read_some<R: Read>(reader: &mut R, buf: &mut [u8]) -> io::Result<usize>
    ensures bound { ReadsAtMost result buf.new }
    ensures bytes { ReadConsumes (R.remaining reader.old) (R.remaining reader.new) result buf.new }
{
    for _ in 0..u64::MAX {
        match reader.read(buf) {
            Ok(count) => return Ok(count),
            Err(error) => {
                if error.kind() != ErrorKind::Interrupted {
                    return Err(error);
                }
            }
        }
    }
    Err(io::Error::from(ErrorKind::TimedOut))
}
