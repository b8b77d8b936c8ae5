//! Frames to bytes that wait to be written, and those bytes to a writer.
ghost use Rattle.std.specs.Prelude.{◌≡◌, ◌++◌, OnOk};
ghost use Rattle.std.specs.List.{concat, flat_map};
ghost use Rattle.frames.specs.Frame.{frame_bytes, string_bytes};
ghost use Rattle.frames.specs.Writing.{Writes};

use crate::frame::Frame;
use crate::gathered::Gathered;
use crate::output::write_bytes;
use crate::writing::{write_header, write_line_end};
use bytes::Bytes;
use std::io;
use std::io::Write;

/// Adds the bytes of a frame, whose long strings are shared. Fails only if memory is refused, or if there were more
/// than 2^64 - 1 bytes.
pub fn push_frame(bytes: &mut Gathered, frame: &Frame) -> io::Result<()>
    ensures { OnOk result (bytes.new ≡ bytes.old ++ frame_bytes frame.now) }
{
    let strings = frame.strings();
    write_header(bytes, b'*', strings.len())?;
    push_strings(bytes, strings)
}

fn push_strings(bytes: &mut Gathered, strings: &[Bytes]) -> io::Result<()>
    ensures { OnOk result (bytes.new ≡ bytes.old ++ flat_map string_bytes strings.now) }
{
    for string in strings {
        push_string(bytes, string)?;
    }
    Ok(())
}

fn push_string(bytes: &mut Gathered, string: &Bytes) -> io::Result<()>
    ensures { OnOk result (bytes.new ≡ bytes.old ++ string_bytes string.now) }
{
    write_header(bytes, b'$', string.len())?;
    bytes.push_string(string)?;
    write_line_end(bytes)
}

/// Writes all of the bytes, part by part, from where each part lies. It does not flush. If it fails, it wrote a
/// beginning of the bytes.
pub fn write_gathered<W: Write>(writer: &mut W, bytes: &Gathered) -> io::Result<()>
    ensures { Writes (W.contents writer.old) (W.contents writer.new) result bytes.now }
{
    let (parts, last) = bytes.parts();
    write_parts(writer, parts)?;
    write_bytes(writer, last)
}

fn write_parts<W: Write>(writer: &mut W, parts: &[Bytes]) -> io::Result<()>
    ensures { Writes (W.contents writer.old) (W.contents writer.new) result (concat parts.now) }
{
    for part in parts {
        write_bytes(writer, part)?;
    }
    Ok(())
}
