//! Frames to a writer.
ghost use Rattle.std.specs.List.{flat_map};
ghost use Rattle.std.specs.Fmt.{decimal};
ghost use Rattle.frames.specs.Frame.{frame_bytes, string_bytes, header, line_end};
ghost use Rattle.frames.specs.Writing.{Writes};

use crate::frame::Frame;
use crate::output::write_bytes;
use bytes::Bytes;
use itoa::Buffer;
use std::io;
use std::io::Write;

/// Writes a frame. It does not flush. If it fails, it wrote a beginning of the frame's bytes.
pub fn write_frame<W: Write>(writer: &mut W, frame: &Frame) -> io::Result<()>
    ensures { Writes (W.contents writer.old) (W.contents writer.new) result (frame_bytes frame.now) }
{
    let strings = frame.strings();
    write_header(writer, b'*', strings.len())?;
    write_strings(writer, strings)
}

fn write_strings<W: Write>(writer: &mut W, strings: &[Bytes]) -> io::Result<()>
    ensures { Writes (W.contents writer.old) (W.contents writer.new) result (flat_map string_bytes strings.now) }
{
    for string in strings {
        write_string(writer, string)?;
    }
    Ok(())
}

fn write_string<W: Write>(writer: &mut W, string: &[u8]) -> io::Result<()>
    ensures { Writes (W.contents writer.old) (W.contents writer.new) result (string_bytes string.now) }
{
    write_header(writer, b'$', string.len())?;
    write_bytes(writer, string)?;
    write_line_end(writer)
}

/// Writes a type byte, a number in decimal digits, and CR LF.
pub(crate) fn write_header<W: Write>(writer: &mut W, mark: u8, number: usize) -> io::Result<()>
    ensures { Writes (W.contents writer.old) (W.contents writer.new) result (header mark number) }
{
    write_bytes(writer, &[mark])?;
    write_number(writer, number)?;
    write_line_end(writer)
}

fn write_number<W: Write>(writer: &mut W, number: usize) -> io::Result<()>
    ensures { Writes (W.contents writer.old) (W.contents writer.new) result (decimal number) }
{
    let mut buffer = Buffer::new();
    write_bytes(writer, buffer.format(number).as_bytes())
}

/// Writes CR LF.
pub(crate) fn write_line_end<W: Write>(writer: &mut W) -> io::Result<()>
    ensures { Writes (W.contents writer.old) (W.contents writer.new) result line_end }
{
    write_bytes(writer, b"\r\n")
}
