//! Answers to strings of a frame.
ghost use Rattle.std.specs.Prelude.{◌≡◌, ◌++◌, ◌∷◌, [], IfOk, OnOk, OnErr, length};
ghost use Rattle.std.specs.List.{concat, flat_map};
ghost use Rattle.frames.specs.Frame.{header, string_bytes};
ghost use Rattle.client_commands.specs.Texts.{error_code, error_text};
ghost use Rattle.client_commands.specs.Answers.{sent_bytes, sent_strings, error_line, greeting, page_bytes};

use crate::answer::{Answer, AnswerError};
use bytes::Bytes;
use std::alloc::{AllocError, Global};

/// Appends the strings of an answer to those of a frame. The host writes the bytes of the strings to the connection,
/// one after another. A value is a string of its own, and no byte of it is copied.
///
/// If there is no memory, the strings are as they were.
pub fn push_answer(
    alloc: Global,
    strings: &mut Vec<Bytes>,
    answer: Answer,
) -> Result<(), AllocError>
    // Which bytes are appended.
    ensures bytes { OnOk result (concat strings.new.items ≡ concat strings.old.items ++ sent_bytes answer) }
    // In which strings.
    ensures pushed { OnOk result (strings.new.items ≡ strings.old.items ++ sent_strings answer) }
    ensures kept { OnErr result (strings.new.items ≡ strings.old.items) }
{
    push_strings(alloc, strings, answer)
}

// Does what `push_answer` does, and promises all its clauses but `bytes`. That clause follows from the others.
fn push_strings(alloc: Global, strings: &mut Vec<Bytes>, answer: Answer) -> Result<(), AllocError>
    ensures pushed { OnOk result (strings.new.items ≡ strings.old.items ++ sent_strings answer) }
    ensures kept { OnErr result (strings.new.items ≡ strings.old.items) }
{
    match answer {
        Answer::Ok => push_string(strings, Bytes::from_static(b"+OK\r\n")),
        Answer::Pong => push_string(strings, Bytes::from_static(b"+PONG\r\n")),
        Answer::Value(value) => push_value(strings, length_line(alloc, value.len())?, value),
        Answer::Nil => push_string(strings, Bytes::from_static(b"$-1\r\n")),
        Answer::Number(number) => push_string(strings, number_line(alloc, number)?),
        Answer::NoCommands => push_string(strings, Bytes::from_static(b"*0\r\n")),
        Answer::Page { next, names } => push_string(strings, page(alloc, next, &names)?),
        Answer::Greeting(id) => push_string(strings, greeting(alloc, id)?),
        Answer::Error(error) => push_string(strings, error_line(alloc, error)?),
    }
}

fn push_string(strings: &mut Vec<Bytes>, string: Bytes) -> Result<(), AllocError>
    ensures pushed { OnOk result (strings.new.items ≡ strings.old.items ++ string ∷ []) }
    ensures kept { OnErr result (strings.new.items ≡ strings.old.items) }
{
    strings.push(string)?;
    Ok(())
}

// The line with its length, a value, and CR LF.
fn push_value(strings: &mut Vec<Bytes>, line: Bytes, value: Bytes) -> Result<(), AllocError>
    ensures pushed { OnOk result (strings.new.items ≡ strings.old.items ++ line ∷ value ∷ (13 ∷ 10 ∷ []) ∷ []) }
    ensures kept { OnErr result (strings.new.items ≡ strings.old.items) }
{
    strings.reserve(3)?;
    strings.push_reserved(line);
    strings.push_reserved(value);
    strings.push_reserved(Bytes::from_static(b"\r\n"));
    Ok(())
}

// The line before a value of this length.
fn length_line(alloc: Global, len: usize) -> Result<Bytes, AllocError>
    ensures { IfOk result (λ line. line ≡ header 36 len) }
{
    Bytes::from_string(format!(in alloc; "${len}\r\n")?)
}

// The line of a number.
fn number_line(alloc: Global, number: u64) -> Result<Bytes, AllocError>
    ensures { IfOk result (λ line. line ≡ header 58 number) }
{
    Bytes::from_string(format!(in alloc; ":{number}\r\n")?)
}

// The next cursor and the names that a `SCAN` is answered.
fn page(alloc: Global, next: u64, names: &[Bytes]) -> Result<Bytes, AllocError>
    ensures { IfOk result (λ bytes. bytes ≡ page_bytes next names.now) }
{
    let digits = format!(in alloc; "{next}")?;
    let mut bytes = Vec::new(alloc);
    bytes.extend_from_slice(b"*2\r\n")?;
    append_string(alloc, &mut bytes, digits.as_bytes())?;
    append_header(alloc, &mut bytes, b'*', names.len())?;
    append_strings(alloc, &mut bytes, names)?;
    Ok(Bytes::from_vec(bytes)?)
}

// Appends each of these strings, with the line of its length.
fn append_strings(alloc: Global, bytes: &mut Vec<u8>, strings: &[Bytes]) -> Result<(), AllocError>
    ensures { OnOk result (bytes.new.items ≡ bytes.old.items ++ flat_map string_bytes strings.now) }
{
    for string in strings {
        append_string(alloc, bytes, string)?;
    }
    Ok(())
}

// Appends the line of this number behind a type byte.
fn append_header(
    alloc: Global,
    bytes: &mut Vec<u8>,
    mark: u8,
    number: usize,
) -> Result<(), AllocError>
    ensures { OnOk result (bytes.new.items ≡ bytes.old.items ++ header mark number) }
{
    bytes.push(mark)?;
    let line = format!(in alloc; "{number}\r\n")?;
    bytes.extend_from_slice(line.as_bytes())
}

// Appends the line with the length of a string, the string, and CR LF.
fn append_string(alloc: Global, bytes: &mut Vec<u8>, string: &[u8]) -> Result<(), AllocError>
    ensures { OnOk result (bytes.new.items ≡ bytes.old.items ++ string_bytes string.now) }
{
    append_header(alloc, bytes, b'$', string.len())?;
    bytes.extend_from_slice(string)?;
    bytes.extend_from_slice(b"\r\n")
}

// What a `HELLO` on the connection of this number is answered.
fn greeting(alloc: Global, id: u64) -> Result<Bytes, AllocError>
    ensures { IfOk result (λ bytes. bytes ≡ greeting id) }
{
    Bytes::from_string(format!(in alloc;
        "*14\r\n$6\r\nserver\r\n$4\r\ncasd\r\n$7\r\nversion\r\n$5\r\n1.0.0\r\n$5\r\nproto\r\n:2\r\n$2\r\nid\r\n:\
        {id}\r\n$4\r\nmode\r\n$10\r\nstandalone\r\n$4\r\nrole\r\n$6\r\nmaster\r\n$7\r\nmodules\r\n*0\r\n"
    )?)
}

// The line of an error.
fn error_line(alloc: Global, error: AnswerError) -> Result<Bytes, AllocError>
    ensures { IfOk result (λ line. line ≡ error_line (error_code error) (error_text error)) }
{
    let code = error.code();
    Bytes::from_string(format!(in alloc; "-{code} {error}\r\n")?)
}
