//! A line of a script, and its words.
ghost use Rattle.std.specs.Prelude.{◌≡◌, ◌↔◌, IfOk, IsTrue, find, map, not};
ghost use Rattle.script.specs.Command.{ParsesToCommand};
ghost use Rattle.script.specs.Line.{IsReadingOfLine, IsSkipped, is_space, words_of};

use crate::command::{Command, parse_command};
use crate::error::LineError;
use std::alloc::{AllocError, Global};

/// What a line says.
#[derive(Drop)]
pub enum Line<'a> {
    /// The line has no word, or its first word begins with `#`.
    Skipped,
    /// The command that the line's words spell.
    Command(Command<'a>),
}

/// Returns what a line says. The line is given without its end. Only spaces separate words. A skipped line may have any
/// bytes and needs no memory.
///
/// Any other line fails with `Bad` if it has a byte above 0x7f or its words spell no command, and with `NoMemory` if
/// memory is refused for its words or for the lists of the command.
pub fn parse_line(alloc: Global, line: &[u8]) -> Result<Line<'_>, LineError>
    ensures { IsReadingOfLine line.now result }
{
    if is_skipped(line) {
        return Ok(Line::Skipped);
    }
    if !line.is_ascii() {
        return Err(LineError::Bad);
    }
    let Ok(text) = str::from_utf8(line) else {
        unreachable!();
    };
    Ok(Line::Command(parse_text(alloc, text)?))
}

fn parse_text(alloc: Global, text: &str) -> Result<Command<'_>, LineError>
    ensures { ParsesToCommand (words_of text.now) result }
{
    let words = split_words(alloc, text)?;
    parse_command(alloc, words.as_slice())
}

fn is_skipped(line: &[u8]) -> bool
    ensures { IsTrue result ↔ IsSkipped (words_of line.now) }
{
    match first_of_words(line) {
        Some(first) => first == b'#',
        None => true,
    }
}

/// Returns the first byte of the first word; none if the line has no word.
fn first_of_words(line: &[u8]) -> Option<u8>
    ensures { result ≡ find (λ b. not (is_space b)) line.now }
{
    line.iter().copied().find(|byte| *byte != b' ')
}

fn split_words(alloc: Global, text: &str) -> Result<Vec<&str>, AllocError>
    ensures { IfOk result (λ words. map (λ w. w.now) words.items ≡ words_of text.now) }
{
    text.split(' ')
        .filter(|word| !word.is_empty())
        .collect(alloc)
}
