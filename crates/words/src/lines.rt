//! The lines of a text.
ghost use Rattle.std.specs.Prelude.{◌≡◌, ◌==◌, ◌<◌, ◌∷◌, [], if◌then◌else◌, IfNone, IfOk, IfSome, length, map};
ghost use Rattle.std.specs.Prelude.{position};
ghost use Rattle.std.specs.Str.Lines.{lines, strip_carriage_return};

use std::alloc::{AllocError, Global};

/// Returns the lines of a text, without their ends: line n, counted from 1, is at index n - 1. A line ends with a line
/// feed, with or without a carriage return before it. The last line may lack its end, and a carriage return then
/// belongs to the line. The error comes only if memory is refused for the list of lines.
pub fn split_lines(alloc: Global, text: &[u8]) -> Result<Vec<&[u8]>, AllocError>
    ensures { IfOk result (λ all. map (λ l. l.now) all.items ≡ lines text.now) }
{
    let mut lines = Vec::new(alloc);
    let mut rest = text;
    while let Some((line, more)) = first_line(rest) {
        lines.push(line)?;
        rest = more;
    }
    if !rest.is_empty() {
        lines.push(rest)?;
    }
    Ok(lines)
}

/// Returns the first line, and what follows it; none if no line has an end.
fn first_line(text: &[u8]) -> Option<(&[u8], &[u8])>
    ensures shorter { IfSome result (λ p. length p.1.now < length text.now) }
    ensures cut { IfSome result (λ p. lines text.now ≡ p.0.now ∷ lines p.1.now) }
    ensures last { IfNone result (lines text.now
        ≡ (if length text.now == 0 then [] else text.now ∷ [])) }
{
    let end = line_feed(text)?;
    Some((without_carriage_return(&text[..end]), &text[end + 1..]))
}

fn line_feed(text: &[u8]) -> Option<usize>
    ensures { result ≡ position (λ b. b == 10) text.now }
{
    text.iter().position(|byte| *byte == b'\n')
}

fn without_carriage_return(line: &[u8]) -> &[u8]
    ensures { result.now ≡ strip_carriage_return line.now }
{
    match line.split_last() {
        Some((b'\r', front)) => front,
        _ => line,
    }
}
