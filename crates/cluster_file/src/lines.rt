//! The lines of a text, and their words.
ghost use Rattle.std.specs.Prelude.{◌≡◌, ◌==◌, ◌++◌, [], IfOk, map, position, option_map};
ghost use Rattle.cluster_file.specs.Lines.{
  is_blank,
  without_comment,
  words_between_blanks,
  words_before_comment,
  line_from,
  with_line,
  lines_from,
};
ghost use Rattle.cluster_file.specs.Gives.{seen};

use std::alloc::{AllocError, Global};

/// A line that has a word: the first one, and the others.
#[derive(Drop)]
pub(crate) struct Line<'a> {
    /// The number of the line, from 1.
    pub number: u64,
    pub name: &'a [u8],
    pub values: Vec<&'a [u8]>,
}

/// Returns the lines that have a word among these texts, of which the first one is line 1.
pub(crate) fn lines_of<'a>(alloc: Global, texts: &[&'a [u8]]) -> Result<Vec<Line<'a>>, AllocError>
    ensures { IfOk result (λ lines. map seen lines.items ≡ lines_from 1 (map (λ text. text.now) texts.now)) }
{
    let mut lines = Vec::new(alloc);
    for index in 0..texts.len() {
        let line = line_of(alloc, index as u64 + 1, texts[index])?;
        push_line(&mut lines, line)?;
    }
    Ok(lines)
}

// Puts the line behind the others, if there is one.
fn push_line<'a>(lines: &mut Vec<Line<'a>>, line: Option<Line<'a>>) -> Result<(), AllocError>
    ensures { IfOk result (λ _. map seen lines.new.items
        ≡ map seen lines.old.items ++ with_line (option_map seen line.entry) []) }
{
    if let Some(line) = line {
        lines.push(line)?;
    }
    Ok(())
}

// The line of this text, or none where the text has no word.
fn line_of(alloc: Global, number: u64, text: &[u8]) -> Result<Option<Line<'_>>, AllocError>
    ensures { IfOk result (λ line. option_map seen line ≡ line_from number (words_before_comment text.now)) }
{
    let mut values = words_between_blanks(alloc, without_comment(text))?;
    if values.is_empty() {
        return Ok(None);
    }
    let name = values.remove(0);
    Ok(Some(Line {
        number,
        name,
        values,
    }))
}

// The words of a text without a comment.
fn words_between_blanks(alloc: Global, text: &[u8]) -> Result<Vec<&[u8]>, AllocError>
    ensures { IfOk result (λ words. map (λ w. w.now) words.items ≡ words_between_blanks text.now) }
{
    text.split(|byte| is_blank(*byte))
        .filter(|word| !word.is_empty())
        .collect(alloc)
}

fn is_blank(byte: u8) -> bool
    ensures { result ≡ is_blank byte }
{
    byte == b' ' || byte == b'\t'
}

// What stands before the first `#`, or all.
fn without_comment(text: &[u8]) -> &[u8]
    ensures { result.now ≡ without_comment text.now }
{
    match comment_of(text) {
        Some(place) => &text[..place],
        None => text,
    }
}

// The place of the first `#`.
fn comment_of(text: &[u8]) -> Option<usize>
    ensures { result ≡ position (λ b. b == 35) text.now }
{
    text.iter().position(|byte| *byte == b'#')
}
