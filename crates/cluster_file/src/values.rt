//! The values of one line.
ghost use Rattle.std.specs.Prelude.{◌≡◌, map};
ghost use Rattle.std.specs.List.{list_any};
ghost use Rattle.cluster_file.specs.Gives.{seen};
ghost use Rattle.words.specs.Parts.{Sees};
ghost use Rattle.cluster_file.specs.Numbers.{number_from, delta_from, mover_from, is_among, writes_node};
ghost use Rattle.cluster_file.specs.Reading.{placed_at, first_value, without_second, value_of_line};

use crate::error::{Fault, FileFault};
use crate::lines::Line;
use crate::nodes::{byte_of, has};
use crate::number::{Range, number_of};
use crate::setting::is_text;

/// Returns what a word writes, or the fault at its place.
pub(crate) fn placed_at<T>(line: u64, word: u64, found: Result<T, Fault>) -> Result<T, FileFault>
    ensures { result ≡ placed_at line word found }
{
    match found {
        Ok(value) => Ok(value),
        Err(fault) => Err(FileFault { line, word, fault }),
    }
}

/// Returns the first value of a line.
pub(crate) fn first_value<'a>(line: &Line<'a>) -> Result<&'a [u8], FileFault>
    ensures { Sees (λ value. value.now) result
        (first_value line.now.number (map (λ value. value.now) line.now.values.items)) }
{
    match line.values.as_slice() {
        [] => Err(FileFault {
            line: line.number,
            word: 2,
            fault: Fault::ValueMissing,
        }),
        [first, ..] => Ok(*first),
    }
}

// This value, unless the line has a second one.
fn without_second<T: Drop>(line: &Line<'_>, value: T) -> Result<T, FileFault>
    ensures { result ≡ without_second line.now.number (map (λ value. value.now) line.now.values.items) value }
{
    match line.values.as_slice() {
        [] => Ok(value),
        [_] => Ok(value),
        [_, _, ..] => Err(FileFault {
            line: line.number,
            word: 3,
            fault: Fault::WordBehind,
        }),
    }
}

/// Returns the one value of a line, a number in this range.
#[tactic(auto, unfolding(crate::specs::Reading::value_of_line))]
pub(crate) fn number_in(line: &Line<'_>, range: Range) -> Result<u32, FileFault>
    ensures { result ≡ value_of_line (number_from range) (seen line.now) }
{
    let word = first_value(line)?;
    let number = placed_at(line.number, 2, number_of(word, range))?;
    without_second(line, number)
}

/// Returns the one value of a line, a bound delta or `none`.
#[tactic(auto, unfolding(crate::specs::Reading::value_of_line))]
pub(crate) fn delta_in(line: &Line<'_>) -> Result<Option<u32>, FileFault>
    ensures { result ≡ value_of_line delta_from (seen line.now) }
{
    let word = first_value(line)?;
    let delta = placed_at(line.number, 2, delta_of(word))?;
    without_second(line, delta)
}

/// Returns the one value of a line, one of these nodes or one that these words write.
#[tactic(auto, unfolding(crate::specs::Reading::value_of_line))]
pub(crate) fn mover_in(line: &Line<'_>, nodes: &[u8], later: &[&[u8]]) -> Result<u8, FileFault>
    ensures { result ≡ value_of_line (mover_from nodes.now (map (λ word. word.now) later.now)) (seen line.now) }
{
    let word = first_value(line)?;
    let mover = placed_at(line.number, 2, mover_of(word, nodes, later))?;
    without_second(line, mover)
}

// The bound delta that a word writes.
#[tactic(auto, unfolding(crate::specs::Numbers::delta_from))]
fn delta_of(word: &[u8]) -> Result<Option<u32>, Fault>
    ensures { result ≡ delta_from word.now }
{
    if is_text(word, b"none") {
        return Ok(None);
    }
    let range = Range {
        least: 0,
        most: u32::MAX,
        outside: Fault::OutOfRange,
    };
    Ok(Some(number_of(word, range)?))
}

// The node that a word writes, which is one of these, or which one of these words writes.
#[tactic(auto, unfolding(crate::specs::Numbers::mover_from))]
fn mover_of(word: &[u8], nodes: &[u8], later: &[&[u8]]) -> Result<u8, Fault>
    ensures { result ≡ mover_from nodes.now (map (λ word. word.now) later.now) word.now }
{
    let node = byte_of(word)?;
    if !is_among(node, nodes, later) {
        return Err(Fault::NoNode);
    }
    Ok(node)
}

// Whether the node is one of these, or one of these words writes it.
fn is_among(node: u8, nodes: &[u8], later: &[&[u8]]) -> bool
    ensures { result ≡ is_among nodes.now (map (λ word. word.now) later.now) node }
{
    has(nodes, node) || are_writing(later, node)
}

// Whether one of these words writes this node.
fn are_writing(words: &[&[u8]], node: u8) -> bool
    ensures { result ≡ list_any (λ word. writes_node node word.now) words.now }
{
    words.iter().any(|word| is_writing(word, node))
}

// Whether the word writes this node.
fn is_writing(word: &[u8], node: u8) -> bool
    ensures { result ≡ writes_node node word.now }
{
    match byte_of(word) {
        Ok(found) => found == node,
        Err(_) => false,
    }
}
