//! A cluster file from its text.
ghost use Rattle.std.specs.Prelude.{◌≡◌, ◌≤◌, [], IfOk, IsTrue, length, map};
ghost use Rattle.cluster_file.specs.File.{AreApart, placement_of};
ghost use Rattle.cluster_file.specs.Placement.{AreLawfulNodes};
ghost use Rattle.cluster_file.specs.Gives.{GivesFile, SeesLines, seen, shown};
ghost use Rattle.cluster_file.specs.Numbers.{number_from, delta_from, is_among};
ghost use Rattle.cluster_file.specs.Reading.{
  setting_at,
  setting_value,
  nodes_at,
  mover_at,
  later_words,
  later_at,
  fixed_at,
  file_at,
  file_of,
  unless_line_left,
};
ghost use Rattle.cluster_file.specs.declared.setting.Setting.TheVariants as setting;

use crate::error::{Fault, FileError, FileFault};
use crate::file::{ClusterFile, Fixed};
use crate::lines::{Line, lines_of};
use crate::nodes::nodes_of;
use crate::number::Range;
use crate::setting::{Setting, behind_fault, due_fault, is_text};
use crate::values::{delta_in, first_value, mover_in, number_in};
use arrayvec::ArrayVec;
use std::alloc::Global;
use tag::MOST_SERVERS;
use words::split_lines;

/// Returns the file that a text writes.
///
/// A `Fault` is the first one from top to bottom and, in a line, from left to right. `NoMemory` if there is no memory
/// for the lists of lines and words.
pub fn read_cluster_file(alloc: Global, text: &[u8]) -> Result<ClusterFile, FileError>
    ensures { GivesFile result (file_of text.now) }
{
    let texts = split_lines(alloc, text)?;
    let lines = lines_of(alloc, &texts)?;
    Ok(file_of(&lines, texts.len() as u64 + 1)?)
}

// The file of these lines, where a setting that is missing behind them is missed on the line `end`.
#[tactic(auto, unfolding(crate::specs::Reading::file_at))]
fn file_of(lines: &[Line<'_>], end: u64) -> Result<ClusterFile, FileFault>
    ensures { result ≡ file_at end (map seen lines.now) }
{
    let (fixed, rest) = fixed_at(lines, end)?;
    let (later, rest) = later_at(&fixed.nodes, rest, end)?;
    let range = Range {
        least: 1,
        most: u32::MAX,
        outside: Fault::OutOfRange,
    };
    let (ticks, rest) = number_at(Setting::Ticks, range, rest, end)?;
    ended(ClusterFile::new(fixed, later, ticks), rest)
}

// The file, unless a line is left.
fn ended(file: ClusterFile, lines: &[Line<'_>]) -> Result<ClusterFile, FileFault>
    ensures { result ≡ unless_line_left (map seen lines.now) file }
{
    match lines {
        [] => Ok(file),
        [line, ..] => Err(FileFault {
            line: line.number,
            word: 1,
            fault: behind_fault(line.name),
        }),
    }
}

// What is fixed.
#[tactic(auto, unfolding(crate::specs::Reading::fixed_at))]
fn fixed_at<'a, 'b>(lines: &'b [Line<'a>], end: u64) -> Result<(Fixed, &'b [Line<'a>]), FileFault>
    ensures placed { IfOk result (λ x. AreLawfulNodes (placement_of (shown x.0))) }
    ensures apart { IfOk result (λ x. AreApart x.0.nodes.items []) }
    ensures mover { IfOk result (λ x. IsTrue (is_among x.0.nodes.items (later_words (map seen x.1.now)) x.0.mover)) }
    ensures exact { SeesLines shown result (fixed_at end (map seen lines.now)) }
{
    let (nodes, rest) = nodes_at(lines, end)?;
    let range = Range {
        least: 1,
        most: nodes.len() as u32,
        outside: Fault::BadN,
    };
    let (n, rest) = number_at(Setting::N, range, rest, end)?;
    let range = Range {
        least: 1,
        most: n,
        outside: Fault::BadK,
    };
    let (k, rest) = number_at(Setting::K, range, rest, end)?;
    let (delta, rest) = delta_at(rest, end)?;
    let (mover, rest) = mover_at(&nodes, rest, end)?;
    let fixed = Fixed {
        nodes,
        n: n as u8,
        k: k as u8,
        delta,
        mover,
    };
    Ok((fixed, rest))
}

// The nodes that placement uses.
#[tactic(auto, unfolding(crate::specs::Reading::nodes_at))]
fn nodes_at<'a, 'b>(
    lines: &'b [Line<'a>],
    end: u64,
) -> Result<(ArrayVec<u8, MOST_SERVERS>, &'b [Line<'a>]), FileFault>
    ensures apart { IfOk result (λ x. AreApart [] x.0.items) }
    ensures exact { SeesLines (λ nodes. nodes.items) result (nodes_at end (map seen lines.now)) }
{
    let (line, rest) = setting_at(Setting::Nodes, lines, end)?;
    first_value(line)?;
    let nodes = nodes_of(&line.values, line.number, &[])?;
    Ok((nodes, rest))
}

// The nodes that joined later.
#[tactic(auto, unfolding(crate::specs::Reading::later_at))]
fn later_at<'a, 'b>(
    others: &[u8],
    lines: &'b [Line<'a>],
    end: u64,
) -> Result<(ArrayVec<u8, MOST_SERVERS>, &'b [Line<'a>]), FileFault>
    requires { AreApart others.now [] }
    ensures apart { IfOk result (λ x. AreApart others.now x.0.items) }
    ensures exact { SeesLines (λ nodes. nodes.items) result (later_at others.now end (map seen lines.now)) }
{
    let (line, rest) = setting_at(Setting::Later, lines, end)?;
    let nodes = nodes_of(&line.values, line.number, others)?;
    Ok((nodes, rest))
}

// The number of the setting that is due.
#[tactic(auto, unfolding(crate::specs::Reading::setting_value))]
fn number_at<'a, 'b>(
    due: Setting,
    range: Range,
    lines: &'b [Line<'a>],
    end: u64,
) -> Result<(u32, &'b [Line<'a>]), FileFault>
    ensures least { IfOk result (λ x. range.least ≤ x.0) }
    ensures most { IfOk result (λ x. x.0 ≤ range.most) }
    ensures exact { SeesLines (λ number. number) result
        (setting_value due (number_from range) end (map seen lines.now)) }
{
    let (line, rest) = setting_at(due, lines, end)?;
    let number = number_in(line, range)?;
    Ok((number, rest))
}

// The bound delta.
#[tactic(auto, unfolding(crate::specs::Reading::setting_value))]
fn delta_at<'a, 'b>(
    lines: &'b [Line<'a>],
    end: u64,
) -> Result<(Option<u32>, &'b [Line<'a>]), FileFault>
    ensures { SeesLines (λ delta. delta) result (setting_value setting.Delta delta_from end (map seen lines.now)) }
{
    let (line, rest) = setting_at(Setting::Delta, lines, end)?;
    let delta = delta_in(line)?;
    Ok((delta, rest))
}

// The node that moves objects.
#[tactic(auto, unfolding(crate::specs::Reading::mover_at))]
fn mover_at<'a, 'b>(
    nodes: &[u8],
    lines: &'b [Line<'a>],
    end: u64,
) -> Result<(u8, &'b [Line<'a>]), FileFault>
    ensures found { IfOk result (λ x. IsTrue (is_among nodes.now (later_words (map seen x.1.now)) x.0)) }
    ensures exact { SeesLines (λ node. node) result (mover_at nodes.now end (map seen lines.now)) }
{
    let (line, rest) = setting_at(Setting::Mover, lines, end)?;
    let mover = mover_in(line, nodes, later_words(rest))?;
    Ok((mover, rest))
}

// The words of the first line, if it has the setting `later`.
fn later_words<'a, 'b>(lines: &'b [Line<'a>]) -> &'b [&'a [u8]]
    ensures { map (λ word. word.now) result.now ≡ later_words (map seen lines.now) }
{
    let [line, ..] = lines else {
        return &[];
    };
    if is_text(line.name, b"later") {
        &line.values
    } else {
        &[]
    }
}

// The line of the setting that is due, and the lines behind it.
#[tactic(auto, unfolding(crate::specs::Reading::setting_at))]
fn setting_at<'a, 'b>(
    due: Setting,
    lines: &'b [Line<'a>],
    end: u64,
) -> Result<(&'b Line<'a>, &'b [Line<'a>]), FileFault>
    ensures { SeesLines (λ line. seen line.now) result (setting_at due end (map seen lines.now)) }
{
    let [line, rest @ ..] = lines else {
        return Err(FileFault {
            line: end,
            word: 1,
            fault: Fault::SettingMissing(due),
        });
    };
    match due_fault(due, line.name) {
        None => Ok((line, rest)),
        Some(fault) => Err(FileFault {
            line: line.number,
            word: 1,
            fault,
        }),
    }
}
