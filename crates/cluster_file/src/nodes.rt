//! Lists of nodes.
ghost use Rattle.std.specs.Prelude.{◌≡◌, ◌<◌, ◌+◌, [], IfOk, length, map, false};
ghost use Rattle.layout.specs.Quorum.{has};
ghost use Rattle.tag.specs.declared.limits.TheConstants.{MOST_SERVERS};
ghost use Rattle.cluster_file.specs.File.{AreApart};
ghost use Rattle.words.specs.Parts.{Sees};
ghost use Rattle.cluster_file.specs.Numbers.{number_from, node_from, of_a_byte};
ghost use Rattle.cluster_file.specs.Reading.{placed_at, nodes_from};

use crate::error::{Fault, FileFault};
use crate::number::{Range, number_of};
use arrayvec::ArrayVec;
use tag::MOST_SERVERS;

/// Returns the nodes that these words write, where the words follow the first one of a line. None of them is among the
/// others.
pub(crate) fn nodes_of(
    words: &[&[u8]],
    line: u64,
    others: &[u8],
) -> Result<ArrayVec<u8, MOST_SERVERS>, FileFault>
    requires { AreApart others.now [] }
    ensures apart { IfOk result (λ nodes. AreApart others.now nodes.items) }
    ensures exact { Sees (λ nodes. nodes.items) result
        (nodes_from others.now [] line (map (λ word. word.now) words.now)) }
{
    let mut nodes = ArrayVec::new();
    for word in words {
        let node = next_node(word, line, others, &nodes)?;
        nodes.push(node);
    }
    Ok(nodes)
}

// The node behind those that are listed from a line so far.
fn next_node(word: &[u8], line: u64, others: &[u8], listed: &[u8]) -> Result<u8, FileFault>
    ensures new { IfOk result (λ node. has others.now node ≡ false) }
    ensures unlisted { IfOk result (λ node. has listed.now node ≡ false) }
    ensures room { IfOk result (λ node. length others.now + length listed.now < MOST_SERVERS) }
    ensures exact { result ≡ placed_at line (length listed.now + 2) (node_from others.now listed.now word.now) }
{
    match node_of(word, others, listed) {
        Ok(node) => Ok(node),
        Err(fault) => Err(FileFault {
            line,
            word: listed.len() as u64 + 2,
            fault,
        }),
    }
}

/// Returns whether the node is in the list.
pub(crate) fn has(nodes: &[u8], node: u8) -> bool
    ensures { result ≡ has nodes.now node }
{
    nodes.iter().any(|other| *other == node)
}

/// Returns the number of a byte that a word writes.
pub(crate) fn byte_of(word: &[u8]) -> Result<u8, Fault>
    ensures { result ≡ number_from of_a_byte word.now }
{
    let range = Range {
        least: 0,
        most: u32::from(u8::MAX),
        outside: Fault::OutOfRange,
    };
    Ok(number_of(word, range)? as u8)
}

// The node that a word writes, which is in neither list, where there is room for one more.
#[tactic(auto, unfolding(crate::specs::Numbers::node_from))]
fn node_of(word: &[u8], others: &[u8], listed: &[u8]) -> Result<u8, Fault>
    ensures new { IfOk result (λ node. has others.now node ≡ false) }
    ensures unlisted { IfOk result (λ node. has listed.now node ≡ false) }
    ensures room { IfOk result (λ node. length others.now + length listed.now < MOST_SERVERS) }
    ensures exact { result ≡ node_from others.now listed.now word.now }
{
    let node = byte_of(word)?;
    if has(others, node) || has(listed, node) {
        return Err(Fault::NodeTwice);
    }
    if others.len() + listed.len() >= MOST_SERVERS {
        return Err(Fault::TooManyNodes);
    }
    Ok(node)
}
