//! Which nodes a host has heard from.
ghost use Rattle.std.specs.Prelude.{◌≡◌};
ghost use Rattle.node_strings.specs.Heard.{are_node_numbers, has_heard, is_node_number, names_node, tells_nodes};

use crate::parts::number_of;
use bytes::Bytes;
use frames::Frame;

/// The nodes from which a host has heard within the last seconds. The host tells this at each tick.
#[derive(Debug, Drop)]
pub struct Heard {
    /// The numbers of the nodes, each in decimal digits. If there are none, the host does not tell.
    pub numbers: Frame,
}

impl Heard {
    /// Returns whether the host tells which nodes it has heard from.
    pub fn tells_nodes(&self) -> bool
        ensures { result ≡ tells_nodes self.now }
    {
        !self.numbers.strings().is_empty()
    }

    /// Returns whether the node of this number is among those from which the host has heard.
    pub fn has(&self, node: u8) -> bool
        ensures { result ≡ has_heard self.now node }
    {
        has_number(self.numbers.strings(), node)
    }
}

fn has_number(strings: &[Bytes], node: u8) -> bool
    ensures { result ≡ has_heard (record { numbers = strings.now }) node }
{
    strings.iter().any(|string| names_node(string, node))
}

// Whether a string is the number of this node.
fn names_node(string: &[u8], node: u8) -> bool
    ensures { result ≡ names_node node string.now }
{
    match number_of(string, 255) {
        Some(number) => number == u64::from(node),
        None => false,
    }
}

// Whether a string is the number of a node.
fn is_node_number(string: &[u8]) -> bool
    ensures { result ≡ is_node_number string.now }
{
    number_of(string, 255).is_some()
}

/// Returns whether each of these strings is the number of a node, in decimal digits.
pub(crate) fn are_node_numbers(strings: &[Bytes]) -> bool
    ensures { result ≡ are_node_numbers strings.now }
{
    strings.iter().all(|string| is_node_number(string))
}
