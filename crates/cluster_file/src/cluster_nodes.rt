ghost use Rattle.std.specs.Prelude.{◌≡◌, ◌≤◌, ◌↔◌, map, take, length, IsOk, IfOk, IfErr};
ghost use Rattle.tag.specs.declared.refusal.Refusal.TheVariants.{BadLayout};
ghost use Rattle.tag.specs.declared.limits.TheConstants.{MOST_MEMBERS};
ghost use Rattle.cluster_file.specs.Placement.{AreLawfulNodes, placed, in_order};

use crate::scored::{Scored, ranked};
use arrayvec::ArrayVec;
use layout::Layout;
use std::marker::Model;
use tag::{MOST_MEMBERS, Refusal};

/// The nodes of a cluster, with the `k` and the `n` of the layouts that names have before any move. All nodes of a
/// cluster use the same ones from the first start on; nodes that join later are not among them.
#[derive(Debug)]
pub struct ClusterNodes {
    k: u8,
    n: u8,
    nodes: ArrayVec<u8, MOST_MEMBERS>,
}

impl Drop for ClusterNodes {
    fn drop(self) {
        let Self {
            k: _,
            n: _,
            nodes: _,
        } = self;
    }
}

impl Model for ClusterNodes {
    ghost use Rattle.cluster_file.specs.Placement.{ClusterNodes as Nodes, AreLawfulNodes};

    ghost Value = { Nodes };

    ghost view = { λ c. record { k = c.k; n = c.n; nodes = c.nodes.items } };

    ghost invariant = { λ c. AreLawfulNodes (record { k = c.k; n = c.n; nodes = c.nodes.items }) };

    ghost inverse = { λ c. record { k = c.k; n = c.n; nodes = record { items = c.nodes } } };
}

impl ClusterNodes {
    /// Makes a list of the nodes with these numbers. The layout of a name has `n` of them as members, and any `k`
    /// fragments give a value back.
    ///
    /// Is refused with `BadLayout` unless `1 <= k <= n`, there are at least `n` nodes and at most `MOST_MEMBERS`, and
    /// no node is named twice.
    pub fn new(k: u8, n: u8, nodes: &[u8]) -> Result<ClusterNodes, Refusal>
        ensures made { IfOk result (λ c. c ≡ record { k = k; n = n; nodes = nodes.now }) }
        ensures lawful { IsOk result ↔ AreLawfulNodes (record { k = k; n = n; nodes = nodes.now }) }
        ensures refused { IfErr result (λ r. r ≡ BadLayout) }
    {
        // A layout with all nodes has the same rules for n, for the number of nodes and for their numbers.
        let _all = Layout::new(n, nodes)?;
        if k == 0 || n < k {
            return Err(Refusal::BadLayout);
        }
        let Ok(listed) = ArrayVec::try_from(nodes) else {
            return Err(Refusal::BadLayout);
        };
        Ok(ClusterNodes {
            k,
            n,
            nodes: listed,
        })
    }

    /// The layout of a name: its members are the `n` nodes with the greatest scores for the name, the greatest first;
    /// if scores are equal, the smaller number comes first. This is rendezvous hashing (Thaler and Ravishankar, 1998).
    /// A score is the first eight bytes, high byte first, of the SHA-256 digest of the node's number, as one byte,
    /// followed by the name's bytes.
    ///
    /// Any bytes are a name. It allocates no memory and is never refused.
    pub fn place(&self, name: &[u8]) -> Layout
        ensures { result ≡ placed self.now name.now }
    {
        let members = first_of(&self.nodes, name, self.n);
        match Layout::new(self.k, &members) {
            Ok(layout) => layout,
            Err(_) => unreachable!(),
        }
    }
}

// The first n of the nodes in their order for the name.
fn first_of(nodes: &[u8], name: &[u8], n: u8) -> ArrayVec<u8, MOST_MEMBERS>
    requires available { n ≤ length nodes.now }
    requires few { length nodes.now ≤ MOST_MEMBERS }
    ensures { result.items ≡ take n (in_order name.now nodes.now) }
{
    let ranked = ranked(nodes, name);
    numbers_of(&ranked[..usize::from(n)])
}

// The numbers of these nodes.
fn numbers_of(scored: &[Scored]) -> ArrayVec<u8, MOST_MEMBERS>
    requires { length scored.now ≤ MOST_MEMBERS }
    ensures { result.items ≡ map (λ s. s.node) scored.now }
{
    let mut numbers = ArrayVec::new();
    for entry in scored {
        numbers.push(entry.node);
    }
    numbers
}
