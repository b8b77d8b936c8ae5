//! What all nodes of a cluster agree on.
ghost use Rattle.std.specs.Prelude.{◌≡◌, ◌≤◌, ◌++◌, ◌||◌, [], IsTrue, length};
ghost use Rattle.layout.specs.Quorum.{has};
ghost use Rattle.cluster_file.specs.File.{AreApart, IsLawfulFile, placement_of};
ghost use Rattle.cluster_file.specs.Placement.{AreLawfulNodes};
ghost use Rattle.cluster_file.specs.Digest.{fixed_digest};
ghost use Rattle.cluster_file.specs.Gives.{shown};

use crate::ClusterNodes;
use crate::digest::fixed_digest;
use crate::nodes::has;
use arrayvec::ArrayVec;
use std::marker::Model;
use tag::MOST_SERVERS;

/// The length of a file's digest, in bytes.
pub const DIGEST_LENGTH: usize = 16;

// What is fixed when the cluster is first started.
#[derive(Debug)]
pub(crate) struct Fixed {
    pub nodes: ArrayVec<u8, MOST_SERVERS>,
    pub n: u8,
    pub k: u8,
    pub delta: Option<u32>,
    pub mover: u8,
}

impl Drop for Fixed {
    fn drop(self) {
        let Self {
            nodes: _,
            n: _,
            k: _,
            delta: _,
            mover: _,
        } = self;
    }
}

/// What all nodes of a cluster agree on: the settings that are fixed when the cluster is first started, the nodes that
/// joined later, and how long calls wait.
#[derive(Debug)]
pub struct ClusterFile {
    fixed: Fixed,
    later: ArrayVec<u8, MOST_SERVERS>,
    ticks: u32,
}

impl Drop for ClusterFile {
    fn drop(self) {
        let Self {
            fixed: _,
            later: _,
            ticks: _,
        } = self;
    }
}

impl Model for ClusterFile {
    ghost use Rattle.cluster_file.specs.File.{FileContents as File, IsLawfulFile};
    ghost use Rattle.cluster_file.specs.Gives.{shown};

    ghost Value = { File };

    ghost view = { λ c. record { fixed = shown c.fixed; later = c.later.items; ticks = c.ticks } };

    ghost invariant = { λ c. IsLawfulFile (record { fixed = shown c.fixed; later = c.later.items; ticks = c.ticks }) };
}

impl ClusterFile {
    // The file of these parts.
    pub(crate) fn new(fixed: Fixed, later: ArrayVec<u8, MOST_SERVERS>, ticks: u32) -> ClusterFile
        requires placed { AreLawfulNodes (placement_of (shown fixed)) }
        requires later { AreApart fixed.nodes.items later.items }
        requires mover { IsTrue (has fixed.nodes.items fixed.mover || has later.items fixed.mover) }
        requires ticks { 1 ≤ ticks }
        ensures { result ≡ record { fixed = shown fixed; later = later.items; ticks = ticks } }
    {
        ClusterFile {
            fixed,
            later,
            ticks,
        }
    }

    /// The nodes among which placement chooses, in order.
    pub fn nodes(&self) -> &[u8]
        ensures nodes { result.now ≡ self.now.fixed.nodes }
        ensures lawful { IsLawfulFile self.now }
    {
        &self.fixed.nodes
    }

    /// Returns the number of members of the layout that a name has before any move: from 1 to the number of nodes.
    pub fn n(&self) -> u8
        ensures { result ≡ self.now.fixed.n }
    {
        self.fixed.n
    }

    /// Returns the number of fragments that give a value back, from 1 to n, in the layout that a name has before any
    /// move.
    pub fn k(&self) -> u8
        ensures { result ≡ self.now.fixed.k }
    {
        self.fixed.k
    }

    /// The bound delta of each bank, or none if banks keep all pieces.
    pub fn delta(&self) -> Option<u32>
        ensures { result ≡ self.now.fixed.delta }
    {
        self.fixed.delta
    }

    /// The node that moves objects. It is one of those among which placement chooses, or one that joined later.
    pub fn mover(&self) -> u8
        ensures { result ≡ self.now.fixed.mover }
    {
        self.fixed.mover
    }

    /// Returns the nodes that joined later, in order.
    pub fn later(&self) -> &[u8]
        ensures { result.now ≡ self.now.later }
    {
        &self.later
    }

    /// Whether this is the number of a node, including those that joined later.
    pub fn has_node(&self, number: u8) -> bool
        ensures { result ≡ (has self.now.fixed.nodes number || has self.now.later number) }
    {
        has(&self.fixed.nodes, number) || has(&self.later, number)
    }

    /// Returns the number of ticks after which a call without an answer is given up, from 1.
    pub fn ticks(&self) -> u32
        ensures { result ≡ self.now.ticks }
    {
        self.ticks
    }

    /// The nodes, n and k, from which placement computes the layout of each name. It allocates no memory and is never
    /// refused.
    pub fn placement(&self) -> ClusterNodes
        ensures { result ≡ placement_of self.now.fixed }
    {
        match ClusterNodes::new(self.fixed.k, self.fixed.n, &self.fixed.nodes) {
            Ok(nodes) => nodes,
            Err(_) => unreachable!(),
        }
    }

    /// A digest of the settings that may not change: the first 16 bytes of a SHA-256 digest. Later nodes and ticks do
    /// not change it.
    pub fn digest(&self) -> [u8; DIGEST_LENGTH]
        ensures { result ≡ fixed_digest self.now.fixed }
    {
        fixed_digest(&self.fixed)
    }
}
