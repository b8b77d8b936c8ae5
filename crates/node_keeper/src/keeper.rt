//! What a node keeps.
ghost use Rattle.std.specs.Prelude.{◌≡◌, ◌==◌};
ghost use Rattle.deeds.specs.CallId.{HasRanges};
ghost use Rattle.cluster_file.specs.Digest.{fixed_digest};
ghost use Rattle.deeds.specs.Kept.{new_node};
ghost use Rattle.node_keeper.specs.Keeping.{kept_of, names_of};

use crate::Objects;
use crate::ids::OwnIds;
use cluster_file::{ClusterFile, DIGEST_LENGTH};
use std::alloc::Global;

mod arrivals;
mod asking;
mod begin;
mod closing;
mod letters;
mod passing;
mod recovery;
mod rewriting;
mod send;
mod taking;
mod weighing;

/// What a node keeps: its cluster file with its digest, its objects, and the source of its calls' ids.
///
/// If a function fails, its contract says nothing about what the node keeps, because the node stops and starts again
/// from its log.
pub struct Keeper {
    alloc: Global,
    pub file: ClusterFile,
    pub digest: [u8; DIGEST_LENGTH],
    pub ids: OwnIds,
    pub objects: Objects,
}

impl Drop for Keeper {
    fn drop(self) {
        let Self {
            alloc: _,
            file: _,
            digest: _,
            ids: _,
            objects: _,
        } = self;
    }
}

impl Keeper {
    /// Makes what the node with this number keeps before it has heard of any object, and before its first epoch.
    pub fn new(alloc: Global, file: ClusterFile, number: u8) -> Keeper
        ensures kept { kept_of result ≡ new_node (names_of file) number }
        ensures file { result.file ≡ file }
        ensures digest { result.digest ≡ fixed_digest file.fixed }
    {
        let objects = Objects::new(alloc, number, file.delta(), file.placement());
        let digest = file.digest();
        Keeper {
            alloc,
            file,
            digest,
            ids: OwnIds::new(number),
            objects,
        }
    }

    /// Returns the number of the node.
    pub fn number(&self) -> u8
        ensures number { result ≡ self.now.ids.node }
        ensures within { HasRanges self.now.ids }
    {
        self.ids.number()
    }

    /// Returns whether this node is the one that moves objects.
    pub fn is_mover(&self) -> bool
        ensures { result ≡ (self.now.ids.node == self.now.file.fixed.mover) }
    {
        self.ids.number() == self.file.mover()
    }
}
