//! The layouts that names have before any move.
ghost use Rattle.std.specs.Prelude.{◌≡◌, IfErr};
ghost use Rattle.tag.specs.declared.refusal.Refusal.TheVariants.{NoMemory};
ghost use Rattle.cluster_file.specs.Placement.{placed};

use bytes::Bytes;
use cluster_file::ClusterNodes;
use indexmap::IndexMap;
use layout::Layout;
use std::alloc::Global;
use std::marker::Model;
use tag::Refusal;

// How many layouts are remembered, and how many bytes the name of such a layout has at most.
const MOST_NAMES: usize = 256;

const LONGEST_NAME: usize = 256;

/// The layouts that names have before any move. Such a layout is a hash of the name, which takes longer than all else
/// that a node does with a letter, and the letters of a call are about one name. So some layouts that were computed are
/// remembered.
pub(crate) struct Placing {
    nodes: ClusterNodes,
    // The layouts of some names.
    recent: IndexMap<Bytes, Layout>,
}

impl Drop for Placing {
    fn drop(self) {
        let Self {
            nodes: _,
            recent: _,
        } = self;
    }
}

impl Model for Placing {
    ghost use Rattle.cluster_file.specs.Placement.{ClusterNodes as Nodes};
    ghost use Rattle.node_keeper.specs.Placing.{ArePlaced};

    ghost Value = { Nodes };

    ghost view = { λ p. p.nodes };

    ghost invariant = { λ p. ArePlaced p.nodes p.recent };
}

impl Placing {
    /// Makes the layouts that these nodes give names. None is remembered yet, and it allocates no memory.
    pub(crate) fn new(alloc: Global, nodes: ClusterNodes) -> Placing
        ensures { result ≡ nodes }
    {
        Placing {
            nodes,
            recent: IndexMap::new(alloc),
        }
    }

    /// Returns the layout of a name. It allocates no memory.
    pub(crate) fn place(&self, name: &Bytes) -> Layout
        ensures { result ≡ placed self.now name.now }
    {
        match self.recent.get(name) {
            Some(layout) => copy_of(layout),
            None => self.nodes.place(name.as_slice()),
        }
    }

    /// Remembers the layout of a name, unless the name is long. Where many are remembered, they are forgotten first.
    ///
    /// `NoMemory` is the only refusal.
    pub(crate) fn remember(&mut self, name: &Bytes) -> Result<(), Refusal>
        ensures same { self.new ≡ self.old }
        ensures refused { IfErr result (λ e. e ≡ NoMemory) }
    {
        if name.len() > LONGEST_NAME || self.recent.contains_key(name) {
            return Ok(());
        }
        if self.recent.len() >= MOST_NAMES {
            self.recent.clear();
        }
        let layout = self.nodes.place(name.as_slice());
        self.recent.insert(name.clone()?, layout)?;
        Ok(())
    }
}

// The same layout.
fn copy_of(layout: &Layout) -> Layout
    ensures { result ≡ layout.now }
{
    match layout.clone() {
        Ok(copy) => copy,
        Err(_) => unreachable!(),
    }
}
