ghost use Rattle.std.specs.Prelude.{◌≡◌, ◌≤◌, [], length};
ghost use Rattle.tag.specs.declared.limits.TheConstants.{MOST_STEPS};
ghost use Rattle.cluster.specs.Cluster.{all_up};

use crate::loads::Loads;
use crate::servers::Servers;
pub use accounts::Accounts;
use indexmap::IndexMap;
use layout::Layout;
use register::Register;
use std::alloc::Global;
use std::marker::Model;
use tag::{Refusal, Stamp};

mod accounts;
mod acts;
mod calls;
mod laws;
mod mailing;
mod messages;
mod phases;
mod placed;
mod reach;
mod retiring;
mod room;
mod setup;

/// The number of a layout of a cluster, from 0 in the order in which the layouts were added.
pub type LayoutId = u32;

/// All objects by name, in order of creation, with the layouts and the servers.
///
/// Each method that changes the cluster is one step, and raises the counter by one. A method that is refused changes
/// nothing, not even the counter. If several refusals apply, it returns the first of them in the order NoObject,
/// ObjectExists, NoCall, NoMessage, Down, NotNow, MovePending, BadLayout, TooLong, Collected, WrongCode, Full,
/// NoMemory. `NoMemory` means that an allocation was refused; a method whose comment says that it allocates no memory
/// never returns it.
///
/// Calls are named by their number in their object, from 1. Messages are named by their place in the object's mail,
/// from 0.
#[derive(Debug)]
pub struct Cluster {
    servers: Servers,
    layouts: Vec<Layout>,
    objects: IndexMap<String, Register>,
    counter: Stamp,
    // The bytes of all pieces in all banks.
    stored: u64,
    // The bytes of all pieces in the banks of each server.
    loads: Loads,
    // The bytes of all pieces in all messages.
    mailed: u64,
    // The number of calls of all objects.
    called: u64,
}

impl Drop for Cluster {
    fn drop(self) {
        let Self {
            servers: _,
            layouts: _,
            objects: _,
            counter: _,
            stored: _,
            loads: _,
            mailed: _,
            called: _,
        } = self;
    }
}

impl Model for Cluster {
    ghost use Rattle.std.specs.Prelude.{map, string_bytes};
    ghost use Rattle.layout.specs.contracts.layout.Layout as arrangement;
    ghost use Rattle.register.specs.contracts.register.Register as object;
    ghost use Rattle.cluster.specs.Cluster.{Cluster as Store, cluster_code};
    ghost use Rattle.cluster.specs.Summed.{IsCounted};

    ghost Value = { Store };

    ghost coded = { cluster_code arrangement.the_row.coded object.the_row.coded };

    ghost view = { λ c. record {
      servers = c.servers;
      layouts = c.layouts.items;
      objects = map (λ e. record { name = string_bytes e.0; state = e.1 }) c.objects.entries;
      counter = c.counter;
    } };

    ghost invariant = { λ c. IsCounted (record {
      servers = c.servers;
      layouts = c.layouts.items;
      objects = map (λ e. record { name = string_bytes e.0; state = e.1 }) c.objects.entries;
      counter = c.counter;
    }) c.stored c.called c.mailed c.loads };
}

impl Cluster {
    /// Makes a cluster of `servers` servers, numbered from 0, all up, with no layouts and no objects. It allocates no
    /// memory.
    pub fn new(alloc: Global, servers: u8) -> Cluster
        ensures { result ≡ record { servers = all_up servers; layouts = []; objects = []; counter = 0 } }
    {
        Cluster {
            servers: Servers::new(servers),
            layouts: Vec::new(alloc),
            objects: IndexMap::new(alloc),
            counter: 0,
            stored: 0,
            loads: Loads::new(servers),
            mailed: 0,
            called: 0,
        }
    }

    /// Returns how many steps were made: at most `MOST_STEPS`.
    pub fn counter(&self) -> Stamp
        ensures counter { result ≡ self.now.counter }
        ensures within { result ≤ MOST_STEPS }
    {
        self.counter
    }

    /// Returns how many servers there are.
    pub fn servers(&self) -> u8
        ensures { result ≡ length self.now.servers }
    {
        self.servers.count()
    }
}
