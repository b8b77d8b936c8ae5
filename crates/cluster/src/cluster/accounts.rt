//! Reading a cluster without a step.

ghost use Rattle.std.specs.Prelude.{◌≡◌, ◌≤◌, ◌<◌, length, Some, None, IfOk};
ghost use Rattle.tag.specs.Refusal.{IsByCause, IsExactlyByCause};
ghost use Rattle.tag.specs.declared.limits.TheConstants.{MOST_BYTES};
ghost use Rattle.record.specs.Journals.{entries};
ghost use Rattle.cluster.specs.Cluster.{if_named, named};
ghost use Rattle.cluster.specs.Accounts.{server_bytes, stored_all, waiting_bytes, calls};
ghost use Rattle.cluster.specs.Atomic.{AreSums};
ghost use Rattle.cluster.specs.Causes.{object_cause};

use crate::cluster::Cluster;
use arrayvec::ArrayVec;
use record::Entry;
use register::Register;
use tag::{MOST_SERVERS, Refusal};

/// The accounts of a cluster, in bytes of pieces.
#[derive(Debug, PartialEq, Eq, Drop)]
pub struct Accounts {
    /// What each server stores, as `stored` returns it, from server 0 on.
    pub servers: ArrayVec<u64, MOST_SERVERS>,
    /// What all servers store, as `stored_all` returns it.
    pub stored: u64,
    /// What waits in messages, as `mailed` returns it.
    pub mailed: u64,
}

impl Cluster {
    /// Returns how many bytes of pieces a server stores, over all objects. `server` must be the number of a server of
    /// the cluster.
    pub fn stored(&self, server: u8) -> u64
        requires { server < length self.now.servers }
        ensures { result ≡ server_bytes self.now server }
    {
        self.loads.at(server)
    }

    /// Returns how many bytes of pieces all servers store.
    pub fn stored_all(&self) -> u64
        ensures value { result ≡ stored_all self.now }
        ensures within { result ≤ MOST_BYTES }
    {
        self.stored
    }

    /// Returns how many bytes of pieces wait in the messages of all objects.
    pub fn mailed(&self) -> u64
        ensures value { result ≡ waiting_bytes self.now }
        ensures within { result ≤ MOST_BYTES }
    {
        self.mailed
    }

    // The accounts: what `stored`, `stored_all` and `mailed` return.
    pub(crate) fn accounts(&self) -> Accounts
        ensures { AreSums self.now result }
    {
        self.invariant();
        let mut servers = ArrayVec::new();
        for server in 0..self.servers() {
            servers.push(self.stored(server));
        }
        Accounts {
            servers,
            stored: self.stored_all(),
            mailed: self.mailed(),
        }
    }

    /// Returns how many calls all objects have, moves among them.
    pub fn calls(&self) -> u64
        ensures { result ≡ calls self.now.objects }
    {
        self.called
    }

    /// Returns one entry for each call of an object, in the order of their numbers.
    ///
    /// Is refused with `NoObject` if no object has this name. Otherwise `NoMemory` is the only refusal.
    pub fn entries(&self, name: &str) -> Result<Vec<Entry>, Refusal>
        ensures entries { IfOk result
            (λ es. if_named self.now name.now (λ object. Some (entries object)) ≡ Some es.items) }
        ensures cause { IsByCause (object_cause self.now name.now (λ object. None)) result }
    {
        match self.find(name) {
            Some(object) => self.register_at(name, object).entries(),
            None => Err(Refusal::NoObject),
        }
    }

    /// Returns the object of this name, for reading. It allocates no memory.
    ///
    /// Is refused with `NoObject` if no object has this name.
    pub fn register(&self, name: &str) -> Result<&Register, Refusal>
        ensures object { IfOk result (λ r. named self.now.objects name.now ≡ Some r.now) }
        ensures cause { IsExactlyByCause (object_cause self.now name.now (λ object. None)) result }
    {
        match self.find(name) {
            Some(object) => Ok(self.register_at(name, object)),
            None => Err(Refusal::NoObject),
        }
    }
}
