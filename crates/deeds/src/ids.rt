//! The source of the ids of a node's calls.
ghost use Rattle.std.specs.Prelude.{◌≡◌, ◌+◌, ◌<◌, ◌^◌, IsTrue, nat_lt, suc, if◌then◌else◌};
ghost use Rattle.deeds.specs.CallId.{IdsDiffer, next_given_id, after_given, with_next_epoch};

use std::marker::Model;
use tag::CallId;

// The number of epochs, and of ids in an epoch.
const EPOCHS: u32 = 1 << 24;

const IDS: u64 = 1 << 32;

/// The source of the ids of one node's calls. The count of an epoch begins at 0 and is not kept anywhere else. So a
/// node begins an epoch each time it starts, and its log keeps how many epochs it began.
#[derive(Debug)]
pub struct CallIds {
    node: u8,
    // How many epochs were begun.
    epoch: u32,
    // How many ids the epoch gave.
    given: u64,
}

impl Drop for CallIds {
    fn drop(self) {
        let Self {
            node: _,
            epoch: _,
            given: _,
        } = self;
    }
}

impl Model for CallIds {
    ghost use Rattle.std.specs.Prelude.{◌<◌, ◌≤◌, ◌^◌};
    ghost use Rattle.deeds.specs.CallId.{CallIds as Ids, HasRanges};

    ghost Value = { Ids };

    ghost view = { λ i. record { node = i.node; epoch = i.epoch; given = i.given } };

    ghost invariant = { λ i. HasRanges (record { node = i.node; epoch = i.epoch; given = i.given }) };
}

impl CallIds {
    /// Makes the source of ids of the node with this number, before its first epoch.
    pub fn new(node: u8) -> CallIds
        ensures { result ≡ record { node = node; epoch = 0; given = 0 } }
    {
        CallIds {
            node,
            epoch: 0,
            given: 0,
        }
    }

    /// Returns the number of epochs that were begun, below 2^24.
    pub fn epoch(&self) -> u32
        ensures { result ≡ self.now.epoch }
    {
        self.epoch
    }

    /// Begins the next epoch, and returns whether there was one. If there was none, nothing changes.
    pub fn begin_epoch(&mut self) -> bool
        ensures more { result ≡ nat_lt (suc self.old.epoch) (2 ^ 24) }
        ensures begun { self.new ≡ with_next_epoch self.old }
    {
        if self.epoch + 1 == EPOCHS {
            return false;
        }
        self.epoch += 1;
        self.given = 0;
        true
    }

    /// Gives the next id, which differs from all that were given before. Returns none if the epoch has given all of its
    /// 2^32 ids.
    pub fn next_id(&mut self) -> Option<CallId>
        ensures id { result ≡ next_given_id self.old }
        ensures given { self.new ≡ after_given self.old }
    {
        if self.given == IDS {
            return None;
        }
        let id = (u64::from(self.node) << 56) + (u64::from(self.epoch) << 32) + self.given;
        self.given += 1;
        Some(id)
    }
}

/// A law: two ids are the same only if they are of one node, one epoch and one count.
pub fn call_ids_differ()
    ensures { IdsDiffer }
{}
