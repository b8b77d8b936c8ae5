//! The source of the ids of a node's calls, and the node's number.
ghost use Rattle.std.specs.Prelude.{◌≡◌, ◌^◌, nat_lt, suc};
ghost use Rattle.deeds.specs.CallId.{HasRanges, after_given, with_next_epoch, next_given_id};

use deeds::CallIds;
use std::marker::Model;
use tag::CallId;

/// The source of the ids of a node's calls. It also keeps the number of the node.
#[derive(Debug)]
pub struct OwnIds {
    number: u8,
    ids: CallIds,
}

impl Drop for OwnIds {
    fn drop(self) {
        let Self { number: _, ids: _ } = self;
    }
}

impl Model for OwnIds {
    ghost use Rattle.std.specs.Prelude.{◌≡◌};
    ghost use Rattle.deeds.specs.CallId.{CallIds as Ids, HasRanges};

    ghost Value = { Ids };

    ghost view = { λ i. i.ids };

    ghost invariant = { λ i. (i.ids.node ≡ i.number) × HasRanges i.ids };
}

impl OwnIds {
    /// Makes the source of ids of the node with this number, before its first epoch.
    pub fn new(number: u8) -> OwnIds
        ensures { result ≡ record { node = number; epoch = 0; given = 0 } }
    {
        OwnIds {
            number,
            ids: CallIds::new(number),
        }
    }

    /// Returns the number of the node.
    pub fn number(&self) -> u8
        ensures number { result ≡ self.now.node }
        ensures within { HasRanges self.now }
    {
        self.number
    }

    /// Returns the number of epochs that have begun, which is below 2^24.
    pub fn epoch(&self) -> u32
        ensures { result ≡ self.now.epoch }
    {
        self.ids.epoch()
    }

    /// Begins the next epoch, and returns whether there was one. If there was none, nothing changes.
    pub fn begin_epoch(&mut self) -> bool
        ensures more { result ≡ nat_lt (suc self.old.epoch) (2 ^ 24) }
        ensures begun { self.new ≡ with_next_epoch self.old }
    {
        self.ids.begin_epoch()
    }

    /// Gives the next id, which differs from all that were given before. Returns none if the epoch has given all of its
    /// 2^32 ids.
    pub fn next_id(&mut self) -> Option<CallId>
        ensures id { result ≡ next_given_id self.old }
        ensures given { self.new ≡ after_given self.old }
    {
        self.ids.next_id()
    }
}
