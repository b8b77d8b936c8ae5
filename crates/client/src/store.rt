//! The store that client threads share.

ghost use Rattle.std.specs.Prelude.{◌≡◌, ◌+◌, ◌⊎◌, ◌<◌, ◌≤◌, None, Some, IfOk, IfErr, MatchResult, if◌then◌else◌};
ghost use Rattle.tag.specs.declared.limits.TheConstants.{MOST_WORKERS};
ghost use Rattle.tag.specs.Refusal.{IsByCause};
ghost use Rattle.locked_steps.specs.Closing.{Fit, IsAccounted, all_records, receipts_of};
ghost use Rattle.locked_steps.specs.Course.{IsReachable};
ghost use Rattle.locked_steps.specs.Moves.{new_admin};
ghost use Rattle.locked_steps.specs.Seats.{new_seats};
ghost use Rattle.client.specs.Locked.{DisturbsNotThen, DisturbsThen, StirsNotThen, StirsThen};
ghost use Rattle.client.specs.Opening.{open_store_cause};

use cluster::Cluster;
use driver::Chooser;
use locked_steps::{
    Admin, Booked, Closed, NotClosed, Seat, StoreName, close_in, disturb_in, open_in, stir_in,
};
use std::alloc::Global;
use std::sync::ledger::Blank;
use std::sync::{Mutex, Wait};
use tag::{MOST_SEATS, MOST_WORKERS, Refusal};

mod caller;
mod calls;
mod finish;
mod moves;

/// A cluster under one lock, for the seats of one name, with a number of coding workers.
pub struct Store<L: StoreName> {
    booked: Mutex<Booked<L>>,
    workers: usize,
    alloc: Global,
    // The workers are few enough for the coding of each value.
    ghost few: { workers ≤ MOST_WORKERS },
}

impl<L: StoreName> Drop for Store<L> {
    fn drop(self) {
        let Self {
            booked: _,
            workers: _,
            alloc: _,
        } = self;
    }
}

/// A store with its seats and its administrator.
pub type Opened<L> = (Store<L>, Vec<Seat<L>>, Admin<L>);

impl<L: StoreName> Store<L> {
    /// Makes a store over a cluster without calls, with `seats` seats, numbered from 0. For each value that is encoded,
    /// `workers` threads make the pieces; with 0 workers the thread of the seat makes them. The store's book is made
    /// from `blank`, which must have one part for each seat and one for the store. The cluster must be the one that the
    /// store's name has as its member `first`.
    ///
    /// Is refused with `NotNow` if the cluster has a call, and with `Full` above `MOST_SEATS` seats or `MOST_WORKERS`
    /// workers.
    pub fn open(
        alloc: Global,
        blank: Blank,
        cluster: Cluster,
        seats: u32,
        workers: usize,
    ) -> Result<Opened<L>, Refusal>
        requires first { cluster ≡ L.first }
        requires name { blank.name ≡ L.name }
        requires parts { (blank.parts ≡ L.parts) × (blank.parts ≡ L.seats + 1) × (seats ≡ L.seats) }
        ensures seats { IfOk result (λ opened. opened.1.items ≡ new_seats seats) }
        ensures admin { IfOk result (λ opened. opened.2 ≡ new_admin cluster) }
        ensures workers { IfOk result (λ opened. opened.0.workers ≡ workers) }
        ensures cause { IsByCause (open_store_cause cluster seats workers) result }
    {
        if cluster.calls() != 0 {
            return Err(Refusal::NotNow);
        }
        if seats > MOST_SEATS || workers > MOST_WORKERS {
            return Err(Refusal::Full);
        }
        let (booked, list, admin) = open_in(alloc, blank, cluster, seats)?;
        let store = Store {
            booked: Mutex::new(booked),
            workers,
            alloc,
        };
        Ok((store, list, admin))
    }

    /// Handles one message of an object, the one that `chooser` chooses among those that can be handled: a request to a
    /// server that is up is served, and a reply is taken. Returns false, and makes no step, if no message can be
    /// handled.
    ///
    /// Is refused with `NoObject` if no object has this name, and with `Full` if the limit of steps or of stored bytes
    /// is met.
    pub fn stir<R: Wait, C: Chooser>(
        &self,
        rt: &R,
        name: &str,
        chooser: &mut C,
    ) -> Result<bool, Refusal>
        ensures ok { IfOk result (λ b. StirsThen L.first C.chooses name.now chooser.old b chooser.new) }
        ensures err { IfErr result (λ e. StirsNotThen L.first C.chooses name.now chooser.old chooser.new e) }
    {
        stir_in(&mut *self.booked.lock(rt), name, chooser)
    }

    /// Loses or repeats one waiting message of an object. `chooser` first chooses the message among all that wait, and
    /// then what happens to it: with an even number the message is lost, with an odd one it is repeated. Returns false,
    /// and makes no step, if no message waits.
    ///
    /// Is refused with `NoObject` if no object has this name, and with `Full` if the limit of steps or of the object's
    /// waiting messages is met.
    pub fn disturb<R: Wait, C: Chooser>(
        &self,
        rt: &R,
        name: &str,
        chooser: &mut C,
    ) -> Result<bool, Refusal>
        ensures ok { IfOk result (λ b. DisturbsThen L.first C.chooses name.now chooser.old b chooser.new) }
        ensures err { IfErr result (λ e. DisturbsNotThen L.first C.chooses name.now chooser.old chooser.new e) }
    {
        disturb_in(&mut *self.booked.lock(rt), name, chooser)
    }

    /// Closes the store with all its seats, once all clients have ended. Returns the cluster and the number of
    /// receipts.
    ///
    /// Fails with `Stranger` if the seats are not those of the store, or their records do not fit its history.
    /// `NoMemory` may come before that is known. Both give the cluster and the seats back.
    pub fn close(self, seats: Vec<Seat<L>>) -> Result<Closed, NotClosed<L>>
        ensures course { MatchResult result (λ closed. IsReachable L.first closed.cluster)
            (λ e. IsReachable L.first e.cluster) }
        ensures accounted { IfOk result (λ closed. IsAccounted closed.cluster seats.items) }
        ensures fit { IfOk result (λ closed. Fit L.seats closed.cluster seats.items) }
        ensures receipts { IfOk result (λ closed. closed.receipts ≡ receipts_of (all_records seats.items)) }
        ensures stranger { IfErr result
            (λ e. (e.refusal ≡ Refusal.NoMemory)
            ⊎ ((e.refusal ≡ Refusal.Stranger) × (¬ Fit L.seats e.cluster seats.items))) }
        ensures seats { IfErr result (λ e. e.seats.items ≡ seats.items) }
    {
        let Store {
            booked,
            workers: _,
            alloc,
        } = self;
        close_in(alloc, booked.into_inner(), seats)
    }
}
