//! The cluster with the book of its calls.

ghost use Rattle.std.specs.Prelude.{◌≡◌, ◌+◌, ℕ, []};
ghost use Rattle.locked_steps.specs.Calls.{client_calls};
ghost use Rattle.cluster.specs.Accounts.{calls};
ghost use Rattle.cluster.specs.Cluster.{Cluster as Store};
ghost use Rattle.locked_steps.specs.Course.{IsSoundCluster};

use cluster::Cluster;
use std::marker::{Brand, Model};
use std::sync::ledger::{Book, Ledger, Share};

/// The name of one store, as a type. A store is opened in a function that is generic over its name; the caller of that
/// function picks `Brand` for it.
pub trait StoreName: Ledger {
    /// How many seats the store has.
    ghost seats: { ℕ };

    /// The cluster that the store was opened with.
    ghost first: { Store };
}

impl StoreName for Brand {
    ghost seats = { 0 };

    ghost first = { record { servers = []; layouts = []; objects = []; counter = 0 } };
}

/// A cluster with the book of its calls, as it lies under the lock.
///
/// The book's total is the number of the cluster's reads and writes. Steps that may be made lead from the cluster that
/// the store was opened with to this one, and it is sound.
#[derive(Drop)]
pub struct Booked<L: StoreName> {
    pub(crate) cluster: Cluster,
    pub(crate) book: Book<L>,
    pub(crate) own: Share<L>,
    pub(crate) seats: u32,
}

impl<L: StoreName> Model for Booked<L> {
    ghost use Rattle.std.specs.Prelude.{◌≡◌, ◌+◌};
    ghost use Rattle.cluster.specs.contracts.cluster.Cluster as whole;
    ghost use Rattle.cluster.specs.Cluster.{Cluster as Store};
    ghost use Rattle.locked_steps.specs.Calls.{client_calls};
    ghost use Rattle.locked_steps.specs.Course.{IsReachable, IsSoundCluster};

    ghost Value = { Store };

    ghost coded = { whole.the_row.coded };

    ghost view = { λ b. b.cluster };

    ghost invariant = { λ b. (b.book.total ≡ client_calls b.cluster) × (b.own.parts ≡ 1) × (b.own.amount ≡ 0)
        × (b.seats ≡ L.seats) × (L.parts ≡ L.seats + 1) × IsReachable L.first b.cluster × IsSoundCluster b.cluster };
}

impl<L: StoreName> Booked<L> {
    /// Makes a sound cluster without calls, with an empty book for this many seats.
    pub(crate) fn new(cluster: Cluster, book: Book<L>, own: Share<L>, seats: u32) -> Booked<L>
        requires calls { calls cluster.objects ≡ 0 }
        requires first { cluster ≡ L.first }
        requires sound { IsSoundCluster cluster }
        requires book { book.total ≡ 0 }
        requires own { (own.parts ≡ 1) × (own.amount ≡ 0) }
        requires seats { (seats ≡ L.seats) × (L.parts ≡ L.seats + 1) }
        ensures { result ≡ cluster }
    {
        Booked {
            cluster,
            book,
            own,
            seats,
        }
    }
}
