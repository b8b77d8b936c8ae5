//! The close of a store: the seats' records are compared with the history.
ghost use Rattle.std.specs.Prelude.{◌≡◌, ◌⊎◌, IfOk, IfErr, MatchResult};
ghost use Rattle.locked_steps.specs.Closing.{Fit, IsAccounted, all_records, receipts_of};
ghost use Rattle.locked_steps.specs.Course.{IsReachable};

use crate::booked::{Booked, StoreName};
use crate::fitting::{account, fit, receipts};
use crate::seat::Seat;
use cluster::Cluster;
use std::alloc::Global;
use tag::Refusal;

/// A closed store: its cluster, and how many of its seats' records have a receipt.
#[derive(Drop)]
pub struct Closed {
    /// The cluster, as the last holder of the lock left it.
    pub cluster: Cluster,
    /// How many records of the seats have a receipt.
    pub receipts: u64,
}

/// A store that was not closed: why, and its cluster and seats as they were.
#[derive(Drop)]
pub struct NotClosed<L: StoreName> {
    /// Why the store was not closed: `Stranger` or `NoMemory`.
    pub refusal: Refusal,
    /// The cluster, as the last holder of the lock left it.
    pub cluster: Cluster,
    /// The seats, unchanged.
    pub seats: Vec<Seat<L>>,
}

/// Closes a store that nobody uses any more.
///
/// Fails with `Stranger` if the seats are not all seats of the store, each once, or do not fit its history: a record or
/// its receipt differs from the history, a call is recorded twice, or a call whose record has no receipt is answered.
/// `NoMemory` may come before that is known. Both give the cluster and the seats back.
pub fn close_in<L: StoreName>(
    alloc: Global,
    booked: Booked<L>,
    seats: Vec<Seat<L>>,
) -> Result<Closed, NotClosed<L>>
    ensures cluster { MatchResult result (λ closed. closed.cluster ≡ booked)
        (λ e. (e.cluster ≡ booked) × (e.seats.items ≡ seats.items)) }
    ensures course { MatchResult result (λ closed. IsReachable L.first closed.cluster)
        (λ e. IsReachable L.first e.cluster) }
    ensures accounted { IfOk result (λ closed. IsAccounted booked seats.items) }
    ensures fit { IfOk result (λ closed. Fit L.seats booked seats.items) }
    ensures stranger { IfErr result
        (λ e. (e.refusal ≡ Refusal.NoMemory) ⊎ ((e.refusal ≡ Refusal.Stranger) × (¬ Fit L.seats booked seats.items))) }
    ensures receipts { IfOk result (λ closed. closed.receipts ≡ receipts_of (all_records seats.items)) }
{
    let Booked {
        cluster,
        book,
        own,
        seats: count,
    } = booked;
    let fits = match fit(alloc, &cluster, count, seats.as_slice()) {
        Ok(fits) => fits,
        Err(refusal) => {
            return Err(NotClosed {
                refusal,
                cluster,
                seats,
            });
        }
    };
    if !fits {
        return Err(NotClosed {
            refusal: Refusal::Stranger,
            cluster,
            seats,
        });
    }
    let receipts = receipts(seats.as_slice());
    account(book, own, seats);
    Ok(Closed { cluster, receipts })
}
