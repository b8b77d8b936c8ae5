//! What a new store consists of.

ghost use Rattle.std.specs.Prelude.{◌≡◌, ◌+◌, IfOk, IfErr};
ghost use Rattle.tag.specs.declared.refusal.Refusal.TheVariants.{NoMemory};
ghost use Rattle.cluster.specs.Accounts.{calls};
ghost use Rattle.locked_steps.specs.Moves.{new_admin};
ghost use Rattle.locked_steps.specs.Seats.{new_seats};

use crate::admin::Admin;
use crate::booked::{Booked, StoreName};
use crate::seat::{Seat, empty_seat};
use cluster::Cluster;
use std::alloc::Global;
use std::sync::ledger::Blank;
use tag::Refusal;

/// The cluster with its book, the seats, and the administrator of a store.
pub type Parts<L> = (Booked<L>, Vec<Seat<L>>, Admin<L>);

/// Makes the parts of a store over a cluster without calls, with `seats` seats, numbered from 0. The store's book is
/// made from `blank`, which must have one part for each seat and one for the store. The cluster must be the one that
/// the store's name has as its member `first`.
///
/// `NoMemory` is the only refusal.
pub fn open_in<L: StoreName>(
    alloc: Global,
    blank: Blank,
    cluster: Cluster,
    seats: u32,
) -> Result<Parts<L>, Refusal>
    requires calls { calls cluster.objects ≡ 0 }
    requires first { cluster ≡ L.first }
    requires name { blank.name ≡ L.name }
    requires parts { (blank.parts ≡ L.parts) × (blank.parts ≡ L.seats + 1) × (seats ≡ L.seats) }
    ensures cluster { IfOk result (λ parts. parts.0 ≡ cluster) }
    ensures seats { IfOk result (λ parts. parts.1.items ≡ new_seats seats) }
    ensures admin { IfOk result (λ parts. parts.2 ≡ new_admin cluster) }
    ensures refused { IfErr result (λ e. e ≡ NoMemory) }
{
    let (book, mut own) = blank.open::<L>();
    let mut list = Vec::with_capacity(alloc, seats as usize)?;
    for number in 0..seats {
        let share = own.split_off(1, 0);
        list.push_reserved(empty_seat(alloc, number, share));
    }
    let admin = Admin::new(alloc, &cluster);
    // A law: the cluster is sound.
    cluster.soundness();
    let booked = Booked::new(cluster, book, own, seats);
    Ok((booked, list, admin))
}
