//! The most seats and the most workers of a store, from both sides.

ghost use Rattle.std.specs.Prelude.{◌≡◌, ◌+◌};

use crate::servers::{Servers, cluster_of};
use client::{Store, StoreName};
use cluster::Cluster;
use std::alloc::Global;
use std::marker::Brand;
use std::process::Abort;
use std::sync::ledger::Blank;
use tag::Refusal;

// A store that is opened with so many seats and workers gives so many seats, or is refused.
fn gives(
    rt: &impl Abort,
    alloc: Global,
    seats: u32,
    workers: usize,
    given: Result<usize, Refusal>,
) {
    let blank = Blank::new(u64::from(seats) + 1);
    let cluster = cluster_of(rt, alloc, Servers::KeepAll);
    let opened = seats_named::<Brand>(alloc, blank, cluster, seats, workers);
    assert_eq!(rt; opened, given);
}

// How many seats the store of this name gives.
fn seats_named<L: StoreName>(
    alloc: Global,
    blank: Blank,
    cluster: Cluster,
    seats: u32,
    workers: usize,
) -> Result<usize, Refusal>
    requires first { cluster ≡ L.first }
    requires name { blank.name ≡ L.name }
    requires parts { (blank.parts ≡ L.parts) × (blank.parts ≡ L.seats + 1) × (seats ≡ L.seats) }
{
    let (_store, seats, _admin) = Store::<L>::open(alloc, blank, cluster, seats, workers)?;
    Ok(seats.len())
}

#[test]
fn the_most_seats_and_one_more(rt: HostRuntime) {
    gives(&rt, rt.alloc(), 1024, 0, Ok(1024));
    gives(&rt, rt.alloc(), 1025, 0, Err(Refusal::Full));
}

#[test]
fn the_most_workers_and_one_more(rt: HostRuntime) {
    gives(&rt, rt.alloc(), 1, 64, Ok(1));
    gives(&rt, rt.alloc(), 1, 65, Err(Refusal::Full));
}
