//! The locked sections that begin a call and a move, if no room was made before: they make it themselves.

ghost use Rattle.std.specs.Prelude.{◌≡◌, ◌+◌};

use crate::servers::{Servers, cluster_of};
use client::sections::{begin_in, begin_move_in};
use client::{Begin, StoreName};
use cluster::Cluster;
use locked_steps::{Parts, open_in};
use std::alloc::Global;
use std::marker::Brand;
use std::process::Abort;
use std::sync::ledger::Blank;

// Opens the parts of a store with one seat, and begins a move and a read.
fn begins_both(rt: &impl Abort, alloc: Global) {
    let blank = Blank::new(2);
    let cluster = cluster_of(rt, alloc, Servers::KeepAll);
    begins_named::<Brand>(rt, alloc, blank, cluster, 1);
}

fn begins_named<L: StoreName>(
    rt: &impl Abort,
    alloc: Global,
    blank: Blank,
    cluster: Cluster,
    seats: u32,
)
    requires first { cluster ≡ L.first }
    requires name { blank.name ≡ L.name }
    requires parts { (blank.parts ≡ L.parts) × (blank.parts ≡ L.seats + 1) × (seats ≡ L.seats) }
{
    if cluster.calls() == 0 {
        let parts = open_in::<L>(alloc, blank, cluster, seats);
        begins(rt, parts.expect(rt, "the parts of a store"));
    }
}

fn begins<L: StoreName>(rt: &impl Abort, parts: Parts<L>) {
    let (mut booked, mut seats, mut admin) = parts;
    let mut seat = seats.pop().expect(rt, "a seat");
    assert!(rt; begin_move_in(&mut booked, &mut admin, "a", 0).is_ok());
    assert!(rt; begin_in(&mut booked, &mut seat, "a", Begin::Read).is_ok());
}

#[test]
fn the_sections_that_begin_make_room(rt: HostRuntime) {
    begins_both(&rt, rt.alloc());
}
