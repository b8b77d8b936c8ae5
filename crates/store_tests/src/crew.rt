//! Clients of one object, in a thread each.

use crate::acts::{Answer, read, write};
use crate::ends::is_answered;
use crate::insisting::{FEW_TURNS, insist};
use crate::tally::Tally;
use crate::varied::Varied;
use bytes::Bytes;
use client::{Seat, Store, StoreName};
use cluster::Cluster;
use history::{check, sequence};
use std::alloc::Global;
use std::process::Abort;
use std::sync::Wait;
use std::thread::{Threads, for_each_mut};

/// The most threads: one for each client.
const THREADS: usize = 8;

/// What each client of a crew does.
#[derive(Clone, Copy)]
pub(crate) struct Part {
    pub(crate) calls: u8,
    /// Each client writes and reads in turn. Otherwise every second one writes, and the others read.
    pub(crate) alternates: bool,
}

impl Part {
    fn is_write(&self, seat: u32, call: u8) -> bool {
        if self.alternates {
            call % 2 == 0
        } else {
            seat % 2 == 1
        }
    }
}

fn value_of(rt: &impl Abort, alloc: Global, seat: u32, call: u8) -> Bytes {
    let value = Bytes::copy_from_slice(alloc, &[(seat % 8) as u8, call]);
    value.expect(rt, "memory for a value")
}

// A write of its client's number and its own, or a read.
fn begin<L: StoreName, R: Threads + Wait + Abort + Sync>(
    rt: &R,
    alloc: Global,
    store: &Store<L>,
    seat: &mut Seat<L>,
    part: Part,
    call: u8,
    chooser: &mut Varied,
) -> Answer {
    let number = seat.number();
    if part.is_write(number, call) {
        let value = value_of(rt, alloc, number, call);
        write(rt, store, seat, value, chooser, FEW_TURNS)
    } else {
        read(rt, store, seat, chooser, FEW_TURNS)
    }
}

// Each call goes on by one of the first four messages that it can handle, and is answered in the end.
fn make_calls<L: StoreName, R: Threads + Wait + Abort + Sync>(
    rt: &R,
    alloc: Global,
    store: &Store<L>,
    seat: &mut Seat<L>,
    part: Part,
    tally: &Tally,
) {
    let mut chooser = Varied::new(seat.number());
    for call in 0..part.calls {
        tally.count_call();
        let begun = begin(rt, alloc, store, seat, part, call, &mut chooser);
        is_answered(rt, insist(rt, store, seat, begun, &mut chooser, tally));
    }
}

/// All clients make their calls, which are counted.
pub(crate) fn work<L: StoreName + Send + Sync, R: Threads + Wait + Abort + Sync>(
    rt: &R,
    alloc: Global,
    store: &Store<L>,
    seats: &mut Vec<Seat<L>>,
    part: Part,
    tally: &Tally,
) {
    for_each_mut(
        rt,
        seats.as_mut_slice(),
        THREADS,
        &|_, seat| { make_calls(rt, alloc, store, seat, part, tally) },
    );
}

/// The sequence that the tags give has all calls, so many, and is one of the history.
pub(crate) fn has_a_sequence(rt: &impl Abort, alloc: Global, cluster: &Cluster, calls: usize) {
    let register = cluster.register("a").expect(rt, "the object");
    let order = sequence(alloc, register).expect(rt, "a sequence");
    assert!(rt; order.len() == calls);
    let entries = cluster.entries("a").expect(rt, "the object's history");
    assert!(rt; check(&entries, &order));
}
