//! Turns are counted: each call and each resume makes so many steps as it may, and one more for the call step.

use crate::acts::{HELLO, put_seat, read, resume, take_seat, write};
use crate::ends::{are_equal, is_refused};
use crate::scene::{Play, Scene, perform};
use crate::servers::Servers;
use bytes::Bytes;
use client::{Admin, First, Seat, Store, StoreName};
use cluster::Cluster;
use record::Entry;
use std::process::Abort;
use std::sync::Wait;
use std::thread::Threads;
use tag::Refusal;

// Four servers come of two steps. The move is called at step 3, and has three turns and then two.
fn gives_up_a_move<L: StoreName, R: Threads + Wait + Abort + Sync>(
    rt: &R,
    store: &Store<L>,
    admin: &mut Admin<L>,
) {
    let begun = store.move_object(rt, admin, "a", 0, &mut First, 3);
    is_refused(rt, begun, Refusal::GaveUp);
    let resumed = store.resume_move(rt, admin, &mut First, 2);
    is_refused(rt, resumed, Refusal::GaveUp);
    are_equal(rt, admin.orders(), 1);
    are_equal(rt, admin.asked(), 1);
}

// The write is called at step 9, and has three turns and then two.
fn gives_up_a_write<L: StoreName, R: Threads + Wait + Abort + Sync>(
    rt: &R,
    store: &Store<L>,
    seat: &mut Seat<L>,
) {
    let value = Bytes::from_static(HELLO);
    is_refused(
        rt,
        write(rt, store, seat, value, &mut First, 3),
        Refusal::GaveUp,
    );
    is_refused(rt, resume(rt, store, seat, &mut First, 2), Refusal::GaveUp);
    are_equal(rt, seat.asked(), 1);
    seat.abandon();
}

// A read is called at step 15 and has four turns, and another at step 20, which has none.
fn gives_up_reads<L: StoreName, R: Threads + Wait + Abort + Sync>(
    rt: &R,
    store: &Store<L>,
    seat: &mut Seat<L>,
) {
    is_refused(rt, read(rt, store, seat, &mut First, 4), Refusal::GaveUp);
    seat.abandon();
    is_refused(rt, read(rt, store, seat, &mut First, 0), Refusal::GaveUp);
}

fn is_called_at(rt: &impl Abort, entry: Option<&Entry>, step: u64) {
    are_equal(rt, entry.expect(rt, "a call").called, step);
}

pub(crate) fn was_called(rt: &impl Abort, cluster: &Cluster) {
    let entries = cluster.entries("a").expect(rt, "the object's history");
    assert!(rt; entries.len() == 4);
    is_called_at(rt, entries.first(), 3);
    is_called_at(rt, entries.get(1), 9);
    is_called_at(rt, entries.get(2), 15);
    is_called_at(rt, entries.last(), 20);
}

pub(crate) fn gives_up<L: StoreName, R: Threads + Wait + Abort + Sync>(
    rt: &R,
    store: &Store<L>,
    admin: &mut Admin<L>,
    seats: &mut Vec<Seat<L>>,
) {
    let mut seat = take_seat(rt, seats);
    gives_up_a_move(rt, store, admin);
    gives_up_a_write(rt, store, &mut seat);
    gives_up_reads(rt, store, &mut seat);
    put_seat(rt, seats, seat);
}

#[test]
fn turns_are_counted(rt: HostRuntime) {
    perform(
        &rt,
        rt.alloc(),
        Play {
            scene: Scene::GivesUp,
            servers: Servers::KeepAll,
            seats: 1,
            workers: 0,
            closing: Ok(0),
            calls: 4,
        },
    );
}
