//! The administrator's steps, and a move and writes that are resumed.

use crate::acts::{Answer, ENOUGH_TURNS, HELLO, put_seat, resume, take_seat, write};
use crate::ends::{is_refused, receipt_of};
use crate::scene::{Play, Scene, perform};
use crate::servers::Servers;
use bytes::Bytes;
use client::{Admin, First, Operation, Seat, Store, StoreName};
use cluster::LayoutId;
use layout::Layout;
use std::process::Abort;
use std::sync::Wait;
use std::thread::Threads;
use tag::{CallId, Refusal};

fn adds_layout<L: StoreName, R: Wait + Abort>(
    rt: &R,
    store: &Store<L>,
    admin: &mut Admin<L>,
) -> LayoutId {
    let layout = Layout::new(2, &[0, 1, 2, 3]).expect(rt, "a layout");
    let added = store.add_layout(rt, admin, layout);
    added.expect(rt, "room for a layout")
}

fn creates<L: StoreName, R: Wait + Abort>(
    rt: &R,
    store: &Store<L>,
    admin: &mut Admin<L>,
    layout: LayoutId,
) {
    let created = store.create(rt, admin, "a", layout);
    created.expect(rt, "an object")
}

fn sets_server<L: StoreName, R: Wait + Abort>(
    rt: &R,
    store: &Store<L>,
    admin: &mut Admin<L>,
    server: u8,
    up: bool,
) {
    let set = store.set_server(rt, admin, server, up);
    set.expect(rt, "a server")
}

fn moves<L: StoreName, R: Threads + Wait + Sync>(
    rt: &R,
    store: &Store<L>,
    admin: &mut Admin<L>,
    layout: LayoutId,
) -> Answer {
    store.move_object(rt, admin, "a", layout, &mut First, 3)
}

fn resumes_move<L: StoreName, R: Threads + Wait + Sync>(
    rt: &R,
    store: &Store<L>,
    admin: &mut Admin<L>,
) -> Answer {
    store.resume_move(rt, admin, &mut First, ENOUGH_TURNS)
}

fn writes<L: StoreName, R: Threads + Wait + Sync>(
    rt: &R,
    store: &Store<L>,
    seat: &mut Seat<L>,
    turns: u64,
) -> Answer {
    write(
        rt,
        store,
        seat,
        Bytes::from_static(HELLO),
        &mut First,
        turns,
    )
}

fn resumes<L: StoreName, R: Threads + Wait + Sync>(
    rt: &R,
    store: &Store<L>,
    seat: &mut Seat<L>,
) -> Answer {
    resume(rt, store, seat, &mut First, ENOUGH_TURNS)
}

fn is_call(rt: &impl Abort, answer: Answer, operation: Operation, call: CallId) {
    let receipt = receipt_of(rt, answer);
    assert!(rt; receipt.kind == operation);
    assert!(rt; receipt.call == call);
}

// The store has one layout, and the object `a` with it. A move goes on after three turns.
fn moves_in_two<L: StoreName, R: Threads + Wait + Abort + Sync>(
    rt: &R,
    store: &Store<L>,
    admin: &mut Admin<L>,
) {
    let layout = adds_layout(rt, store, admin);
    creates(rt, store, admin, layout);
    is_refused(rt, moves(rt, store, admin, layout), Refusal::GaveUp);
    is_call(rt, resumes_move(rt, store, admin), Operation::Move, 1);
}

fn writes_in_two<L: StoreName, R: Threads + Wait + Abort + Sync>(
    rt: &R,
    store: &Store<L>,
    seat: &mut Seat<L>,
) {
    is_refused(rt, writes(rt, store, seat, 3), Refusal::GaveUp);
    is_call(rt, resumes(rt, store, seat), Operation::Write, 2);
}

// Two of four servers are down, and so there is no quorum of three; with one of them up again the write goes on.
fn waits_for_a_server<L: StoreName, R: Threads + Wait + Abort + Sync>(
    rt: &R,
    store: &Store<L>,
    admin: &mut Admin<L>,
    seat: &mut Seat<L>,
) {
    sets_server(rt, store, admin, 2, false);
    sets_server(rt, store, admin, 3, false);
    is_refused(rt, writes(rt, store, seat, ENOUGH_TURNS), Refusal::Stuck);
    sets_server(rt, store, admin, 3, true);
    is_call(rt, resumes(rt, store, seat), Operation::Write, 3);
}

pub(crate) fn administers<L: StoreName, R: Threads + Wait + Abort + Sync>(
    rt: &R,
    store: &Store<L>,
    admin: &mut Admin<L>,
    seats: &mut Vec<Seat<L>>,
) {
    let mut seat = take_seat(rt, seats);
    moves_in_two(rt, store, admin);
    writes_in_two(rt, store, &mut seat);
    waits_for_a_server(rt, store, admin, &mut seat);
    put_seat(rt, seats, seat);
}

#[test]
fn moves_and_writes_are_resumed(rt: HostRuntime) {
    perform(
        &rt,
        rt.alloc(),
        Play {
            scene: Scene::Administers,
            servers: Servers::Bare,
            seats: 1,
            workers: 0,
            closing: Ok(2),
            calls: 3,
        },
    );
}
