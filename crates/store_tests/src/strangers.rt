//! A seat that saw a step that was not made is refused as a stranger.

use crate::acts::{ENOUGH_TURNS, read, resume, take_seat};
use crate::ends::is_refused;
use crate::scene::{Play, Scene, perform};
use crate::seats::{LEFT, resumes_nothing, writes};
use crate::servers::Servers;
use client::{First, Operation, Receipt, Seat, Store, StoreName};
use std::process::Abort;
use std::sync::Wait;
use std::thread::Threads;
use tag::Refusal;

fn made_up() -> Receipt {
    Receipt {
        object: 0,
        kind: Operation::Write,
        call: 1,
        called: 1,
        answered: 1_000_000,
        value: None,
    }
}

// A read is left open, and then the seat saw a step that was not made.
fn is_a_stranger<L: StoreName, R: Threads + Wait + Abort + Sync>(
    rt: &R,
    store: &Store<L>,
    seat: &mut Seat<L>,
) {
    is_refused(rt, read(rt, store, seat, &mut First, 0), Refusal::GaveUp);
    seat.learn(&made_up());
    let stranger = Refusal::Stranger;
    is_refused(rt, writes(rt, store, seat, LEFT, ENOUGH_TURNS), stranger);
    is_refused(
        rt,
        read(rt, store, seat, &mut First, ENOUGH_TURNS),
        stranger,
    );
    is_refused(
        rt,
        resume(rt, store, seat, &mut First, ENOUGH_TURNS),
        stranger,
    );
}

// One of the two seats is a stranger, and is not there at the close.
pub(crate) fn strangers<L: StoreName, R: Threads + Wait + Abort + Sync>(
    rt: &R,
    store: &Store<L>,
    seats: &mut Vec<Seat<L>>,
) {
    let mut seat = take_seat(rt, seats);
    is_a_stranger(rt, store, &mut seat);
    seat.abandon();
    resumes_nothing(rt, store, &mut seat, Refusal::Stranger);
}

#[test]
fn strangers_are_refused(rt: HostRuntime) {
    perform(
        &rt,
        rt.alloc(),
        Play {
            scene: Scene::Strangers,
            servers: Servers::KeepAll,
            seats: 2,
            workers: 0,
            closing: Err((Refusal::Stranger, 1)),
            calls: 1,
        },
    );
}
