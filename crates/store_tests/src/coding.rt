//! Values are coded and decoded with the lock free.

use crate::acts::{Answer, ENOUGH_TURNS, HELLO, put_seat, read, take_seat};
use crate::ends::{has_value, is_refused};
use crate::scene::{Play, Scene, perform};
use crate::servers::Servers;
use bytes::Bytes;
use client::{Begin, First, Seat, Store, StoreName};
use coding_pool::Gate;
use std::process::Abort;
use std::sync::Wait;
use std::sync::atomic::{AtomicBool, Ordering};
use std::thread;
use std::thread::{Threads, join};
use tag::Refusal;

const MOST_LOOKS: u32 = 1_000_000;

/// Holds a job until another thread has handled a message, or for a million turns.
#[derive(Drop)]
struct Hold {
    entered: AtomicBool,
    stirred: AtomicBool,
    overlapped: AtomicBool,
}

impl Gate for Hold {
    fn enter(&self, _job: usize) {
        self.entered.store(true, Ordering::SeqCst);
        for _ in 0..MOST_LOOKS {
            if self.stirred.load(Ordering::SeqCst) {
                self.overlapped.store(true, Ordering::SeqCst);
                return;
            }
            thread::yield_now();
        }
    }

    fn leave(&self, _job: usize) {}
}

fn new_hold() -> Hold {
    Hold {
        entered: AtomicBool::new(false),
        stirred: AtomicBool::new(false),
        overlapped: AtomicBool::new(false),
    }
}

fn stir<L: StoreName, R: Wait>(rt: &R, store: &Store<L>) -> bool {
    store.stir(rt, "a", &mut First) == Ok(true)
}

// Handles one message once a job has entered the gate, which is to come within a million turns.
fn stirs<L: StoreName, R: Wait>(rt: &R, store: &Store<L>, gate: &Hold) {
    for _ in 0..MOST_LOOKS {
        if gate.entered.load(Ordering::SeqCst) {
            let stirred = stir(rt, store);
            return gate.stirred.store(stirred, Ordering::SeqCst);
        }
        thread::yield_now();
    }
}

fn calls<L: StoreName, R: Threads + Wait + Sync>(
    rt: &R,
    store: &Store<L>,
    gate: &Hold,
    seat: &mut Seat<L>,
    what: Begin,
) -> Answer {
    store.call(rt, gate, seat, "a", what, &mut First, ENOUGH_TURNS)
}

// A call that is held at the gate, while another thread handles a message of a call that was left open.
fn calls_beside<L: StoreName + Send + Sync, R: Threads + Wait + Sync>(
    rt: &R,
    store: &Store<L>,
    gate: &Hold,
    seat: &mut Seat<L>,
    what: Begin,
) -> Answer {
    let (answer, ()) = join(
        rt,
        move || calls(rt, store, gate, seat, what),
        move || stirs(rt, store, gate),
    );
    answer
}

fn overlaps<L: StoreName + Send + Sync, R: Threads + Wait + Abort + Sync>(
    rt: &R,
    store: &Store<L>,
    seat: &mut Seat<L>,
    what: Begin,
    value: &'static [u8],
) {
    let hold = new_hold();
    let answer = calls_beside(rt, store, &hold, seat, what);
    assert!(rt; hold.overlapped.load(Ordering::SeqCst));
    has_value(rt, answer, value);
}

fn is_left_open<L: StoreName, R: Threads + Wait + Abort + Sync>(
    rt: &R,
    store: &Store<L>,
    seat: &mut Seat<L>,
) {
    is_refused(rt, read(rt, store, seat, &mut First, 0), Refusal::GaveUp);
}

pub(crate) fn leaves_the_lock_free<L: StoreName + Send + Sync, R: Threads + Wait + Abort + Sync>(
    rt: &R,
    store: &Store<L>,
    seats: &mut Vec<Seat<L>>,
    writes: bool,
) {
    let mut idle = take_seat(rt, seats);
    is_left_open(rt, store, &mut idle);
    let mut seat = take_seat(rt, seats);
    let (what, value) = begin_of(writes);
    overlaps(rt, store, &mut seat, what, value);
    put_seat(rt, seats, seat);
    put_seat(rt, seats, idle);
}

// What is called, and the value of its receipt.
fn begin_of(writes: bool) -> (Begin, &'static [u8]) {
    if writes {
        (Begin::Write(Bytes::from_static(HELLO)), HELLO)
    } else {
        (Begin::Read, b"")
    }
}

#[test]
fn encoding_leaves_the_lock_free(rt: HostRuntime) {
    perform(
        &rt,
        rt.alloc(),
        Play {
            scene: Scene::LeavesTheLockFree { writes: true },
            servers: Servers::KeepAll,
            seats: 2,
            workers: 1,
            closing: Ok(1),
            calls: 2,
        },
    );
}

#[test]
fn decoding_leaves_the_lock_free(rt: HostRuntime) {
    perform(
        &rt,
        rt.alloc(),
        Play {
            scene: Scene::LeavesTheLockFree { writes: false },
            servers: Servers::KeepAll,
            seats: 2,
            workers: 1,
            closing: Ok(1),
            calls: 2,
        },
    );
}
