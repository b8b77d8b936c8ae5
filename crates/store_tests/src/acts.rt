//! What the tests do at a store, each in a function without a clause, so that its caller's proof stays short.

use bytes::Bytes;
use client::{Chooser, Receipt, Seat, Store, StoreName};
use std::process::Abort;
use std::sync::Wait;
use std::thread::Threads;
use tag::Refusal;

/// More turns than any call here takes.
pub(crate) const ENOUGH_TURNS: u64 = 100_000;

pub(crate) const HELLO: &[u8] = b"hello";

pub(crate) type Answer = Result<Receipt, Refusal>;

pub(crate) fn take_seat<L: StoreName>(rt: &impl Abort, seats: &mut Vec<Seat<L>>) -> Seat<L> {
    seats.pop().expect(rt, "a seat")
}

pub(crate) fn put_seat<L: StoreName>(rt: &impl Abort, seats: &mut Vec<Seat<L>>, seat: Seat<L>) {
    seats.push(seat).expect(rt, "room for a seat")
}

pub(crate) fn write<L: StoreName, R: Threads + Wait + Sync, C: Chooser>(
    rt: &R,
    store: &Store<L>,
    seat: &mut Seat<L>,
    value: Bytes,
    chooser: &mut C,
    turns: u64,
) -> Answer {
    store.write(rt, seat, "a", value, chooser, turns)
}

pub(crate) fn read<L: StoreName, R: Threads + Wait + Sync, C: Chooser>(
    rt: &R,
    store: &Store<L>,
    seat: &mut Seat<L>,
    chooser: &mut C,
    turns: u64,
) -> Answer {
    store.read(rt, seat, "a", chooser, turns)
}

pub(crate) fn resume<L: StoreName, R: Threads + Wait + Sync, C: Chooser>(
    rt: &R,
    store: &Store<L>,
    seat: &mut Seat<L>,
    chooser: &mut C,
    turns: u64,
) -> Answer {
    store.resume(rt, seat, chooser, turns)
}
