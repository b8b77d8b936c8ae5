//! Seats: what they learn, what they leave open, and what they did not see.

use crate::acts::{Answer, ENOUGH_TURNS, HELLO, put_seat, read, resume, take_seat, write};
use crate::ends::{called_with, is_refused, receipt_of};
use crate::scene::{Play, Scene, perform};
use crate::servers::Servers;
use crate::tally::Tally;
use bytes::Bytes;
use client::{First, Operation, Receipt, Seat, Store, StoreName};
use cluster::Cluster;
use record::Entry;
use std::process::Abort;
use std::sync::Wait;
use std::thread::{Threads, join};
use tag::{CallId, Refusal};

pub(crate) fn writes<L: StoreName, R: Threads + Wait + Sync>(
    rt: &R,
    store: &Store<L>,
    seat: &mut Seat<L>,
    value: &'static [u8],
    turns: u64,
) -> Answer {
    write(
        rt,
        store,
        seat,
        Bytes::from_static(value),
        &mut First,
        turns,
    )
}

fn reads_behind<L: StoreName, R: Threads + Wait + Sync>(
    rt: &R,
    store: &Store<L>,
    seat: &mut Seat<L>,
    learnt: &Receipt,
) -> Answer {
    seat.learn(learnt);
    read(rt, store, seat, &mut First, ENOUGH_TURNS)
}

// A write, or a read once a receipt is learnt.
fn calls<L: StoreName, R: Threads + Wait + Sync>(
    rt: &R,
    store: &Store<L>,
    seat: &mut Seat<L>,
    learnt: Option<&Receipt>,
) -> Answer {
    match learnt {
        Some(receipt) => reads_behind(rt, store, seat, receipt),
        None => writes(rt, store, seat, HELLO, ENOUGH_TURNS),
    }
}

fn calls_apart<L: StoreName + Send + Sync, R: Threads + Wait + Sync>(
    rt: &R,
    store: &Store<L>,
    seat: &mut Seat<L>,
    learnt: Option<&Receipt>,
) -> Answer {
    let (answer, ()) = join(rt, move || calls(rt, store, seat, learnt), || ());
    answer
}

// One seat writes; the other learns the receipt and reads. Each does so in a thread of its own. Its floor is then the
// greatest answer step that it has seen.
fn pass_on<L: StoreName + Send + Sync, R: Threads + Wait + Abort + Sync>(
    rt: &R,
    store: &Store<L>,
    first: &mut Seat<L>,
    second: &mut Seat<L>,
) {
    assert!(rt; first.floor() == 0 && second.floor() == 0);
    let written = receipt_of(rt, calls_apart(rt, store, first, None));
    assert!(rt; first.floor() == written.answered && second.floor() == 0);
    let called = called_with(rt, calls_apart(rt, store, second, Some(&written)), HELLO);
    assert!(rt; written.answered < called && called < second.floor());
}

pub(crate) fn learns<L: StoreName + Send + Sync, R: Threads + Wait + Abort + Sync>(
    rt: &R,
    store: &Store<L>,
    seats: &mut Vec<Seat<L>>,
) {
    let mut second = take_seat(rt, seats);
    let mut first = take_seat(rt, seats);
    pass_on(rt, store, &mut first, &mut second);
    put_seat(rt, seats, first);
    put_seat(rt, seats, second);
}

#[test]
fn a_receipt_is_learnt(rt: HostRuntime) {
    perform(
        &rt,
        rt.alloc(),
        Play {
            scene: Scene::Learns,
            servers: Servers::KeepAll,
            seats: 2,
            workers: 2,
            closing: Ok(2),
            calls: 2,
        },
    );
}

pub(crate) const LEFT: &[u8] = b"left";

const MADE: &[u8] = b"made";

// A seat without a call has none to resume.
pub(crate) fn resumes_nothing<L: StoreName, R: Threads + Wait + Abort + Sync>(
    rt: &R,
    store: &Store<L>,
    seat: &mut Seat<L>,
    refusal: Refusal,
) {
    is_refused(
        rt,
        resume(rt, store, seat, &mut First, ENOUGH_TURNS),
        refusal,
    );
    assert!(rt; !seat.is_pending());
}

// A write is left open after three turns and abandoned, and another is made. It answers when that is answered.
fn leaves_and_writes<L: StoreName, R: Threads + Wait + Abort + Sync>(
    rt: &R,
    store: &Store<L>,
    seat: &mut Seat<L>,
) -> u64 {
    is_refused(rt, writes(rt, store, seat, LEFT, 3), Refusal::GaveUp);
    is_refused(
        rt,
        writes(rt, store, seat, MADE, ENOUGH_TURNS),
        Refusal::NotNow,
    );
    seat.abandon();
    receipt_of(rt, writes(rt, store, seat, MADE, ENOUGH_TURNS)).answered
}

fn written(call: CallId, called: u64, answered: Option<u64>, value: &'static [u8]) -> Entry {
    Entry {
        call,
        kind: Operation::Write,
        called,
        answered,
        value: Some(Bytes::from_static(value)),
    }
}

fn is_entry(rt: &impl Abort, entry: Option<&Entry>, expected: &Entry) {
    assert!(rt; entry == Some(expected));
}

pub(crate) fn has_both(rt: &impl Abort, cluster: &Cluster, answered: u64) {
    let entries = cluster.entries("a").expect(rt, "the object's history");
    assert!(rt; entries.len() == 2);
    is_entry(rt, entries.first(), &written(1, 3, None, LEFT));
    is_entry(rt, entries.last(), &written(2, 7, Some(answered), MADE));
}

pub(crate) fn abandons<L: StoreName, R: Threads + Wait + Abort + Sync>(
    rt: &R,
    store: &Store<L>,
    seats: &mut Vec<Seat<L>>,
    tally: &Tally,
) {
    let mut seat = take_seat(rt, seats);
    resumes_nothing(rt, store, &mut seat, Refusal::NoCall);
    tally.note_answered(leaves_and_writes(rt, store, &mut seat));
    resumes_nothing(rt, store, &mut seat, Refusal::NoCall);
    put_seat(rt, seats, seat);
}

#[test]
fn an_abandoned_call_stays_open(rt: HostRuntime) {
    perform(
        &rt,
        rt.alloc(),
        Play {
            scene: Scene::Abandons,
            servers: Servers::KeepAll,
            seats: 1,
            workers: 0,
            closing: Ok(1),
            calls: 2,
        },
    );
}

// A receipt that no store gave.
