//! A read whose version is collected before it is fetched, and which begins anew.

use crate::acts::{Answer, ENOUGH_TURNS, HELLO, put_seat, read, resume, take_seat, write};
use crate::ends::{has_value, is_answered, is_refused};
use crate::scene::{Play, Scene, perform};
use crate::servers::Servers;
use bytes::Bytes;
use client::{First, Seat, Store, StoreName};
use std::process::Abort;
use std::sync::Wait;
use std::thread::Threads;
use tag::Refusal;

/// The turns of a read up to its fetch.
const BEFORE_FETCH: u64 = 16;

const NEWER: &[u8] = b"newer";

/// A read is left open right before its fetch.
pub(crate) fn reads_up_to_its_fetch<L: StoreName, R: Threads + Wait + Abort + Sync>(
    rt: &R,
    store: &Store<L>,
    reader: &mut Seat<L>,
) {
    let begun = read(rt, store, reader, &mut First, BEFORE_FETCH);
    is_refused(rt, begun, Refusal::GaveUp);
}

/// The version that a read was about to fetch is gone: the read is collected, and then begins anew.
pub(crate) fn is_collected_and_answered<L: StoreName, R: Threads + Wait + Abort + Sync>(
    rt: &R,
    store: &Store<L>,
    reader: &mut Seat<L>,
) -> Answer {
    is_refused(
        rt,
        resume(rt, store, reader, &mut First, ENOUGH_TURNS),
        Refusal::Collected,
    );
    resume(rt, store, reader, &mut First, ENOUGH_TURNS)
}

fn writes<L: StoreName, R: Threads + Wait + Abort + Sync>(
    rt: &R,
    store: &Store<L>,
    writer: &mut Seat<L>,
    value: &'static [u8],
) {
    let value = Bytes::from_static(value);
    is_answered(
        rt,
        write(rt, store, writer, value, &mut First, ENOUGH_TURNS),
    );
}

// While a read is about to fetch the first value another is written. The read is collected, and then it has the other.
fn reads_anew<L: StoreName, R: Threads + Wait + Abort + Sync>(
    rt: &R,
    store: &Store<L>,
    writer: &mut Seat<L>,
    reader: &mut Seat<L>,
) {
    writes(rt, store, writer, HELLO);
    reads_up_to_its_fetch(rt, store, reader);
    writes(rt, store, writer, NEWER);
    has_value(rt, is_collected_and_answered(rt, store, reader), NEWER);
}

pub(crate) fn begins_anew<L: StoreName, R: Threads + Wait + Abort + Sync>(
    rt: &R,
    store: &Store<L>,
    seats: &mut Vec<Seat<L>>,
) {
    let mut reader = take_seat(rt, seats);
    let mut writer = take_seat(rt, seats);
    reads_anew(rt, store, &mut writer, &mut reader);
    put_seat(rt, seats, writer);
    put_seat(rt, seats, reader);
}

#[test]
fn a_read_begins_anew(rt: HostRuntime) {
    perform(
        &rt,
        rt.alloc(),
        Play {
            scene: Scene::BeginsAnew,
            servers: Servers::Collect { delta: 0 },
            seats: 2,
            workers: 0,
            closing: Ok(3),
            calls: 3,
        },
    );
}
