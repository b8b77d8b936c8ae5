//! Values that many workers code.

use crate::coding::{code, has_fragments};
use crate::crowd::Crowd;
use crate::hold::Hold;
use crate::log::Log;
use bytes::Bytes;
use coding_pool::{NoGate, encode_all};
use std::alloc::Global;
use std::process::Abort;
use std::sync::Wait;
use std::thread::Threads;
use tag::{LONGEST_VALUE, Refusal};

/// The pieces of `hello`, 2 of 4.
const HELLO: &[&[u8]] = &[b"hel", b"\x04\x0a\x6c", b"\xb0\xbb\x6c", b"\xdc\xd4\x6c"];

fn works_beside_a_held_one<R: Threads + Wait + Abort + Sync>(rt: &R, alloc: Global) {
    let gate = Hold::new();
    has_fragments(rt, &code(rt, alloc, 2, &gate, 2, 4, b"hello"), HELLO);
    assert!(rt; gate.has_overlapped());
}

#[test]
fn a_held_worker_stops_no_other(rt: HostRuntime) {
    works_beside_a_held_one(&rt, rt.alloc());
}

// There is a job for each of 64 workers.
fn all_work_at_once<R: Threads + Wait + Abort + Sync>(rt: &R, alloc: Global, workers: usize) {
    let gate = Crowd::new(workers);
    code(rt, alloc, workers, &gate, 2, 64, b"hello");
    assert!(rt; gate.has_met(), "{workers}");
}

#[test]
fn as_many_work_at_once_as_were_asked_for(rt: HostRuntime) {
    for workers in [1, 2, 3, 5, 64] {
        all_work_at_once(&rt, rt.alloc(), workers);
    }
}

/// What Intel ISA-L's `ec_encode_data` gives for 4 of 7 pieces of the value below.
const ISA_L: &[&[u8]] = &[
    b"any k of n",
    b"\x50\x5b\x14\x49\x0d\x5e\x1c\x66\x30\x63",
    b"\xe3\x1a\xe9\x6c\x53\xc0\x0f\xa6\x25\x19",
    b"\x91\xef\xad\x5e\x40\x9d\x3f\xa6\x35\x14",
    b"\x8a\x45\x7f\x52\x26\x0b\xd8\xdc\xbe\x29",
    b"\x2c\xca\xe4\xfc\x63\xbf\x3c\xdc\xae\x24",
    b"\x2a\x7f\xba\xfc\x91\xee\x9a\x1c\xbb\x5e",
];

// The gate is told of each piece that often.
fn codes_as_one<R: Threads + Wait + Abort + Sync>(
    rt: &R,
    alloc: Global,
    workers: usize,
    times: usize,
) {
    let gate = Log::new(rt, alloc, 7);
    let value = b"any k of n pieces determine the value";
    has_fragments(rt, &code(rt, alloc, workers, &gate, 4, 7, value), ISA_L);
    gate.is_told_each(rt, times);
}

#[test]
fn any_number_of_workers_codes_as_one(rt: HostRuntime) {
    for (workers, times) in [(0, 0), (1, 1), (2, 1), (64, 1)] {
        codes_as_one(&rt, rt.alloc(), workers, times);
    }
}

// One more worker than there may be.
fn is_refused<R: Threads + Wait + Abort + Sync>(
    rt: &R,
    alloc: Global,
    k: u8,
    value: Bytes,
    refusal: Refusal,
) {
    let coded = encode_all(rt, alloc, 65, &NoGate, k, 1, value);
    assert_eq!(rt; coded.expect_err(rt, "a refusal"), refusal);
}

#[test]
fn refuses_the_layout_first_and_the_workers_last(rt: HostRuntime) {
    is_refused(&rt, rt.alloc(), 1, Bytes::from_static(b"A"), Refusal::Full);
    is_refused(
        &rt,
        rt.alloc(),
        0,
        Bytes::from_static(b"A"),
        Refusal::BadLayout,
    );
}

fn long_value(rt: &impl Abort, alloc: Global) -> Bytes {
    let value = vec![in alloc; 0; LONGEST_VALUE + 1].expect(rt, "memory for a long value");
    Bytes::from_vec(value).expect(rt, "memory for its owners")
}

#[test]
fn refuses_a_long_value(rt: HostRuntime) {
    let value = long_value(&rt, rt.alloc());
    is_refused(&rt, rt.alloc(), 1, value, Refusal::TooLong);
}
