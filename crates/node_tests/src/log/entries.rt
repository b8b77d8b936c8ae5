//! Entries written and read back.
use super::damage::ends;
use super::limits::zeros;
use super::sample::{SET, SET_AND_NOTHING, set};
use crate::checks::{assert_bytes, assert_strings, strings};
use frames::{Fault, FrameError, MOST_STRINGS};
use node_log::{Chain, Entry, read_entry, write_entry};
use std::alloc::Global;
use std::process::Abort;

#[test]
fn an_entry(rt: HostRuntime) {
    let mut out = Vec::new(rt.alloc());
    write_entry(&mut out, Chain::new(), &set(&rt, rt.alloc())).expect(&rt, "memory");
    assert_bytes(&rt, &out, SET);
}

/// The next entry of the log, behind this chain, has these strings.
fn assert_next<R: Abort>(
    rt: &R,
    alloc: Global,
    log: &mut &[u8],
    chain: &mut Chain,
    wanted: &[&[u8]],
) {
    let entry = read_entry(alloc, log, *chain)
        .expect(rt, "no damage")
        .expect(rt, "an entry");
    chain.pass(&entry);
    assert_strings(rt, entry.strings(), &strings(rt, alloc, wanted));
}

#[test]
fn two_entries_in_a_row(rt: HostRuntime) {
    let mut rest: &[u8] = SET_AND_NOTHING;
    let mut chain = Chain::new();
    let first: &[&[u8]] = &[b"SET", b"photo", b"hello"];
    assert_next(&rt, rt.alloc(), &mut rest, &mut chain, first);
    assert_next(&rt, rt.alloc(), &mut rest, &mut chain, &[]);
    assert!(rt; ends(rt.alloc(), rest));
}

#[test]
fn the_strings_come_back(rt: HostRuntime) {
    let found = set(&rt, rt.alloc()).into_strings();
    let wanted = strings(&rt, rt.alloc(), &[b"SET", b"photo", b"hello"]);
    assert_strings(&rt, &found, &wanted);
}

#[test]
fn a_string_too_many(rt: HostRuntime) {
    let refused = Entry::new(rt.alloc(), zeros(&rt, rt.alloc(), MOST_STRINGS + 1, 0));
    assert!(rt; matches!(refused, Err(FrameError::Fault(Fault::TooManyStrings))));
}
