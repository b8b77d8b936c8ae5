//! Writers and readers of one object whose banks collect.

use crate::crew::{Part, work};
use crate::scene::{Play, Scene, perform};
use crate::servers::Servers;
use crate::tally::Tally;
use client::{Seat, Store, StoreName};
use std::alloc::Global;
use std::process::Abort;
use std::sync::Wait;
use std::thread::Threads;

/// Four writers and four readers.
pub(crate) const EIGHT: Part = Part {
    calls: 20,
    alternates: false,
};

// All calls are answered.
pub(crate) fn collects<L: StoreName + Send + Sync, R: Threads + Wait + Abort + Sync>(
    rt: &R,
    alloc: Global,
    store: &Store<L>,
    seats: &mut Vec<Seat<L>>,
    tally: &Tally,
) {
    work(rt, alloc, store, seats, EIGHT, tally)
}

#[test]
fn the_newest_version_is_kept(rt: HostRuntime) {
    perform(
        &rt,
        rt.alloc(),
        Play {
            scene: Scene::Collects { delta: 0 },
            servers: Servers::Collect { delta: 0 },
            seats: 8,
            workers: 2,
            closing: Ok(160),
            calls: 160,
        },
    );
}

#[test]
fn the_two_newest_versions_are_kept(rt: HostRuntime) {
    perform(
        &rt,
        rt.alloc(),
        Play {
            scene: Scene::Collects { delta: 1 },
            servers: Servers::Collect { delta: 1 },
            seats: 8,
            workers: 2,
            closing: Ok(160),
            calls: 160,
        },
    );
}
