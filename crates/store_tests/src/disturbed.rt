//! Many calls of two clients, while messages are lost and repeated.

use crate::crew::{Part, work};
use crate::scene::{Play, Scene, perform};
use crate::servers::Servers;
use crate::tally::Tally;
use crate::varied::Varied;
use client::{Seat, Store, StoreName};
use std::alloc::Global;
use std::process::Abort;
use std::sync::Wait;
use std::thread::{Threads, join};

const BOTH: Part = Part {
    calls: 100,
    alternates: true,
};

const DISTURBANCES: u64 = 1_000;

/// The least number of them that find a message.
const LEAST_FOUND: u64 = 100;

fn disturb<L: StoreName, R: Wait + Abort>(rt: &R, store: &Store<L>, chooser: &mut Varied) -> bool {
    let disturbed = store.disturb(rt, "a", chooser);
    disturbed.expect(rt, "a message is lost or repeated, or there is none")
}

// Loses and repeats messages, five for each call that is begun.
fn disturbs<L: StoreName, R: Wait + Abort>(rt: &R, store: &Store<L>, tally: &Tally) {
    let mut chooser = Varied {
        state: 0,
        mask: u64::MAX,
    };
    let mut found = 0u64;
    for number in 0..DISTURBANCES {
        tally.wait_for_more(number / 5);
        if disturb(rt, store, &mut chooser) {
            found = found.saturating_add(1);
        }
    }
    assert!(rt; found >= LEAST_FOUND);
}

// Both clients, and the thread that disturbs them.
pub(crate) fn endures<L: StoreName + Send + Sync, R: Threads + Wait + Abort + Sync>(
    rt: &R,
    alloc: Global,
    store: &Store<L>,
    seats: &mut Vec<Seat<L>>,
    tally: &Tally,
) {
    join(
        rt,
        move || work(rt, alloc, store, seats, BOTH, tally),
        move || disturbs(rt, store, tally),
    );
}

#[test]
fn disturbed_calls_are_answered(rt: HostRuntime) {
    perform(
        &rt,
        rt.alloc(),
        Play {
            scene: Scene::Endures,
            servers: Servers::KeepAll,
            seats: 2,
            workers: 2,
            closing: Ok(200),
            calls: 200,
        },
    );
}
