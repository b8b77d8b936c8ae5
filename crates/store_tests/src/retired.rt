//! Writers and readers of one object, while the administrator moves it and retires what it leaves.

use crate::acts::{Answer, ENOUGH_TURNS, put_seat, take_seat};
use crate::anew::{is_collected_and_answered, reads_up_to_its_fetch};
use crate::collected::EIGHT;
use crate::crew::work;
use crate::ends::{are_equal, is_answered};
use crate::scene::{Play, Scene, perform};
use crate::servers::Servers;
use crate::tally::Tally;
use client::{Admin, First, Seat, Store, StoreName};
use cluster::Cluster;
use std::alloc::Global;
use std::process::Abort;
use std::sync::Wait;
use std::thread::{Threads, join};
use tag::Refusal;

/// The moves of the administrator, each with the position that it leaves retired.
const MOVES: u32 = 6;

/// The calls of clients between two moves.
const CALLS_BETWEEN: u64 = 20;

fn retire<L: StoreName, R: Wait>(
    rt: &R,
    store: &Store<L>,
    admin: &mut Admin<L>,
    position: u32,
) -> Result<u64, Refusal> {
    store.retire(rt, admin, "a", u64::from(position))
}

fn is_not_retired<L: StoreName, R: Wait + Abort>(
    rt: &R,
    store: &Store<L>,
    admin: &mut Admin<L>,
    position: u32,
) {
    assert_eq!(rt; retire(rt, store, admin, position), Err(Refusal::NotNow));
}

// A move out of a position, to the other layout.
fn move_on<L: StoreName, R: Threads + Wait + Sync>(
    rt: &R,
    store: &Store<L>,
    admin: &mut Admin<L>,
    position: u32,
) -> Answer {
    let layout = if position % 2 == 0 { 1 } else { 0 };
    store.move_object(rt, admin, "a", layout, &mut First, ENOUGH_TURNS)
}

// A position is not retired before the move out of it is answered, and is afterwards, once.
fn moves_and_retires<L: StoreName, R: Threads + Wait + Abort + Sync>(
    rt: &R,
    store: &Store<L>,
    admin: &mut Admin<L>,
    position: u32,
) {
    is_not_retired(rt, store, admin, position);
    is_answered(rt, move_on(rt, store, admin, position));
    assert!(rt; retire(rt, store, admin, position).is_ok());
    is_not_retired(rt, store, admin, position);
}

// Six moves and as many positions retired are the administrator's orders, while clients call.
fn administers<L: StoreName, R: Threads + Wait + Abort + Sync>(
    rt: &R,
    store: &Store<L>,
    admin: &mut Admin<L>,
    tally: &Tally,
) {
    for position in 0..MOVES {
        tally.wait_for_more(u64::from(position) * CALLS_BETWEEN);
        moves_and_retires(rt, store, admin, position);
    }
    are_equal(rt, admin.orders(), 12);
}

fn all_work<L: StoreName + Send + Sync, R: Threads + Wait + Abort + Sync>(
    rt: &R,
    alloc: Global,
    store: &Store<L>,
    admin: &mut Admin<L>,
    seats: &mut Vec<Seat<L>>,
    tally: &Tally,
) {
    join(
        rt,
        move || administers(rt, store, admin, tally),
        move || work(rt, alloc, store, seats, EIGHT, tally),
    );
}

// A read that began before all of them is about to fetch in a position that is retired by then: it is collected, and
// then begins anew.
pub(crate) fn retires<L: StoreName + Send + Sync, R: Threads + Wait + Abort + Sync>(
    rt: &R,
    alloc: Global,
    store: &Store<L>,
    admin: &mut Admin<L>,
    seats: &mut Vec<Seat<L>>,
    tally: &Tally,
) {
    let mut early = take_seat(rt, seats);
    reads_up_to_its_fetch(rt, store, &mut early);
    all_work(rt, alloc, store, admin, seats, tally);
    is_answered(rt, is_collected_and_answered(rt, store, &mut early));
    put_seat(rt, seats, early);
}

/// All positions but the last are retired, and only the last one's banks store pieces.
pub(crate) fn stores_the_last_alone(rt: &impl Abort, cluster: &Cluster) {
    let register = cluster.register("a").expect(rt, "the object");
    assert!(rt; register.base() == MOVES);
    let mut stored = 0u64;
    for server in 0..4u8 {
        stored = stored.saturating_add(register.stored_at_base(server));
    }
    assert!(rt; stored > 0);
    are_equal(rt, cluster.stored_all(), stored);
}

#[test]
fn positions_are_retired_under_clients(rt: HostRuntime) {
    perform(
        &rt,
        rt.alloc(),
        Play {
            scene: Scene::Retires,
            servers: Servers::TwoLayouts,
            seats: 9,
            workers: 2,
            closing: Ok(161),
            calls: 167,
        },
    );
}
