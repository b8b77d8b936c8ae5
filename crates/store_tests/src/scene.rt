//! The store of a test: what is done at it, and what is to be found at its close. A store is opened in a function over
//! its name, which is picked here, once for all tests.

ghost use Rattle.std.specs.Prelude.{◌≡◌, ◌+◌};

use crate::anew::begins_anew;
use crate::coding::leaves_the_lock_free;
use crate::collected::collects;
use crate::crew::has_a_sequence;
use crate::disturbed::endures;
use crate::ends::{Closing, close};
use crate::greatest::chooses_the_greatest;
use crate::kept::keeps_few;
use crate::moved::tells_of_a_move;
use crate::resumed::administers;
use crate::retired::{retires, stores_the_last_alone};
use crate::seats::{abandons, has_both, learns};
use crate::servers::{Servers, cluster_of};
use crate::strangers::strangers;
use crate::tally::Tally;
use crate::turns::{gives_up, was_called};
use client::{Admin, Opened, Seat, Store, StoreName};
use cluster::Cluster;
use std::alloc::Global;
use std::marker::Brand;
use std::process::Abort;
use std::sync::Wait;
use std::sync::ledger::Blank;
use std::thread::Threads;

/// What is done at a store while it is open.
#[derive(Clone, Copy)]
pub(crate) enum Scene {
    Abandons,
    Administers,
    BeginsAnew,
    ChoosesTheGreatest,
    Collects { delta: u32 },
    Endures,
    GivesUp,
    Learns,
    LeavesTheLockFree { writes: bool },
    Retires,
    Strangers,
    TellsOfAMove,
}

/// A store with so many seats and coding workers, what is done at it, what its close is to tell, and how many calls
/// there are then to be.
#[derive(Clone, Copy)]
pub(crate) struct Play {
    pub(crate) scene: Scene,
    pub(crate) servers: Servers,
    pub(crate) seats: u32,
    pub(crate) workers: usize,
    pub(crate) closing: Closing,
    pub(crate) calls: u64,
}

/// Opens a store, acts at it, closes it, and looks at the cluster that it leaves.
pub(crate) fn perform<R: Threads + Wait + Abort + Sync>(rt: &R, alloc: Global, play: Play) {
    let blank = Blank::new(u64::from(play.seats) + 1);
    let cluster = cluster_of(rt, alloc, play.servers);
    perform_named::<Brand, R>(rt, alloc, blank, cluster, play)
}

// Does what `perform` does, with a store whose name is the type `L`.
fn perform_named<L: StoreName + Send + Sync, R: Threads + Wait + Abort + Sync>(
    rt: &R,
    alloc: Global,
    blank: Blank,
    cluster: Cluster,
    play: Play,
)
    requires first { cluster ≡ L.first }
    requires name { blank.name ≡ L.name }
    requires parts { (blank.parts ≡ L.parts) × (blank.parts ≡ L.seats + 1) × (play.seats ≡ L.seats) }
{
    let opened = Store::<L>::open(alloc, blank, cluster, play.seats, play.workers);
    let tally = Tally::new();
    let cluster = act_and_close(rt, alloc, opened.expect(rt, "a store"), &tally, play);
    look_at(rt, alloc, &cluster, &tally, play.scene)
}

fn act_and_close<L: StoreName + Send + Sync, R: Threads + Wait + Abort + Sync>(
    rt: &R,
    alloc: Global,
    opened: Opened<L>,
    tally: &Tally,
    play: Play,
) -> Cluster {
    let (store, mut seats, mut admin) = opened;
    act(rt, alloc, &store, &mut seats, &mut admin, tally, play.scene);
    close(rt, store, seats, play.closing, play.calls)
}

fn act<L: StoreName + Send + Sync, R: Threads + Wait + Abort + Sync>(
    rt: &R,
    alloc: Global,
    store: &Store<L>,
    seats: &mut Vec<Seat<L>>,
    admin: &mut Admin<L>,
    tally: &Tally,
    scene: Scene,
) {
    match scene {
        Scene::Abandons => abandons(rt, store, seats, tally),
        Scene::Administers => administers(rt, store, admin, seats),
        Scene::BeginsAnew => begins_anew(rt, store, seats),
        Scene::ChoosesTheGreatest => chooses_the_greatest(rt, store, seats),
        Scene::Collects { .. } => collects(rt, alloc, store, seats, tally),
        Scene::Endures => endures(rt, alloc, store, seats, tally),
        Scene::GivesUp => gives_up(rt, store, admin, seats),
        Scene::Learns => learns(rt, store, seats),
        Scene::LeavesTheLockFree { writes } => leaves_the_lock_free(rt, store, seats, writes),
        Scene::Retires => retires(rt, alloc, store, admin, seats, tally),
        Scene::Strangers => strangers(rt, store, seats),
        Scene::TellsOfAMove => tells_of_a_move(rt, store, admin, seats),
    }
}

// The sequences have all calls that are answered.
fn look_at(rt: &impl Abort, alloc: Global, cluster: &Cluster, tally: &Tally, scene: Scene) {
    match scene {
        Scene::Abandons => has_both(rt, cluster, tally.answered()),
        Scene::Collects { delta } => {
            has_a_sequence(rt, alloc, cluster, 160);
            keeps_few(rt, cluster, delta)
        }
        Scene::Endures => has_a_sequence(rt, alloc, cluster, 200),
        Scene::GivesUp => was_called(rt, cluster),
        Scene::Retires => {
            has_a_sequence(rt, alloc, cluster, 161);
            stores_the_last_alone(rt, cluster)
        }
        _ => (),
    }
}
