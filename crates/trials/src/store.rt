//! One write and one read through a store of threads with one seat and no workers, made again if memory is refused
//! once.
ghost use Rattle.std.specs.Prelude.{◌≡◌, ◌+◌};

use bytes::Bytes;
use client::{First, Seat, Store, StoreName};
use cluster::Cluster;
use layout::Layout;
use register::Receipt;
use std::alloc::Global;
use std::marker::Brand;
use std::sync::Wait;
use std::sync::ledger::Blank;
use std::thread::Threads;
use tag::Refusal;

// More turns than a call here takes.
const ENOUGH_TURNS: u64 = 100_000;

const HELLO: &[u8] = b"hello";

/// Plays the story, and prints the receipts of the close. A store that could not be opened or closed for want of memory
/// is played again from its beginning. Returns whether it came to its end.
pub(crate) fn play<R: Threads + Wait + Sync>(rt: &R, host: &HostRuntime) -> bool {
    let receipts = match play_once(rt, host.alloc()) {
        Err(Refusal::NoMemory) => play_once(rt, host.alloc()),
        answer => answer,
    };
    match receipts {
        Ok(receipts) => println!(host; "receipts {receipts}").is_ok(),
        Err(_) => false,
    }
}

fn play_once<R: Threads + Wait + Sync>(rt: &R, alloc: Global) -> Result<u64, Refusal> {
    play_named::<Brand, R>(rt, alloc, Blank::new(2), four_servers(alloc)?)
}

/// Opens a store over a cluster, writes and reads, and closes it. Returns the receipts of the close.
///
/// Is refused with `NoMemory` if the store could not be opened or closed, or memory was refused twice to one call; with
/// `WrongCode` if what was read is not what was written.
fn play_named<L: StoreName, R: Threads + Wait + Sync>(
    rt: &R,
    alloc: Global,
    blank: Blank,
    cluster: Cluster,
) -> Result<u64, Refusal>
    requires first { cluster ≡ L.first }
    requires name { blank.name ≡ L.name }
    requires parts { (blank.parts ≡ L.parts) × (blank.parts ≡ L.seats + 1) × (1 ≡ L.seats) }
{
    let (store, mut seats, _admin) = Store::<L>::open(alloc, blank, cluster, 1, 0)?;
    write_and_read(rt, &store, &mut seats)?;
    match store.close(seats) {
        Ok(closed) => Ok(closed.receipts),
        Err(left) => Err(left.refusal),
    }
}

/// Four servers, one layout of all with k 2, and the object `a`.
fn four_servers(alloc: Global) -> Result<Cluster, Refusal> {
    let mut cluster = Cluster::new(alloc, 4);
    let layout = cluster.add_layout(Layout::new(2, &[0, 1, 2, 3])?)?;
    cluster.create("a", layout)?;
    Ok(cluster)
}

fn write_and_read<L: StoreName, R: Threads + Wait + Sync>(
    rt: &R,
    store: &Store<L>,
    seats: &mut [Seat<L>],
) -> Result<(), Refusal> {
    let seat = seats.first_mut().ok_or(Refusal::Stranger)?;
    insist(rt, store, seat, true)?;
    match insist(rt, store, seat, false)?.value {
        Some(value) if value.as_slice() == HELLO => Ok(()),
        _ => Err(Refusal::WrongCode),
    }
}

// A whole write or read. Where memory is refused, it is resumed, or made again if its call step was not made.
fn insist<L: StoreName, R: Threads + Wait + Sync>(
    rt: &R,
    store: &Store<L>,
    seat: &mut Seat<L>,
    writes: bool,
) -> Result<Receipt, Refusal> {
    match begin_or_resume(rt, store, seat, writes) {
        Err(Refusal::NoMemory) => begin_or_resume(rt, store, seat, writes),
        answer => answer,
    }
}

fn begin_or_resume<L: StoreName, R: Threads + Wait + Sync>(
    rt: &R,
    store: &Store<L>,
    seat: &mut Seat<L>,
    writes: bool,
) -> Result<Receipt, Refusal> {
    if seat.is_pending() {
        return store.resume(rt, seat, &mut First, ENOUGH_TURNS);
    }
    if writes {
        store.write(
            rt,
            seat,
            "a",
            Bytes::from_static(HELLO),
            &mut First,
            ENOUGH_TURNS,
        )
    } else {
        store.read(rt, seat, "a", &mut First, ENOUGH_TURNS)
    }
}
