//! An example that embeds a `Store`, the cluster under one lock that client threads share. It writes a value through a
//! seat, moves the object to another layout, reads the value back, and closes the store.

ghost use Rattle.std.specs.Prelude.{◌≡◌, ◌+◌};

use bytes::Bytes;
use client::{Admin, First, Seat, Store, StoreName};
use cluster::Cluster;
use layout::Layout;
use std::alloc::Global;
use std::marker::Brand;
use std::sync::Wait;
use std::sync::ledger::Blank;
use std::thread::Threads;
use tag::Refusal;

/// The name of the object.
const NAME: &str = "greeting";

/// A limit on the turns of one call, above what a call takes here.
const MOST_TURNS: u64 = 1000;

/// The number of seats. The store's blank needs one part for each seat, and one for the store itself.
const SEATS: u32 = 1;

/// No workers: the thread of a seat encodes by itself.
const WORKERS: usize = 0;

/// The value that was read back, and the number of receipts that the close accounts for.
#[derive(Drop)]
pub(crate) struct Outcome {
    pub(crate) value: Bytes,
    pub(crate) receipts: u64,
}

/// Opens the store under a name of its own, and uses it.
pub(crate) fn play<R: Threads + Wait + Sync>(rt: &R, alloc: Global) -> Result<Outcome, Refusal> {
    open_and_close::<Brand, R>(rt, alloc, Blank::new(2), four_servers(alloc)?)
}

/// Opens a store of this name over the cluster, makes the calls, and closes it.
fn open_and_close<L: StoreName, R: Threads + Wait + Sync>(
    rt: &R,
    alloc: Global,
    blank: Blank,
    cluster: Cluster,
) -> Result<Outcome, Refusal>
    requires first { cluster ≡ L.first }
    requires name { blank.name ≡ L.name }
    requires parts { (blank.parts ≡ L.parts) × (blank.parts ≡ L.seats + 1) × (1 ≡ L.seats) }
{
    let (store, mut seats, mut admin) = Store::<L>::open(alloc, blank, cluster, SEATS, WORKERS)?;
    let value = write_move_and_read(rt, &store, &mut seats, &mut admin)?;
    match store.close(seats) {
        Ok(closed) => Ok(Outcome {
            value,
            receipts: closed.receipts,
        }),
        Err(kept) => Err(kept.refusal),
    }
}

/// Writes `hello` to an object of four servers, any two of which give the value back, moves the object, and reads it.
/// With several seats, each thread would borrow one.
fn write_move_and_read<L: StoreName, R: Threads + Wait + Sync>(
    rt: &R,
    store: &Store<L>,
    seats: &mut [Seat<L>],
    admin: &mut Admin<L>,
) -> Result<Bytes, Refusal> {
    let seat = seats.first_mut().ok_or(Refusal::Stranger)?;
    let hello = Bytes::from_static(b"hello");
    store.write(rt, seat, NAME, hello, &mut First, MOST_TURNS)?;
    move_to_three(rt, store, admin)?;
    let receipt = store.read(rt, seat, NAME, &mut First, MOST_TURNS)?;
    receipt.value.ok_or(Refusal::NotNow)
}

/// Moves the object to three servers, each of which keeps the whole value.
fn move_to_three<L: StoreName, R: Threads + Wait + Sync>(
    rt: &R,
    store: &Store<L>,
    admin: &mut Admin<L>,
) -> Result<(), Refusal> {
    let layout = store.add_layout(rt, admin, Layout::new(1, &[1, 2, 3])?)?;
    store.move_object(rt, admin, NAME, layout, &mut First, MOST_TURNS)?;
    Ok(())
}

/// Returns a cluster of four servers, with the object.
fn four_servers(alloc: Global) -> Result<Cluster, Refusal> {
    let mut cluster = Cluster::new(alloc, 4);
    let layout = cluster.add_layout(Layout::new(2, &[0, 1, 2, 3])?)?;
    cluster.create(NAME, layout)?;
    Ok(cluster)
}
