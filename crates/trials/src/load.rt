//! A load whose time is measured: calls through one store, with a thread for each client.
ghost use Rattle.std.specs.Prelude.{◌≡◌, ◌+◌, ◌*◌, ◌≤◌, IfOk};
ghost use Rattle.tag.specs.declared.limits.TheConstants.{MOST_SEATS};

use bytes::Bytes;
use client::{First, Seat, Store, StoreName};
use cluster::Cluster;
use layout::Layout;
use register::Receipt;
use std::alloc::Global;
use std::marker::Brand;
use std::sync::Wait;
use std::sync::ledger::Blank;
use std::thread::{JoinHandle, Scope, Threads};
use std::time::{Clock, CpuClock, Duration};
use std::{io, thread};
use tag::{MOST_SEATS, Refusal};

/// The name of the one object.
const NAME: &str = "a";

/// The greatest number of turns of each call.
const MOST_TURNS: u64 = 1_000_000;

/// A load of calls on one object: each client makes a write and a read in turn.
#[derive(Clone, Copy, Debug, PartialEq, Eq)]
pub(crate) struct Load {
    /// How many clients work.
    pub(crate) clients: u32,
    /// How many calls each client makes.
    pub(crate) calls: u64,
    /// The length of each written value, in bytes.
    pub(crate) length: usize,
    /// How many messages of the object a client handles after each of its calls, whichever calls they belong to.
    pub(crate) late: u32,
}

/// How many calls were made, and how many nanoseconds they took. A time is 0 if its clock could not be read.
#[derive(Clone, Copy, Debug, PartialEq, Eq)]
pub(crate) struct Timing {
    /// How many receipts the closed store has.
    pub(crate) calls: u64,
    /// The nanoseconds that passed by the monotonic clock.
    pub(crate) clock: u128,
    /// The nanoseconds of processor time that the program used meanwhile.
    pub(crate) processors: u128,
}

/// Opens a store of five servers, any three of which give a value back, without workers, and measures the calls of a
/// load. It returns a timing only if the closed store has a receipt for each call.
///
/// Is refused with `Full` if there are more than `MOST_SEATS` clients, with `NotNow` if there are fewer receipts, and
/// otherwise with the refusal of a call. It is also refused with `NoMemory` if a thread cannot be started.
pub(crate) fn run_load<R: Threads + Wait + Clock + CpuClock + Sync>(
    rt: &R,
    alloc: Global,
    load: Load,
) -> Result<Timing, Refusal>
    ensures { IfOk result (λ timing. timing.calls ≡ load.clients * load.calls) }
{
    if load.clients > MOST_SEATS {
        return Err(Refusal::Full);
    }
    let parts = load.clients as u64 + 1;
    let cluster = five_servers(alloc)?;
    let timing = load_named::<Brand, R>(rt, alloc, Blank::new(parts), cluster, load)?;
    match (load.clients as u64).checked_mul(load.calls) {
        Some(all) if all == timing.calls => Ok(timing),
        _ => Err(Refusal::NotNow),
    }
}

// Runs the load in a store of this name. The calls of the result are the receipts that the close counts.
fn load_named<L: StoreName + Send + Sync, R: Threads + Wait + Clock + CpuClock + Sync>(
    rt: &R,
    alloc: Global,
    blank: Blank,
    cluster: Cluster,
    load: Load,
) -> Result<Timing, Refusal>
    requires first { cluster ≡ L.first }
    requires name { blank.name ≡ L.name }
    requires parts { (blank.parts ≡ L.parts) × (blank.parts ≡ L.seats + 1) × (load.clients ≡ L.seats) }
{
    let value = value_of(alloc, load.length)?;
    let (store, seats, _admin) = Store::<L>::open(alloc, blank, cluster, load.clients, 0)?;
    let (clock, processors) = times(rt);
    let seats = call_all(rt, alloc, &store, seats, &value, load)?;
    let (clock_after, processors_after) = times(rt);
    match store.close(seats) {
        Ok(closed) => Ok(Timing {
            calls: closed.receipts,
            clock: clock_after.saturating_sub(clock),
            processors: processors_after.saturating_sub(processors),
        }),
        Err(not_closed) => Err(not_closed.refusal),
    }
}

// The monotonic clock, and the processor time of the program, in nanoseconds.
fn times<R: Clock + CpuClock>(rt: &R) -> (u128, u128) {
    (
        nanoseconds(rt.monotonic()),
        nanoseconds(rt.process_cpu_time()),
    )
}

fn nanoseconds(told: io::Result<Duration>) -> u128 {
    match told {
        Ok(duration) => duration.as_nanos(),
        Err(_) => 0,
    }
}

// A value of this length, whose bytes count up from 0 to 250 and begin again.
fn value_of(alloc: Global, length: usize) -> Result<Bytes, Refusal> {
    let mut bytes = Vec::with_capacity(alloc, length)?;
    for at in 0..length {
        bytes.push((at % 251) as u8)?;
    }
    Ok(Bytes::from_vec(bytes)?)
}

// A cluster of five servers, with the object.
fn five_servers(alloc: Global) -> Result<Cluster, Refusal> {
    let mut cluster = Cluster::new(alloc, 5);
    let layout = cluster.add_layout(Layout::new(3, &[0, 1, 2, 3, 4])?)?;
    cluster.create(NAME, layout)?;
    Ok(cluster)
}

// A thread that makes the calls of a seat, which it returns.
type Started<L> = JoinHandle<Result<Seat<L>, Refusal>>;

// Lets each seat make its calls in a thread of its own, and returns the seats.
fn call_all<L: StoreName + Send + Sync, R: Threads + Wait + Sync>(
    rt: &R,
    alloc: Global,
    store: &Store<L>,
    seats: Vec<Seat<L>>,
    value: &Bytes,
    load: Load,
) -> Result<Vec<Seat<L>>, Refusal> {
    thread::scope(
        thread::scope_env(),
        rt,
        |scope| -> Result<Vec<Seat<L>>, Refusal> {
            call_in(scope, rt, alloc, store, seats, value, load)
        },
    )
}

fn call_in<'s, E, L: StoreName + Send + Sync, R: Threads + Wait + Sync>(
    scope: &Scope<'s, E>,
    rt: &'s R,
    alloc: Global,
    store: &'s Store<L>,
    seats: Vec<Seat<L>>,
    value: &'s Bytes,
    load: Load,
) -> Result<Vec<Seat<L>>, Refusal> {
    let mut started = Vec::with_capacity(alloc, seats.len())?;
    for seat in seats {
        started.push(start(scope, rt, store, seat, value, load))?;
    }
    join_all(rt, alloc, started)
}

// Waits for each thread, and returns the seats.
fn join_all<L: StoreName, R: Threads>(
    rt: &R,
    alloc: Global,
    started: Vec<Result<Started<L>, Refusal>>,
) -> Result<Vec<Seat<L>>, Refusal> {
    let mut ended = Vec::with_capacity(alloc, started.len())?;
    for thread in started {
        ended.push(thread?.join(rt)?)?;
    }
    Ok(ended)
}

fn start<'s, E, L: StoreName + Send + Sync, R: Threads + Wait + Sync>(
    scope: &Scope<'s, E>,
    rt: &'s R,
    store: &'s Store<L>,
    seat: Seat<L>,
    value: &'s Bytes,
    load: Load,
) -> Result<Started<L>, Refusal> {
    match scope.spawn(move || make_calls(rt, store, seat, value, load)) {
        Ok(handle) => Ok(handle),
        Err(_) => Err(Refusal::NoMemory),
    }
}

fn make_calls<L: StoreName, R: Threads + Wait + Sync>(
    rt: &R,
    store: &Store<L>,
    mut seat: Seat<L>,
    value: &Bytes,
    load: Load,
) -> Result<Seat<L>, Refusal> {
    for call in 0..load.calls {
        make_call(rt, store, &mut seat, value, call % 2 == 0)?;
        for _ in 0..load.late {
            store.stir(rt, NAME, &mut First)?;
        }
    }
    Ok(seat)
}

fn make_call<L: StoreName, R: Threads + Wait + Sync>(
    rt: &R,
    store: &Store<L>,
    seat: &mut Seat<L>,
    value: &Bytes,
    writes: bool,
) -> Result<Receipt, Refusal> {
    if writes {
        store.write(rt, seat, NAME, value.clone()?, &mut First, MOST_TURNS)
    } else {
        store.read(rt, seat, NAME, &mut First, MOST_TURNS)
    }
}
