//! The threads in which the clients and the administrator work.
ghost use Rattle.std.specs.Prelude.{◌≡◌, ℕ, IfOk};
ghost use Rattle.std.specs.List.{AllByRecursion};
ghost use Rattle.locked_steps.specs.Moves.{new_admin};
ghost use Rattle.soak.specs.Made.{HasMade, HasMoved, IsUnusedSeat};

use crate::client_thread::{Ended, make_calls};
use crate::counts::Counts;
use crate::moves::{Moved, make_moves};
use crate::watch::watch_all;
use client::{Admin, Seat, Store, StoreName};
use soak_plan::Plan;
use std::alloc::Global;
use std::io::Write;
use std::sync::Wait;
use std::thread;
use std::thread::{Promise, PromisedHandle, Scope, Threads};
use std::time::Clock;
use tag::Refusal;

/// The promise of a client's thread: if it returns a seat, this many calls were made with it.
#[derive(Clone, Copy)]
pub(crate) struct CallsMade(pub(crate) u64);

impl<L: StoreName> Promise<Ended<L>> for CallsMade {
    ghost use Rattle.std.specs.Prelude.{IfOk};
    ghost use Rattle.soak.specs.Made.{HasMade};

    ghost kept_by = { λ promise ended. IfOk ended (λ seat. HasMade L.first promise.0 seat) };
}

/// The promise of the administrator's thread: if it returns the administrator, this many moves were made.
#[derive(Clone, Copy)]
pub(crate) struct MovesMade(pub(crate) u64);

impl<L: StoreName> Promise<Moved<L>> for MovesMade {
    ghost use Rattle.std.specs.Prelude.{IfOk};
    ghost use Rattle.soak.specs.Made.{HasMoved};

    ghost kept_by = { λ promise ended. IfOk ended (λ admin. HasMoved L.first promise.0 admin) };
}

// The thread of a client, or why it could not be started.
type Started<L> = Result<PromisedHandle<Ended<L>, CallsMade>, Refusal>;

// The thread of the administrator, or why it could not be started.
type StartedMoves<L> = Result<PromisedHandle<Moved<L>, MovesMade>, Refusal>;

/// The seats and the administrator, once all threads have ended.
pub(crate) type Worked<L> = (Vec<Seat<L>>, Admin<L>);

/// Lets each client work in a thread of its own, and the administrator in another. Once all threads have ended, returns
/// the seats, each with all calls of the plan made, and the administrator with all moves made. Otherwise returns the
/// refusal of the first client that has one, or else that of the administrator. A thread that cannot be started is
/// refused with `NoMemory`, and the others still run.
pub(crate) fn work_all<L: StoreName + Send + Sync, R: Threads + Wait + Clock + Sync, E: Write>(
    rt: &R,
    alloc: Global,
    store: &Store<L>,
    seats: Vec<Seat<L>>,
    admin: Admin<L>,
    plan: Plan,
    screen: Option<&mut E>,
) -> Result<Worked<L>, Refusal>
    requires seats { AllByRecursion IsUnusedSeat seats.items }
    requires admin { admin ≡ new_admin L.first }
    ensures seats { IfOk result (λ worked. AllByRecursion (HasMade L.first plan.calls) worked.0.items) }
    ensures admin { IfOk result (λ worked. HasMoved L.first plan.moves worked.1) }
{
    let counts = Counts::new();
    thread::scope(
        thread::scope_env(),
        rt,
        |scope| -> Result<Worked<L>, Refusal>
            requires seats { AllByRecursion IsUnusedSeat seats.items }
            requires admin { admin ≡ new_admin L.first }
            ensures seats { IfOk result (λ worked. AllByRecursion (HasMade L.first plan.calls) worked.0.items) }
            ensures admin { IfOk result (λ worked. HasMoved L.first plan.moves worked.1) }
        { work_in(scope, rt, alloc, store, seats, admin, plan, &counts, screen) },
    )
}

// Starts the threads, and waits for them. A refusal is returned once all threads have ended, since the scope waits for
// threads that nobody joins.
fn work_in<'s, V, L: StoreName + Send + Sync, R: Threads + Wait + Clock + Sync, E: Write>(
    scope: &Scope<'s, V>,
    rt: &'s R,
    alloc: Global,
    store: &'s Store<L>,
    seats: Vec<Seat<L>>,
    admin: Admin<L>,
    plan: Plan,
    counts: &'s Counts,
    screen: Option<&mut E>,
) -> Result<Worked<L>, Refusal>
    requires seats { AllByRecursion IsUnusedSeat seats.items }
    requires admin { admin ≡ new_admin L.first }
    ensures seats { IfOk result (λ worked. AllByRecursion (HasMade L.first plan.calls) worked.0.items) }
    ensures admin { IfOk result (λ worked. HasMoved L.first plan.moves worked.1) }
{
    let mover = start_moves(scope, rt, store, admin, plan, counts);
    let started = start_all(scope, rt, alloc, store, seats, plan, counts)?;
    if let Some(screen) = screen {
        watch_all(rt, counts, plan, screen);
    }
    let seats = end_all(rt, alloc, started)?;
    let admin = end_of_moves(rt, mover)?;
    Ok((seats, admin))
}

// Starts a thread for each seat, the last seat first.
fn start_all<'s, E, L: StoreName + Send + Sync, R: Threads + Wait + Sync>(
    scope: &Scope<'s, E>,
    rt: &'s R,
    alloc: Global,
    store: &'s Store<L>,
    mut seats: Vec<Seat<L>>,
    plan: Plan,
    counts: &'s Counts,
) -> Result<Vec<Started<L>>, Refusal>
    requires { AllByRecursion IsUnusedSeat seats.items }
    ensures { IfOk result
        (λ started. AllByRecursion (λ client. IfOk client (λ handle. handle.promise.0 ≡ plan.calls)) started.items) }
{
    let mut started = Vec::with_capacity(alloc, seats.len())?;
    while let Some(seat) = seats.pop() {
        started.push(start_calls(scope, rt, alloc, store, seat, plan, counts))?;
    }
    Ok(started)
}

fn start_calls<'s, E, L: StoreName + Send + Sync, R: Threads + Wait + Sync>(
    scope: &Scope<'s, E>,
    rt: &'s R,
    alloc: Global,
    store: &'s Store<L>,
    seat: Seat<L>,
    plan: Plan,
    counts: &'s Counts,
) -> Started<L>
    requires { IsUnusedSeat seat }
    ensures { IfOk result (λ handle. handle.promise.0 ≡ plan.calls) }
{
    let client = move || -> Ended<L>
        requires { IsUnusedSeat seat }
        ensures { IfOk result (λ seat. HasMade L.first plan.calls seat) }
    {
        let ended = make_calls(rt, alloc, store, seat, plan, counts);
        counts.add_end();
        ended
    };
    match scope.spawn_with(CallsMade(plan.calls), client) {
        Ok(handle) => Ok(handle),
        Err(_) => {
            counts.add_end();
            Err(Refusal::NoMemory)
        }
    }
}

fn start_moves<'s, E, L: StoreName + Send + Sync, R: Threads + Wait + Sync>(
    scope: &Scope<'s, E>,
    rt: &'s R,
    store: &'s Store<L>,
    admin: Admin<L>,
    plan: Plan,
    counts: &'s Counts,
) -> StartedMoves<L>
    requires { admin ≡ new_admin L.first }
    ensures { IfOk result (λ handle. handle.promise.0 ≡ plan.moves) }
{
    let mover = move || -> Moved<L>
        requires { admin ≡ new_admin L.first }
        ensures { IfOk result (λ admin. HasMoved L.first plan.moves admin) }
    {
        let ended = make_moves(rt, store, admin, plan, counts);
        counts.add_end();
        ended
    };
    match scope.spawn_with(MovesMade(plan.moves), mover) {
        Ok(handle) => Ok(handle),
        Err(_) => {
            counts.add_end();
            Err(Refusal::NoMemory)
        }
    }
}

// Waits for the threads of the clients, from the end of the list, where the first client's thread is.
fn end_all<L: StoreName, R: Threads>(
    rt: &R,
    alloc: Global,
    mut started: Vec<Started<L>>,
) -> Result<Vec<Seat<L>>, Refusal>
    ensures { IfOk result
        (λ seats. (calls : ℕ)
        → AllByRecursion (λ client. IfOk client (λ handle. handle.promise.0 ≡ calls)) started.items
        → AllByRecursion (HasMade L.first calls) seats.items) }
{
    let mut seats = Vec::with_capacity(alloc, started.len())?;
    while let Some(client) = started.pop() {
        seats.push(end_of(rt, client)?)?;
    }
    Ok(seats)
}

fn end_of<L: StoreName, R: Threads>(rt: &R, client: Started<L>) -> Ended<L>
    ensures { IfOk result
        (λ seat. (calls : ℕ) → IfOk client (λ handle. handle.promise.0 ≡ calls) → HasMade L.first calls seat) }
{
    client?.join(rt)
}

fn end_of_moves<L: StoreName, R: Threads>(rt: &R, mover: StartedMoves<L>) -> Moved<L>
    ensures { IfOk result
        (λ admin. (moves : ℕ) → IfOk mover (λ handle. handle.promise.0 ≡ moves) → HasMoved L.first moves admin) }
{
    mover?.join(rt)
}
