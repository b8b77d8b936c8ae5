//! A whole soak.
ghost use Rattle.std.specs.Prelude.{◌≡◌, ◌+◌, ◌*◌, IfOk};
ghost use Rattle.soak.specs.Closed.{IsClosed, IsOfClosed};
ghost use Rattle.soak_parts.specs.Setting.{setting};

use crate::crew::work_all;
use client::{Closed, Store, StoreName};
use cluster::Cluster;
use soak_parts::{Summary, make_setting};
use soak_plan::Plan;
use std::alloc::Global;
use std::io::Write;
use std::marker::Brand;
use std::sync::Wait;
use std::sync::ledger::Blank;
use std::thread::Threads;
use std::time::Clock;
use tag::Refusal;

/// How many workers encode a value.
const WORKERS: usize = 2;

/// Lets the clients and the administrator of a plan work through one store at once, closes the store once all have
/// ended, and sums it up. Each client has then made all its calls, each with a receipt, and the summary is of a cluster
/// whose reads and writes are those that the clients' seats recorded, each once.
///
/// If there is a screen, a line there shows how far a soak of two seconds or more has come. It is cleared at the end.
///
/// If a call, a move or the close is refused, that refusal is returned. It is also refused with `NoMemory` if a thread
/// cannot be started.
pub fn run_plan<R: Threads + Wait + Clock + Sync, E: Write>(
    rt: &R,
    alloc: Global,
    plan: Plan,
    screen: Option<&mut E>,
) -> Result<Summary, Refusal>
    ensures closed { IfOk result (λ summary. IsOfClosed setting plan summary) }
    ensures receipts { IfOk result (λ summary. summary.receipts ≡ plan.clients * plan.calls) }
{
    let closed = run_store(rt, alloc, plan, screen)?;
    Summary::of(alloc, &closed.cluster, closed.receipts)
}

/// Runs the soak of a plan as `run_plan` does, and returns the closed store. It is refused as `run_plan` is.
pub fn run_store<R: Threads + Wait + Clock + Sync, E: Write>(
    rt: &R,
    alloc: Global,
    plan: Plan,
    screen: Option<&mut E>,
) -> Result<Closed, Refusal>
    ensures { IfOk result (λ closed. IsClosed setting plan closed.cluster closed.receipts) }
{
    let cluster = make_setting(alloc)?;
    let parts = plan.clients as u64 + 1;
    soak_named::<Brand, R, E>(rt, alloc, Blank::new(parts), cluster, plan, screen)
}

// Runs the soak in a store of this name.
fn soak_named<L: StoreName + Send + Sync, R: Threads + Wait + Clock + Sync, E: Write>(
    rt: &R,
    alloc: Global,
    blank: Blank,
    cluster: Cluster,
    plan: Plan,
    screen: Option<&mut E>,
) -> Result<Closed, Refusal>
    requires first { cluster ≡ L.first }
    requires name { blank.name ≡ L.name }
    requires parts { (blank.parts ≡ L.parts) × (blank.parts ≡ L.seats + 1) × (plan.clients ≡ L.seats) }
    ensures { IfOk result (λ closed. IsClosed L.first plan closed.cluster closed.receipts) }
{
    let (store, seats, admin) = Store::<L>::open(alloc, blank, cluster, plan.clients, WORKERS)?;
    let (seats, _admin) = work_all(rt, alloc, &store, seats, admin, plan, screen)?;
    match store.close(seats) {
        Ok(closed) => Ok(closed),
        Err(not_closed) => Err(not_closed.refusal),
    }
}
