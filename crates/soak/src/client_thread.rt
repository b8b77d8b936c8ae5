//! The thread of a client.
ghost use Rattle.std.specs.Prelude.{IfOk, OnOk};
ghost use Rattle.soak.specs.Made.{HasMade, IsUnusedSeat, Makes};

use crate::counts::Counts;
use crate::moves::MOST_TURNS;
use client::{Seat, Store, StoreName};
use driver::Congruential;
use soak_plan::{Plan, object_called, value_written};
use std::alloc::Global;
use std::sync::Wait;
use std::thread::Threads;
use tag::Refusal;

/// How many times a client stirs an object after each of its calls.
const STIRS: u32 = 16;

/// What the thread of a client returns: its seat, or the refusal of one of its calls.
pub(crate) type Ended<L> = Result<Seat<L>, Refusal>;

/// Makes the client's calls with this new seat, one after another.
pub(crate) fn make_calls<L: StoreName, R: Threads + Wait + Sync>(
    rt: &R,
    alloc: Global,
    store: &Store<L>,
    mut seat: Seat<L>,
    plan: Plan,
    counts: &Counts,
) -> Ended<L>
    requires { IsUnusedSeat seat }
    ensures { IfOk result (λ seat. HasMade L.first plan.calls seat) }
{
    let mut chooser = Congruential::new(plan.choices, seat.number() as u64);
    for call in 0..plan.calls {
        make_call(rt, alloc, store, &mut seat, call, &mut chooser)?;
        stir_often(rt, store, object_called(call), &mut chooser)?;
        counts.add_call();
    }
    Ok(seat)
}

// Makes the call of this number: an even number writes, and an odd one reads.
fn make_call<L: StoreName, R: Threads + Wait + Sync>(
    rt: &R,
    alloc: Global,
    store: &Store<L>,
    seat: &mut Seat<L>,
    call: u64,
    chooser: &mut Congruential,
) -> Result<(), Refusal>
    ensures { OnOk result (Makes L.first call seat.old seat.new) }
{
    let name = object_called(call);
    if call % 2 == 0 {
        let value = value_written(alloc, seat.number(), call)?;
        store.write(rt, seat, name, value, chooser, MOST_TURNS)?;
    } else {
        store.read(rt, seat, name, chooser, MOST_TURNS)?;
    }
    Ok(())
}

// Handles messages of an object, whichever calls they belong to.
fn stir_often<L: StoreName, R: Wait>(
    rt: &R,
    store: &Store<L>,
    name: &str,
    chooser: &mut Congruential,
) -> Result<(), Refusal> {
    for _ in 0..STIRS {
        store.stir(rt, name, chooser)?;
    }
    Ok(())
}
