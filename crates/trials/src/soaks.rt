//! What the choices of a soak decide: the first numbers of its chooser, and the history that a soak leaves.
use driver::{Chooser, Congruential};
use record::Entry;
use soak::run_store;
use soak_plan::Plan;
use std::alloc::Global;
use std::sync::Wait;
use std::thread::Threads;
use std::time::Clock;
use tag::Refusal;

/// Prints the first numbers of a chooser and the state from which another one begins. Then it runs a soak three times,
/// and prints whether the same choices leave the same history, and whether other choices do. Returns whether all was
/// printed.
pub(crate) fn play<R: Threads + Wait + Clock + Sync>(rt: &R, host: &HostRuntime) -> bool {
    print_numbers(host) && print_histories(rt, host)
}

fn print_numbers(host: &HostRuntime) -> bool {
    let mut chooser = Congruential::new(1, 0);
    for _ in 0..4 {
        if println!(host; "chose {}", chooser.choose(1)).is_err() {
            return false;
        }
    }
    println!(host; "begins from {}", Congruential::new(u64::MAX, 64).state).is_ok()
}

// One client is alone with its store, so its choices decide the number of each step.
fn print_histories<R: Threads + Wait + Clock + Sync>(rt: &R, host: &HostRuntime) -> bool {
    match (
        are_alike(rt, host.alloc(), 1, 1),
        are_alike(rt, host.alloc(), 1, 2),
    ) {
        (Ok(same), Ok(other)) => {
            println!(host;
                "same choices, same history: {same}\nother choices, same history: {other}"
            ).is_ok()
        }
        _ => false,
    }
}

// Whether two soaks with these choices leave the same history.
fn are_alike<R: Threads + Wait + Clock + Sync>(
    rt: &R,
    alloc: Global,
    choices: u64,
    other: u64,
) -> Result<bool, Refusal> {
    Ok(history_of(rt, alloc, choices)? == history_of(rt, alloc, other)?)
}

/// Returns the history of an object after a soak in which one client makes twelve calls, and no object moves.
fn history_of<R: Threads + Wait + Clock + Sync>(
    rt: &R,
    alloc: Global,
    choices: u64,
) -> Result<Vec<Entry>, Refusal> {
    let plan = Plan::new(1, 12, 0, choices).ok_or(Refusal::Full)?;
    let screen: Option<&mut Vec<u8>> = None;
    run_store(rt, alloc, plan, screen)?.cluster.entries("a")
}
