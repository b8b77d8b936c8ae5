//! Runs both examples, and prints what they return.
use crate::{by_cluster, by_store};
use std::sync::Wait;
use std::thread::Threads;
use words::Hexadecimal;

/// Prints what the example over a cluster reads, and then what the one over a store reads, with the receipts of its
/// close. Returns whether both lines were printed.
pub(crate) fn play<R: Threads + Wait + Sync>(rt: &R, host: &HostRuntime) -> bool {
    let by_cluster = match by_cluster::write_and_read(host.alloc()) {
        Ok(value) => println!(host; "{}", Hexadecimal(value.as_slice())),
        Err(refusal) => println!(host; "refused {refusal}"),
    };
    let by_store = match by_store::play(rt, host.alloc()) {
        Ok(outcome) => {
            let value = Hexadecimal(outcome.value.as_slice());
            println!(host; "{value} receipts {}", outcome.receipts)
        }
        Err(refusal) => println!(host; "refused {refusal}"),
    };
    by_cluster.is_ok() && by_store.is_ok()
}
