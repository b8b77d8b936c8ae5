//! Trials of the store and of the coding pool, and two examples of programs that embed a cluster, or the store of
//! threads. Without words the program plays two stories and makes eight calls. Each story goes on if memory is refused:
//! `faults/sweep` refuses each request for memory in turn. With the word `all` the program also runs the examples and
//! three soaks. With four numbers it makes calls and says what they cost, for `bench/steps`.
#![tactic(auto)]

mod by_cluster;
mod by_store;
mod examples;
mod load;
mod measure;
mod pool;
mod printing_gate;
mod soaks;
mod store;

use std::env::{Env, FillError};
use std::process::ExitCode;
use std::sync::Wait;
use std::thread::Threads;
use std::time::{Clock, CpuClock};

fn main(rt: HostRuntime) -> ExitCode {
    let mut word = [0u8; 3];
    // Nothing is asked of memory for this word.
    let is_well = match rt.arg(1, &mut word) {
        Err(FillError::NotPresent) => play_stories(&rt, &rt),
        Ok(3) if word == *b"all" => {
            play_stories(&rt, &rt) && examples::play(&rt, &rt) && soaks::play(&rt, &rt)
        }
        _ => return ExitCode::from(measure::measure(&rt, &rt)),
    };
    if is_well {
        ExitCode::SUCCESS
    } else {
        ExitCode::FAILURE
    }
}

/// Plays both stories and makes eight calls. Returns whether all came to their end.
fn play_stories<R: Threads + Wait + Clock + CpuClock + Sync>(rt: &R, host: &HostRuntime) -> bool {
    store::play(rt, host) && pool::play(rt, host) && measure::play(rt, host)
}
