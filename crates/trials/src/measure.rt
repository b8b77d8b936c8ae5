//! Calls of a store by clients in threads, and what they cost.
use crate::load::{Load, Timing, run_load};
use std::env::Env;
use std::sync::Wait;
use std::thread::Threads;
use std::time::{Clock, CpuClock};
use words::parse_number;

/// Two clients, and four calls of each.
const EIGHT_CALLS: Load = Load {
    clients: 2,
    calls: 4,
    length: 64,
    late: 10,
};

/// Makes eight calls, and prints how many they are. Returns whether they were made.
pub(crate) fn play<R: Threads + Wait + Clock + CpuClock + Sync>(
    rt: &R,
    host: &HostRuntime,
) -> bool {
    make_calls(rt, host, EIGHT_CALLS).is_some()
}

/// Makes the calls that the words after the program's name ask, and prints how many they are, and on standard error the
/// nanoseconds that they took: by the clock, and of the processors. Returns the exit status: 1 if a call is refused or
/// output is lost, 2 for other words.
pub(crate) fn measure<R: Threads + Wait + Clock + CpuClock + Sync>(
    rt: &R,
    host: &HostRuntime,
) -> u8 {
    let Some(load) = asked(host) else {
        let _ = eprintln!(host; "usage: trials [CLIENTS CALLS LENGTH LATE]");
        return 2;
    };
    let Some(timing) = make_calls(rt, host, load) else {
        return 1;
    };
    let _ = eprintln!(host; "{} {}", timing.clock, timing.processors);
    0
}

/// Makes the calls of a load, and prints how many they are.
fn make_calls<R: Threads + Wait + Clock + CpuClock + Sync>(
    rt: &R,
    host: &HostRuntime,
    load: Load,
) -> Option<Timing> {
    match run_load(rt, host.alloc(), load) {
        Ok(timing) => {
            println!(host; "calls {}", timing.calls).ok()?;
            Some(timing)
        }
        Err(refusal) => {
            let _ = println!(host; "refused {refusal}");
            None
        }
    }
}

/// Returns what the words after the program's name ask.
fn asked(host: &HostRuntime) -> Option<Load> {
    Some(Load {
        clients: u32::try_from(number(host, 1)?).ok()?,
        calls: number(host, 2)?,
        length: usize::try_from(number(host, 3)?).ok()?,
        late: u32::try_from(number(host, 4)?).ok()?,
    })
}

/// Returns the number that a word spells.
fn number(host: &HostRuntime, place: usize) -> Option<u64> {
    let mut digits = [0u8; 20];
    let length = host.arg(place, &mut digits).ok()?;
    parse_number(str::from_utf8(&digits[..length]).ok()?)
}
