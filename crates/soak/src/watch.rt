//! The line on a terminal that shows how far a soak has come.
use crate::counts::Counts;
use soak_plan::{Plan, Progress};
use std::io::Write;
use std::sync::Wait;
use std::time::{Clock, Duration, Instant};
use std::{io, thread};

/// The time between two looks at the counts, in milliseconds.
const TICK: u64 = 50;

/// The number of whole seconds from which on a soak is long.
const LONG: u64 = 2;

/// Watches until all threads of the plan have ended. Once the soak is long, one line on the screen shows how far it has
/// come; it is cleared at the end. Lines that cannot be written are ignored.
pub(crate) fn watch_all<R: Wait + Clock, E: Write>(
    rt: &R,
    counts: &Counts,
    plan: Plan,
    screen: &mut E,
) {
    let threads = plan.clients as u64 + 1;
    let Ok(begun) = Instant::now(rt) else {
        return;
    };
    let mut shown = false;
    for _ in rt.forever() {
        if counts.ended() >= threads {
            break;
        }
        thread::sleep(rt, Duration::from_millis(TICK));
        let Ok(gone) = begun.elapsed(rt) else {
            break;
        };
        if gone.as_secs() >= LONG {
            let _ = show(screen, progress(counts, plan, gone.as_secs()));
            shown = true;
        }
    }
    if shown {
        let _ = clear(screen);
    }
}

fn progress(counts: &Counts, plan: Plan, seconds: u64) -> Progress {
    Progress {
        calls: counts.calls(),
        all_calls: plan.calls.saturating_mul(plan.clients as u64),
        moves: counts.moves(),
        all_moves: plan.moves,
        seconds,
    }
}

// Writes the line over the one before, which is not longer, since the numbers only grow.
fn show<E: Write>(screen: &mut E, progress: Progress) -> io::Result<()> {
    screen.write_all(b"\r")?;
    write!(screen, "{progress}")?;
    screen.flush()
}

// Returns to the start of the line, and clears it.
fn clear<E: Write>(screen: &mut E) -> io::Result<()> {
    screen.write_all(b"\r\x1b[K")?;
    screen.flush()
}
