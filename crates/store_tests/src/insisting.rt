//! Calls of few turns, which are resumed until they are answered.

use crate::acts::{Answer, resume};
use crate::tally::{MOST_RESUMES, Tally};
use crate::varied::Varied;
use client::{Seat, Store, StoreName};
use std::sync::Wait;
use std::thread::Threads;

/// Fewer than a call takes, so that each is resumed.
pub(crate) const FEW_TURNS: u64 = 20;

/// Resumes a call until it is answered, or refused for another cause.
pub(crate) fn insist<L: StoreName, R: Threads + Wait + Sync>(
    rt: &R,
    store: &Store<L>,
    seat: &mut Seat<L>,
    begun: Answer,
    chooser: &mut Varied,
    tally: &Tally,
) -> Answer {
    let mut answer = begun;
    for _ in 0..MOST_RESUMES {
        if !tally.is_resumed(&answer) {
            return answer;
        }
        answer = resume(rt, store, seat, chooser, FEW_TURNS);
    }
    answer
}
