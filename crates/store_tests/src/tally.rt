//! What the threads of a test count together.
use crate::acts::Answer;
use std::sync::atomic::{AtomicU64, Ordering};
use std::thread;
use tag::Refusal;

/// The most resumes of all clients together.
pub(crate) const MOST_RESUMES: u64 = 10_000;

/// How many calls were begun, how many resumes were made, and at which step the last noted call was answered.
#[derive(Drop)]
pub(crate) struct Tally {
    begun: AtomicU64,
    resumed: AtomicU64,
    answered: AtomicU64,
}

impl Tally {
    pub(crate) fn new() -> Tally {
        Tally {
            begun: AtomicU64::new(0),
            resumed: AtomicU64::new(0),
            answered: AtomicU64::new(0),
        }
    }

    pub(crate) fn count_call(&self) {
        self.begun.fetch_add(1, Ordering::SeqCst);
    }

    pub(crate) fn note_answered(&self, step: u64) {
        self.answered.store(step, Ordering::SeqCst);
    }

    pub(crate) fn answered(&self) -> u64 {
        self.answered.load(Ordering::SeqCst)
    }

    /// Returns whether a call is to be resumed: it is stuck, gave up or is to begin anew, and resumes are left.
    pub(crate) fn is_resumed(&self, answer: &Answer) -> bool {
        match answer {
            Err(Refusal::Stuck) | Err(Refusal::GaveUp) | Err(Refusal::Collected) => {
                self.resumed.fetch_add(1, Ordering::SeqCst) < MOST_RESUMES
            }
            _ => false,
        }
    }

    /// Waits until more calls are begun than this, but not forever.
    pub(crate) fn wait_for_more(&self, calls: u64) {
        for _ in 0..100_000 {
            if self.begun.load(Ordering::SeqCst) > calls {
                return;
            }
            thread::yield_now();
        }
    }
}
