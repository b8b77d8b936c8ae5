//! A gate that holds one worker until another has worked.

use coding_pool::Gate;
use std::sync::atomic::{AtomicBool, Ordering};
use std::thread;

/// Holds job 0 until job 1 has left, or for a million turns.
#[derive(Drop)]
pub(crate) struct Hold {
    left: AtomicBool,
    overlapped: AtomicBool,
}

impl Hold {
    pub(crate) fn new() -> Hold {
        Hold {
            left: AtomicBool::new(false),
            overlapped: AtomicBool::new(false),
        }
    }

    /// Returns whether job 1 left while job 0 was held.
    pub(crate) fn has_overlapped(&self) -> bool {
        self.overlapped.load(Ordering::SeqCst)
    }
}

impl Gate for Hold {
    fn enter(&self, job: usize) {
        if job != 0 {
            return;
        }
        for _ in 0..1_000_000 {
            if self.left.load(Ordering::SeqCst) {
                self.overlapped.store(true, Ordering::SeqCst);
                return;
            }
            thread::yield_now();
        }
    }

    fn leave(&self, job: usize) {
        if job == 1 {
            self.left.store(true, Ordering::SeqCst);
        }
    }
}
