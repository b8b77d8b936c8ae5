//! A gate that holds workers until enough are inside at once.

use coding_pool::Gate;
use std::sync::atomic::{AtomicBool, AtomicUsize, Ordering};
use std::thread;

/// Holds each worker until so many are inside at once, or for a million turns. From then on it holds none.
#[derive(Drop)]
pub(crate) struct Crowd {
    wanted: usize,
    inside: AtomicUsize,
    is_open: AtomicBool,
    has_met: AtomicBool,
}

impl Crowd {
    pub(crate) fn new(wanted: usize) -> Crowd {
        Crowd {
            wanted,
            inside: AtomicUsize::new(0),
            is_open: AtomicBool::new(false),
            has_met: AtomicBool::new(false),
        }
    }

    /// Returns whether so many were inside at once.
    pub(crate) fn has_met(&self) -> bool {
        self.has_met.load(Ordering::SeqCst)
    }

    fn note(&self, inside: usize) {
        if inside >= self.wanted {
            self.has_met.store(true, Ordering::SeqCst);
            self.is_open.store(true, Ordering::SeqCst);
        }
    }
}

impl Gate for Crowd {
    fn enter(&self, _job: usize) {
        self.note(self.inside.fetch_add(1, Ordering::SeqCst).wrapping_add(1));
        for _ in 0..1_000_000 {
            if self.is_open.load(Ordering::SeqCst) {
                return;
            }
            thread::yield_now();
        }
        self.is_open.store(true, Ordering::SeqCst);
    }

    fn leave(&self, _job: usize) {
        self.inside.fetch_sub(1, Ordering::SeqCst);
    }
}
