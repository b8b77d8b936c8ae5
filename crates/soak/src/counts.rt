//! What the threads of a soak have done so far.
use std::sync::atomic::{AtomicU64, Ordering};

/// Counts that the threads of a soak share. They serve whoever watches the soak, and no contract rests on them.
#[derive(Drop)]
pub(crate) struct Counts {
    calls: AtomicU64,
    moves: AtomicU64,
    ended: AtomicU64,
}

impl Counts {
    pub(crate) fn new() -> Counts {
        Counts {
            calls: AtomicU64::new(0),
            moves: AtomicU64::new(0),
            ended: AtomicU64::new(0),
        }
    }

    /// Counts a call that a client has made.
    pub(crate) fn add_call(&self) {
        self.calls.fetch_add(1, Ordering::SeqCst);
    }

    /// Counts a move that the administrator has made.
    pub(crate) fn add_move(&self) {
        self.moves.fetch_add(1, Ordering::SeqCst);
    }

    /// Counts a thread that has ended or could not be started.
    pub(crate) fn add_end(&self) {
        self.ended.fetch_add(1, Ordering::SeqCst);
    }

    /// Returns how many calls the clients have made.
    pub(crate) fn calls(&self) -> u64 {
        self.calls.load(Ordering::SeqCst)
    }

    /// Returns how many moves the administrator has made.
    pub(crate) fn moves(&self) -> u64 {
        self.moves.load(Ordering::SeqCst)
    }

    /// Returns how many threads have ended or could not be started.
    pub(crate) fn ended(&self) -> u64 {
        self.ended.load(Ordering::SeqCst)
    }
}
