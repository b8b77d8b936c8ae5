//! A gate that counts what it is told.

use coding_pool::Gate;
use std::alloc::Global;
use std::process::Abort;
use std::sync::atomic::{AtomicUsize, Ordering};
use std::thread;

/// How often one job was entered and left.
#[derive(Drop)]
struct JobCounts {
    entered: AtomicUsize,
    left: AtomicUsize,
}

/// Counts for each job how often it was entered and left, and what no worker may do.
#[derive(Drop)]
pub(crate) struct Log {
    jobs: Vec<JobCounts>,
    inside: AtomicUsize,
    most_inside: AtomicUsize,
    // Jobs that were left before they were entered, and such as do not exist.
    strays: AtomicUsize,
}

fn none_yet() -> AtomicUsize {
    AtomicUsize::new(0)
}

fn has_counted(rt: &impl Abort, count: &AtomicUsize, expected: usize) {
    assert_eq!(rt; count.load(Ordering::SeqCst), expected);
}

fn no_counts(rt: &impl Abort, alloc: Global, jobs: u8) -> Vec<JobCounts> {
    let mut counts = Vec::new(alloc);
    for _ in 0..jobs {
        let job = JobCounts {
            entered: none_yet(),
            left: none_yet(),
        };
        counts.push(job).expect(rt, "memory for a job");
    }
    counts
}

impl Log {
    pub(crate) fn new(rt: &impl Abort, alloc: Global, jobs: u8) -> Log {
        Log {
            jobs: no_counts(rt, alloc, jobs),
            inside: none_yet(),
            most_inside: none_yet(),
            strays: none_yet(),
        }
    }

    fn stray(&self) {
        self.strays.fetch_add(1, Ordering::SeqCst);
    }

    fn note_inside(&self, inside: usize) {
        self.most_inside.fetch_max(inside, Ordering::SeqCst);
    }

    /// The most jobs that were entered and not yet left are within these bounds.
    pub(crate) fn has_most_inside(&self, rt: &impl Abort, least: usize, most: usize) {
        let inside = self.most_inside.load(Ordering::SeqCst);
        assert!(rt; least <= inside && inside <= most, "{inside}");
    }

    /// Each job was entered that often, and left as often, no other was, and none is still inside.
    pub(crate) fn is_told_each(&self, rt: &impl Abort, times: usize) {
        for job in &self.jobs {
            has_counted(rt, &job.entered, times);
            has_counted(rt, &job.left, times);
        }
        has_counted(rt, &self.strays, 0);
        has_counted(rt, &self.inside, 0);
    }
}

impl Gate for Log {
    fn enter(&self, job: usize) {
        let Some(counts) = self.jobs.get(job) else {
            return self.stray();
        };
        counts.entered.fetch_add(1, Ordering::SeqCst);
        self.note_inside(self.inside.fetch_add(1, Ordering::SeqCst).wrapping_add(1));
        thread::yield_now();
    }

    fn leave(&self, job: usize) {
        let Some(counts) = self.jobs.get(job) else {
            return self.stray();
        };
        let left = counts.left.fetch_add(1, Ordering::SeqCst);
        if counts.entered.load(Ordering::SeqCst) <= left {
            self.stray();
        }
        self.inside.fetch_sub(1, Ordering::SeqCst);
    }
}
