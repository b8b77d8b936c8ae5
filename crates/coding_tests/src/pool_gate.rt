//! What a gate of coding workers is told, job by job.

use crate::coding::code;
use crate::log::Log;
use encoder::Coded;
use std::alloc::Global;
use std::process::Abort;
use std::sync::Wait;
use std::thread::Threads;

const JOBS: u8 = 60;

fn each_job_has_a_piece(rt: &impl Abort, coded: &Coded) {
    assert!(rt; coded.n() == JOBS);
    for job in 0..coded.n() {
        assert!(rt; coded.piece_at(job).point == job);
    }
}

// So many workers code one value into a piece for each job. The gate is told of each piece that often, and this is the
// least and the most number of jobs that are inside it at once.
fn tells<R: Threads + Wait + Abort + Sync>(
    rt: &R,
    alloc: Global,
    workers: usize,
    times: usize,
    least: usize,
    most: usize,
) {
    let log = Log::new(rt, alloc, JOBS);
    let value = b"each job is entered once and left once";
    each_job_has_a_piece(rt, &code(rt, alloc, workers, &log, 3, JOBS, value));
    log.is_told_each(rt, times);
    log.has_most_inside(rt, least, most);
}

#[test]
fn three_workers_enter_and_leave_each_job_once(rt: HostRuntime) {
    tells(&rt, rt.alloc(), 3, 1, 1, 3);
}

#[test]
fn one_worker_holds_one_job_at_a_time(rt: HostRuntime) {
    tells(&rt, rt.alloc(), 1, 1, 1, 1);
}

#[test]
fn the_callers_own_pieces_pass_no_gate(rt: HostRuntime) {
    tells(&rt, rt.alloc(), 0, 0, 0, 0);
}
