//! Encoding of one value by several workers.
ghost use Rattle.std.specs.Prelude.{◌≡◌, ◌≤◌, ◌<◌, ◌+◌, ◌-◌, All, IfOk, IfErr, length, vec_len};
ghost use Rattle.crossbeam_queue.specs.Passes.{view, IsPassOf};
ghost use Rattle.tag.specs.declared.limits.TheConstants.{MOST_WORKERS};
ghost use Rattle.tag.specs.declared.refusal.Refusal.TheVariants.{NoMemory};
ghost use Rattle.tag.specs.Refusal.{IsByCause};
ghost use Rattle.encoder.specs.Coded.{IsCodable, ArePieces};
ghost use Rattle.coding_pool.specs.Jobs.{known, PARTS};
ghost use Rattle.coding_pool.specs.Pool.{encode_all_cause};
ghost use Rattle.coding_pool.specs.Worker.{IsWorker, IsWorkerWithOnePart, IsEncodableJob, IsHandedBack};

use crate::crew::work_all;
use crate::gate::{Gate, NoGate};
use crate::jobs::{Cut, JobPass, Jobs, push_all};
use crate::worker::{Answer, CodingJob, Worker};
use bytes::Bytes;
use encoder::{Coded, assemble, encode};
use piece::Piece;
use std::alloc::Global;
use std::sync::Wait;
use std::thread::Threads;
use tag::{LONGEST_VALUE, MOST_MEMBERS, MOST_WORKERS, Refusal};

/// Encodes `value` into n pieces of which any k give it back, as `encode` does, with `workers` workers, each in a
/// thread of its own. The caller's thread waits for them, and then makes the pieces that are left without a gate. If
/// there is no worker, it makes all pieces in one block of memory. It is no refusal if a thread cannot be started.
///
/// Is refused with `BadLayout` if `k` is 0 or above `n`, or `n` is above `MOST_MEMBERS`; otherwise with `TooLong` if
/// the value is longer than `LONGEST_VALUE` bytes; otherwise with `Full` if there are more than `MOST_WORKERS` workers;
/// otherwise with `NoMemory` if an allocation is refused, once all threads have ended.
pub fn encode_all<G: Gate, R: Threads + Wait + Sync>(
    rt: &R,
    alloc: Global,
    workers: usize,
    gate: &G,
    k: u8,
    n: u8,
    value: Bytes,
) -> Result<Coded, Refusal>
    ensures coded { IfOk result (λ c. c ≡ record { k = k; n = n; value = value }) }
    ensures refused { IsByCause (encode_all_cause workers k n (length value)) result }
{
    if k == 0 || k > n || n as usize > MOST_MEMBERS {
        return Err(Refusal::BadLayout);
    }
    if value.len() > LONGEST_VALUE {
        return Err(Refusal::TooLong);
    }
    if workers > MOST_WORKERS {
        return Err(Refusal::Full);
    }
    if workers == 0 {
        return encode(alloc, k, n, value);
    }
    let pieces = all_pieces(rt, alloc, workers, gate, k, n, value.as_slice())?;
    Ok(assemble(k, n, value, pieces))
}

/// Returns the pieces of `value` at the points 0 to n - 1, in that order. `NoMemory` is the only refusal.
fn all_pieces<G: Gate, R: Threads + Wait + Sync>(
    rt: &R,
    alloc: Global,
    workers: usize,
    gate: &G,
    k: u8,
    n: u8,
    value: &[u8],
) -> Result<Vec<Piece>, Refusal>
    requires lawful { IsCodable k n value.now }
    requires workers { workers ≤ MOST_WORKERS }
    ensures count { IfOk result (λ v. length v.items ≡ n) }
    ensures pieces { IfOk result (λ v. ArePieces value.now k v.items) }
    ensures refused { IfErr result (λ r. r ≡ NoMemory) }
{
    let (jobs, mut pass) = Jobs::ruled(alloc, n as usize)?;
    push_all(rt, &jobs, &mut pass, n);
    let errand = CodingJob {
        alloc,
        jobs: &jobs,
        k,
        value,
    };
    let crew = hire(errand, &mut pass, workers)?;
    let answers = work_all(rt, errand, gate, crew)?;
    let caller = gather(errand, Worker::new(errand, pass), answers)?;
    let Worker {
        pass: _,
        mut pieces,
    } = caller.work(rt, errand, &NoGate)?;
    pieces.sort_unstable_by_key(|piece| piece.point);
    Ok(pieces)
}

/// `workers` new workers, each with one part of `pass`. `NoMemory` is the only refusal.
fn hire(errand: CodingJob, pass: &mut JobPass, workers: usize) -> Result<Vec<Worker>, Refusal>
    requires pass { IsPassOf errand.jobs.now pass.old }
    requires workers { workers ≤ MOST_WORKERS }
    requires first { view pass.old ≡ known PARTS (view pass.old).pushed (view pass.old).popped }
    ensures pass { IsPassOf errand.entry.jobs.now pass.new }
    ensures view { IfOk result
        (λ _. view pass.new ≡ known (PARTS - workers) (view pass.old).pushed (view pass.old).popped) }
    ensures count { IfOk result (λ crew. vec_len crew ≡ workers) }
    ensures crew { IfOk result (λ crew. All (λ w. IsWorkerWithOnePart errand.entry w) crew.items) }
    ensures refused { IfErr result (λ r. r ≡ NoMemory) }
{
    let mut crew = Vec::with_capacity(errand.alloc, workers)?;
    for _worker in 0..workers {
        crew.push(Worker::new(errand, errand.jobs.another::<Cut>(pass)))?;
    }
    Ok(crew)
}

/// Takes over the passes and the pieces of all workers of the crew. `NoMemory` is the only refusal: a worker's, or the
/// caller's own.
fn gather(errand: CodingJob, mut caller: Worker, mut answers: Vec<Answer>) -> Answer
    requires caller { IsWorker errand caller }
    requires part { 0 < (view caller.pass).parts }
    requires answers { All (λ a. IsHandedBack errand a) answers.items }
    ensures caller { IfOk result (λ w. IsWorker errand.entry w) }
    ensures parts { IfOk result (λ w. (view w.pass).parts ≡ (view caller.pass).parts + vec_len answers) }
    ensures pushed { IfOk result (λ w. (view w.pass).pushed ≡ (view caller.pass).pushed) }
    ensures refused { IfErr result (λ r. r ≡ NoMemory) }
{
    while let Some(answer) = answers.pop() {
        caller = caller.take_over(errand, answer?)?;
    }
    Ok(caller)
}
