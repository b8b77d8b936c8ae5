//! A worker, and what it does.
ghost use Rattle.std.specs.Prelude.{◌≡◌, ◌+◌, ◌<◌, ◌≤◌, [], IfOk, IfErr, length};
ghost use Rattle.crossbeam_queue.specs.Passes.{view, IsPassOf};
ghost use Rattle.tag.specs.declared.refusal.Refusal.TheVariants.{NoMemory};
ghost use Rattle.coding_pool.specs.Jobs.{PARTS};
ghost use Rattle.coding_pool.specs.Worker.{IsWorker, IsWorkerWithOnePart, IsEncodableJob, IsEach};

use crate::gate::Gate;
use crate::jobs::{Cut, JobPass, Jobs, Pop};
use encoder::piece;
use piece::Piece;
use std::alloc::Global;
use std::sync::Wait;
use std::thread::Promise;
use tag::Refusal;

/// What all workers of one value share.
#[derive(Clone, Copy)]
pub struct CodingJob<'a> {
    /// Allocates the pieces.
    pub alloc: Global,
    /// The queue of the jobs that are left.
    pub jobs: &'a Jobs,
    /// How many pieces give the value back.
    pub k: u8,
    /// The value to encode, of at most `LONGEST_VALUE` bytes.
    pub value: &'a [u8],
}

/// A worker: its pass, and the pieces of the jobs that it took, in that order.
#[derive(Drop)]
pub struct Worker {
    /// The worker's right to pop jobs.
    pub pass: JobPass,
    /// The pieces that the worker has made.
    pub pieces: Vec<Piece>,
}

/// What a thread hands back: its worker, or `NoMemory`.
pub type Answer = Result<Worker, Refusal>;

impl<'a> Promise<Answer> for CodingJob<'a> {
    ghost use Rattle.coding_pool.specs.Worker.{IsHandedBack};

    ghost kept_by = { IsHandedBack };
}

impl Worker {
    /// Makes a worker that has taken no job. It allocates no memory.
    pub fn new(errand: CodingJob, pass: JobPass) -> Worker
        requires pass { IsPassOf errand.jobs.now pass }
        requires popped { (view pass).popped ≡ [] }
        ensures worker { IsWorker errand.entry result }
        ensures pass { result.pass ≡ pass }
    {
        Worker {
            pass,
            pieces: Vec::new(errand.alloc),
        }
    }

    /// Takes jobs until none is left, and makes their pieces. `NoMemory` is the only refusal.
    pub fn work<G: Gate, R: Wait>(mut self, rt: &R, errand: CodingJob, gate: &G) -> Answer
        requires errand { IsEncodableJob errand }
        requires worker { IsWorker errand self }
        requires part { 0 < (view self.pass).parts }
        ensures worker { IfOk result (λ w. IsWorker errand.entry w) }
        ensures parts { IfOk result (λ w. (view w.pass).parts ≡ (view self.pass).parts) }
        ensures pushed { IfOk result (λ w. (view w.pass).pushed ≡ (view self.pass).pushed) }
        ensures whole { IfOk result
            (λ w. (view self.pass).parts ≡ PARTS → IsEach (view self.pass).pushed w.pieces.items) }
        ensures refused { IfErr result (λ r. r ≡ NoMemory) }
    {
        for _ in rt.forever() {
            let Some(job) = errand.jobs.pop_as::<Pop, R>(rt, &mut self.pass) else {
                return Ok(self);
            };
            gate.enter(job as usize);
            let made = piece(errand.alloc, errand.k, job, errand.value);
            gate.leave(job as usize);
            self.pieces.push(made?)?;
        }
        unreachable!()
    }

    /// Takes over the pass and the pieces of another worker. `NoMemory` is the only refusal.
    pub fn take_over(mut self, errand: CodingJob, other: Worker) -> Answer
        requires worker { IsWorker errand self }
        requires other { IsWorkerWithOnePart errand other }
        requires part { 0 < (view self.pass).parts }
        ensures worker { IfOk result (λ w. IsWorker errand.entry w) }
        ensures parts { IfOk result (λ w. (view w.pass).parts ≡ (view self.pass).parts + 1) }
        ensures pushed { IfOk result (λ w. (view w.pass).pushed ≡ (view self.pass).pushed) }
        ensures refused { IfErr result (λ r. r ≡ NoMemory) }
    {
        let Worker { pass, mut pieces } = other;
        errand.jobs.absorb::<Cut>(&mut self.pass, pass);
        self.pieces.append(&mut pieces)?;
        Ok(self)
    }
}
