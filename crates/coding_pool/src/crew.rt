//! The threads of the workers.
ghost use Rattle.std.specs.Prelude.{◌≡◌, ◌+◌, ◌<◌, ◌≤◌, [], All, IfOk, IfErr, vec_capacity, vec_len};
ghost use Rattle.tag.specs.declared.refusal.Refusal.TheVariants.{NoMemory};
ghost use Rattle.coding_pool.specs.declared.worker.CodingJob.{CodingJob};
ghost use Rattle.coding_pool.specs.Worker.{IsWorkerWithOnePart, IsEncodableJob, IsHandedBack};

use crate::gate::Gate;
use crate::worker::{Answer, CodingJob, Worker};
use std::sync::Wait;
use std::sync::atomic::{AtomicUsize, Ordering};
use std::thread;
use std::thread::{PromisedHandle, Scope, Threads};
use tag::Refusal;

/// Lets each worker work in a thread of its own. Returns their answers, in some order, after all threads have ended. A
/// worker for which no thread can be started takes no job. `NoMemory` is the only refusal.
pub fn work_all<G: Gate, R: Threads + Wait + Sync>(
    rt: &R,
    errand: CodingJob,
    gate: &G,
    crew: Vec<Worker>,
) -> Result<Vec<Answer>, Refusal>
    requires errand { IsEncodableJob errand }
    requires crew { All (λ w. IsWorkerWithOnePart errand w) crew.items }
    ensures count { IfOk result (λ v. vec_len v ≡ vec_len crew) }
    ensures answers { IfOk result (λ v. All (λ a. IsHandedBack errand.entry a) v.items) }
    ensures refused { IfErr result (λ r. r ≡ NoMemory) }
{
    let unstarted = AtomicUsize::new(usize::MAX);
    let CodingJob {
        alloc,
        jobs,
        k,
        value,
    } = errand;
    thread::scope(
        thread::scope_env(),
        rt,
        |scope| -> Result<Vec<Answer>, Refusal>
            requires errand { IsEncodableJob (record { alloc = alloc; jobs = jobs; k = k; value = value }) }
            requires crew { All
                (λ w. IsWorkerWithOnePart (record { alloc = alloc; jobs = jobs; k = k; value = value }) w) crew.items }
            ensures count { IfOk result (λ v. vec_len v ≡ vec_len crew) }
            ensures answers { IfOk result (λ v. All
                (λ a. IsHandedBack (record { alloc = alloc; jobs = jobs.entry; k = k; value = value.entry }) a)
                v.items) }
            ensures refused { IfErr result (λ r. r ≡ NoMemory) }
        {
            let errand = CodingJob {
                alloc,
                jobs,
                k,
                value,
            };
            work_in(scope, rt, errand, gate, &unstarted, crew)
        },
    )
}

/// Starts the workers, and waits for those that were started.
fn work_in<'s, E, G: Gate, R: Threads + Wait + Sync>(
    scope: &Scope<'s, E>,
    rt: &'s R,
    errand: CodingJob<'s>,
    gate: &'s G,
    unstarted: &'s AtomicUsize,
    mut crew: Vec<Worker>,
) -> Result<Vec<Answer>, Refusal>
    requires errand { IsEncodableJob errand }
    requires crew { All (λ w. IsWorkerWithOnePart errand w) crew.items }
    ensures count { IfOk result (λ v. vec_len v ≡ vec_len crew) }
    ensures answers { IfOk result (λ v. All (λ a. IsHandedBack errand.entry a) v.items) }
    ensures refused { IfErr result (λ r. r ≡ NoMemory) }
{
    let mut answers = Vec::with_capacity(errand.alloc, crew.len())?;
    let mut started = Vec::with_capacity(errand.alloc, crew.len())?;
    while let Some(worker) = crew.pop() {
        match start(scope, errand, gate, rt, unstarted, crew.len(), worker) {
            Ok(handle) => started.push_reserved(handle),
            Err(answer) => answers.push_reserved(answer),
        }
    }
    Ok(join_all(rt, started, answers))
}

/// Waits for the started threads, and adds what they hand back to the answers, which have room for it.
fn join_all<R: Threads + Wait>(
    rt: &R,
    mut started: Vec<PromisedHandle<Answer, CodingJob>>,
    mut answers: Vec<Answer>,
) -> Vec<Answer>
    requires room { vec_len started + vec_len answers ≤ vec_capacity answers }
    ensures count { vec_len result ≡ vec_len started.entry + vec_len answers }
    ensures answers { (errand : CodingJob) → All (λ h. h.promise ≡ errand) started.entry.items
        → All (λ a. IsHandedBack errand a) answers.items → All (λ a. IsHandedBack errand a) result.items }
{
    while let Some(handle) = started.pop() {
        answers.push_reserved(handle.join(rt));
    }
    answers
}

/// Starts a thread for the worker at this place of the crew. If no thread can be started, returns as `Err` the answer
/// of the worker, which has taken no job.
fn start<'s, E, G: Gate, R: Wait + Sync>(
    scope: &Scope<'s, E>,
    errand: CodingJob<'s>,
    gate: &'s G,
    rt: &'s R,
    unstarted: &'s AtomicUsize,
    place: usize,
    worker: Worker,
) -> Result<PromisedHandle<Answer, CodingJob<'s>>, Answer>
    requires errand { IsEncodableJob errand }
    requires worker { IsWorkerWithOnePart errand worker }
    ensures started { IfOk result (λ handle. handle.promise ≡ errand.entry) }
    ensures refused { IfErr result (λ answer. IsHandedBack errand.entry answer) }
{
    let CodingJob {
        alloc,
        jobs,
        k,
        value,
    } = errand;
    let task = move || -> Answer
        requires errand { IsEncodableJob (record { alloc = alloc; jobs = jobs; k = k; value = value }) }
        requires worker { IsWorkerWithOnePart (record { alloc = alloc; jobs = jobs; k = k; value = value }) worker }
        ensures { IsHandedBack (record { alloc = alloc; jobs = jobs.entry; k = k; value = value.entry }) result }
    {
        if unstarted.load(Ordering::SeqCst) == place {
            return Ok(worker);
        }
        let errand = CodingJob {
            alloc,
            jobs,
            k,
            value,
        };
        worker.work(rt, errand, gate)
    };
    match scope.spawn_with(errand, task) {
        Ok(handle) => Ok(handle),
        Err(refused) => {
            unstarted.store(place, Ordering::SeqCst);
            Err((refused.value)())
        }
    }
}
