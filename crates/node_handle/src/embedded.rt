//! A node with what its program has yet to do.
ghost use Rattle.std.specs.Prelude.{◌≡◌, if◌then◌else◌, Err, IfErr, IfOk, IsTrue, OnErr, true};
ghost use Rattle.node_core.specs.Opening.{IsUnopened};
ghost use Rattle.node_core.specs.Rewriting.{HasKept, IsNotAnew};
ghost use Rattle.node_core.specs.Rounds.{HasFailed};
ghost use Rattle.node_core.specs.declared.error.CoreError.TheVariants.{Stopped};
ghost use Rattle.node_store.specs.Rewriting.{HasGrown};
ghost use Rattle.node_store.specs.Serving.{IsInputEnd};
ghost use Rattle.node_handle.specs.declared.task.Work.TheVariants as works;
ghost use Rattle.node_handle.specs.Embedding.{HasRewritten, HasStarted, HasTaken};

use crate::task::Work;
use frames::Gathered;
use node_core::{CoreError, NodeCore, Opened};
use node_effects::Report;
use node_store::{Batch, Round};
use std::alloc::Global;
use std::mem::replace;

/// A core, and what its program has yet to do for it.
pub struct Embedded {
    /// The core.
    pub core: NodeCore,
    /// What it wants done.
    pub work: Work,
}

impl Drop for Embedded {
    fn drop(self) {
        let Self { core: _, work: _ } = self;
    }
}

/// What came of frames.
#[derive(Clone, Copy)]
pub struct Handled {
    /// How many bytes the frames took that were handled.
    pub used: usize,
    /// What an operator should know, if there is something.
    pub report: Option<Report>,
}

/// Opens a core, as `node_core` does. What its program has to do first is the work of a start.
pub fn open(alloc: Global, text: &[u8], number: u8, log: &[u8]) -> Result<Embedded, CoreError>
    ensures opened { IfOk result (HasStarted text.now number log.now) }
    ensures refused { IfErr result (IsUnopened text.now number log.now) }
{
    match node_core::open(alloc, text, number, log) {
        Ok(opened) => Ok(begun(alloc, opened)),
        Err(error) => Err(error),
    }
}

// The core that was opened, with the work of its start.
fn begun(alloc: Global, opened: Opened) -> Embedded
    ensures core { result.core ≡ opened.core }
    ensures work { result.work ≡ works.Start opened.length opened.entries }
{
    let mut opened = opened;
    let entries = replace(&mut opened.entries, Gathered::new(alloc));
    let work = Work::Start(opened.length, entries);
    Embedded {
        core: opened.into_core(),
        work,
    }
}

// What is to be done for the frames of a round.
fn batch_of(alloc: Global, round: &mut Round<'_>) -> Batch
    ensures batch { result ≡ round.old.batch }
    ensures rest { round.new.rest.now ≡ round.old.rest.now }
{
    Batch {
        early: replace(&mut round.batch.early, Gathered::new(alloc)),
        log: replace(&mut round.batch.log, Gathered::new(alloc)),
        output: replace(&mut round.batch.output, Gathered::new(alloc)),
        chain: round.batch.chain,
    }
}

impl Embedded {
    /// Handles the frames with which these bytes begin, as `NodeCore::handle_frames` does. What is to be done for them
    /// takes the place of the work of before, which the program has done.
    pub fn handle_frames(&mut self, alloc: Global, input: &[u8]) -> Result<Handled, CoreError>
        ensures handled { IfOk result (HasTaken self.old self.new input.now) }
        ensures ended { IfOk result (λ handled. handled.used ≡ 0 → IsInputEnd input.now) }
        ensures failed { IfErr result (HasFailed self.old.core input.now) }
        ensures stopped { OnErr result (self.new.core.is_stopped ≡ true) }
        ensures work { OnErr result (self.new.work ≡ self.old.work) }
        ensures over { self.old.core.is_stopped ≡ true → result ≡ Err Stopped }
    {
        match self.core.handle_frames(input) {
            Ok(mut round) => {
                let used = input.len() - round.rest.len();
                let report = round.report;
                self.work = Work::Round(batch_of(alloc, &mut round));
                Ok(Handled { used, report })
            }
            Err(error) => Err(error),
        }
    }

    /// Whether it is worth writing the log anew, as `NodeCore::should_rewrite` says.
    pub fn should_rewrite(&mut self) -> bool
        ensures grown { IsTrue result → HasGrown self.old.core.asked self.old.core.end.length }
        ensures core { self.new.core ≡ record self.old.core { asked = self.new.core.asked } }
        ensures work { self.new.work ≡ self.old.work }
    {
        self.core.should_rewrite()
    }

    /// Writes the log anew, as `NodeCore::log_anew` does, and returns whether it may be. If so, the bytes of the new
    /// log take the place of the work of before, which the program has done.
    pub fn rewrite(&mut self) -> Result<bool, CoreError>
        ensures anew { IfOk result (HasRewritten self.old self.new) }
        ensures same { OnErr result (self.new ≡ self.old) }
        ensures refused { IfErr result (IsNotAnew self.old.core) }
        ensures over { self.old.core.is_stopped ≡ true → result ≡ Err Stopped }
    {
        match self.core.log_anew() {
            Ok(Some(bytes)) => {
                self.work = Work::Rewriting(bytes);
                Ok(true)
            }
            Ok(None) => Ok(false),
            Err(error) => Err(error),
        }
    }

    /// Goes on with the old log, as `NodeCore::keep_log` does, and returns whether it did. There is nothing to do then.
    pub fn keep_log(&mut self) -> bool
        ensures kept { HasKept self.old.core self.new.core result }
        ensures work { self.new.work ≡ (if result then works.Idle else self.old.work) }
    {
        if self.core.keep_log() {
            self.work = Work::Idle;
            true
        } else {
            false
        }
    }
}
