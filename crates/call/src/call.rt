ghost use Rattle.std.specs.Prelude.{◌≡◌, suc, ◌<◌, ◌^◌, Some, IfOk, IfErr, OnOk, OnErr};
ghost use Rattle.tag.specs.declared.refusal.Refusal.TheVariants.{NoMemory};
ghost use Rattle.mail.specs.Phase.{took_by};
ghost use Rattle.record.specs.Steps.{new_phase};
ghost use Rattle.call.specs.Call.{reached};
ghost use Rattle.call.specs.Limits.{CanReach};
ghost use Rattle.call.specs.Steps.{begun_call, entered, phase_next, taken_call};

use crate::begun_at;
use bank::Kind;
use bytes::Bytes;
use layout::Layout;
use mail::{Ask, Message, Phase, Took};
use record::{CallKind, Stage};
use std::alloc::Global;
use std::marker::Model;
use std::mem;
use tag::{CallId, Refusal, Stamp};

mod stages;
mod views;

/// A call that is not answered: what it does, the value that it settled, its current phase, and the stage at which that
/// phase began.
#[derive(Debug)]
pub struct Call {
    id: CallId,
    kind: CallKind,
    settled: Option<Bytes>,
    stage: Stage,
    phase: Phase,
}

impl Drop for Call {
    fn drop(self) {
        let Self {
            id: _,
            kind: _,
            settled: _,
            stage: _,
            phase: _,
        } = self;
    }
}

impl Model for Call {
    ghost use Rattle.call.specs.Call.{OpenCall, IsCall};

    ghost Value = { OpenCall };

    ghost view = { λ c. record { id = c.id; kind = c.kind; settled = c.settled; stage = c.stage; phase = c.phase } };

    ghost invariant = { λ c. IsCall (record {
      id = c.id;
      kind = c.kind;
      settled = c.settled;
      stage = c.stage;
      phase = c.phase;
    }) };
}

impl Call {
    /// Makes a call that begins at a stage, together with its first phase, of which `ask` says the call's id, the
    /// phase's number, its kind and its position. The position has this layout, and `now` is the step at which the
    /// phase begins. If a first reading is to begin, it begins at the position, which is to be the object's base.
    ///
    /// `NoMemory` is the only refusal.
    pub fn begin(
        alloc: Global,
        ask: Ask,
        kind: CallKind,
        stage: Stage,
        layout: &Layout,
        now: Stamp,
    ) -> Result<Call, Refusal>
        ensures call { IfOk result (λ c. c
            ≡ begun_call ask.call ask.number kind stage ask.kind ask.position layout.now now) }

        ensures refused { IfErr result (λ e. e ≡ NoMemory) }
    {
        Ok(Call {
            id: ask.call,
            kind,
            settled: None,
            stage: begun_at(stage, ask.position),
            phase: phase_of(alloc, ask, layout, now)?,
        })
    }

    /// Makes the phase of this kind that follows the current one, at a position with this layout. It begins at step
    /// `now`. The call does not change: `enter` puts the phase into it, and is never refused.
    ///
    /// `NoMemory` is the only refusal.
    pub fn next_phase(
        &self,
        alloc: Global,
        kind: Kind,
        position: u32,
        layout: &Layout,
        now: Stamp,
    ) -> Result<Phase, Refusal>
        requires number { suc self.now.phase.number < 2 ^ 32 }
        ensures phase { IfOk result (λ p. p ≡ phase_next self.now kind position layout.now now) }
        ensures refused { IfErr result (λ e. e ≡ NoMemory) }
    {
        let ask = Ask {
            call: self.id,
            number: self.phase.number() + 1,
            position,
            kind,
        };
        phase_of(alloc, ask, layout, now)
    }

    /// This phase takes the place of the current one, which is returned. `stage` is the stage that the call has
    /// reached. If a first reading is to begin, it begins at the phase's position. It allocates no memory.
    pub fn enter(&mut self, stage: Stage, phase: Phase) -> Phase
        requires stage { stage ≡ reached self.old }
        requires named { phase.call ≡ self.old.id }
        ensures call { self.new ≡ entered self.old phase }
        ensures before { result ≡ self.old.phase }
    {
        self.stage = begun_at(stage, phase.position());
        mem::replace(&mut self.phase, phase)
    }

    /// The next phase begins: what `next_phase`, `reached` and `enter` do together. Returns the phase before it. If it
    /// is refused, nothing changes.
    ///
    /// `NoMemory` is the only refusal.
    pub fn begin_next(
        &mut self,
        alloc: Global,
        kind: Kind,
        position: u32,
        layout: &Layout,
        now: Stamp,
    ) -> Result<Phase, Refusal>
        requires limits { CanReach self.old }
        requires number { suc self.old.phase.number < 2 ^ 32 }
        ensures call { OnOk result (self.new ≡ entered self.old (phase_next self.old kind position layout.now now)) }
        ensures before { IfOk result (λ p. p ≡ self.old.phase) }
        ensures refused { IfErr result (λ e. e ≡ NoMemory) }
        ensures unchanged { OnErr result (self.new ≡ self.old) }
    {
        let phase = self.next_phase(alloc, kind, position, layout, now)?;
        Ok(self.enter(self.reached(), phase))
    }

    /// The current phase takes a message at step `now`. Returns the outcome. It allocates no memory.
    pub fn take(&mut self, message: Message, now: Stamp) -> Took
        ensures call { self.new ≡ taken_call message now self.old }
        ensures took { result ≡ took_by self.old.phase message }
    {
        self.phase.take(message, now)
    }

    /// The call settles a value. It allocates no memory.
    pub fn settle(&mut self, value: Bytes)
        ensures { self.new ≡ record self.old { settled = Some value } }
    {
        self.settled = Some(value);
    }
}

// The phase that begins at step `now` with what is asked, at a position with this layout.
fn phase_of(alloc: Global, ask: Ask, layout: &Layout, now: Stamp) -> Result<Phase, Refusal>
    ensures phase { IfOk result (λ p. p ≡ new_phase ask.call ask.number ask.kind ask.position layout.now now) }
    ensures refused { IfErr result (λ e. e ≡ NoMemory) }
{
    Phase::new(alloc, ask, layout.n(), layout.quorum(), layout.k(), now)
}
