//! The calls that a node carries out on an object.

ghost use Rattle.std.specs.Prelude.{◌≡◌, suc, ◌<◌, ◌^◌, ◌++◌, ◌∷◌, [], length, Some, remove, slice_get, slice_set};
ghost use Rattle.std.specs.Prelude.{◌==◌, ◌&&◌, position, is_some, IfOk, IfErr, OnOk, MatchOption};
ghost use Rattle.std.specs.List.{list_any};
ghost use Rattle.tag.specs.declared.refusal.Refusal.TheVariants.{NoMemory};
ghost use Rattle.bank.specs.declared.kind.Kind.TheVariants.{Next};
ghost use Rattle.record.specs.Legal.{is_move};
ghost use Rattle.call.specs.Call.{OpenCall as Machine};
ghost use Rattle.call.specs.Limits.{IsWithinLimits};
ghost use Rattle.call.specs.Steps.{entered, phase_next, taken_call};
ghost use Rattle.local_object.specs.Distinct.{HaveOtherIds, HaveDistinctIds, IsCallAt};
ghost use Rattle.local_object.specs.Anew.{reading_machine};
ghost use Rattle.local_object.specs.Leaving.{if_final, is_at};
ghost use Rattle.local_object.specs.Outcomes.{is_read};
ghost use Rattle.local_object.specs.Queried.{querying};

use crate::querying::query_by;
use crate::reading::kind_of;
use crate::report::Report;
use bank::{Kind, Status};
use bytes::Bytes;
use call::Call;
use layout::Layout;
use mail::{Ask, Message};
use record::{Operation, Stage};
use std::alloc::Global;
use std::marker::Model;
use tag::{CallId, Refusal};

/// The calls that a node carries out on an object, in the order in which they began. No two have the same id.
#[derive(Debug)]
pub struct Calls {
    calls: Vec<Call>,
}

impl Drop for Calls {
    fn drop(self) {
        let Self { calls: _ } = self;
    }
}

impl Model for Calls {
    ghost use Rattle.std.specs.Prelude.{List};
    ghost use Rattle.call.specs.Call.{OpenCall as Machine};
    ghost use Rattle.local_object.specs.Distinct.{HaveDistinctIds};

    ghost Value = { List Machine };

    ghost view = { λ c. c.calls.items };

    ghost invariant = { λ c. HaveDistinctIds c.calls.items };
}

impl Calls {
    /// Makes a list without calls. It allocates no memory.
    pub(crate) fn new(alloc: Global) -> Calls
        ensures { result ≡ [] }
    {
        Calls {
            calls: Vec::new(alloc),
        }
    }

    /// Returns how many calls there are.
    pub(crate) fn len(&self) -> usize
        ensures { result ≡ length self.now }
    {
        self.calls.len()
    }

    /// Returns the call at an index, from 0.
    pub(crate) fn at(&self, index: usize) -> &Call
        requires { index < length self.now }
        ensures { slice_get self.now index ≡ Some result.now }
    {
        &self.calls[index]
    }

    /// Returns the index of the call with this id, if there is one.
    pub(crate) fn index_of(&self, id: CallId) -> Option<usize>
        ensures index { MatchOption result (HaveOtherIds id self.now) (IsCallAt self.now id) }
        ensures distinct { HaveDistinctIds self.now }
    {
        place_of(&self.calls, id)
    }

    /// Returns whether one of the calls is a move.
    pub(crate) fn has_move(&self) -> bool
        ensures { result ≡ list_any (λ call. is_move call.kind) self.now }
    {
        self.calls.iter().any(|call| is_move(call))
    }

    /// Adds one more call, whose id is new. `NoMemory` is the only refusal.
    pub(crate) fn add(&mut self, call: Call) -> Result<(), Refusal>
        requires { HaveOtherIds call.id self.old }
        ensures added { OnOk result (self.new ≡ self.old ++ call ∷ []) }
        ensures refused { IfErr result (λ e. e ≡ NoMemory) }
    {
        self.calls.push(call)?;
        Ok(())
    }

    /// The call at an index takes a message. It allocates no memory.
    pub(crate) fn take(&mut self, index: usize, message: Message)
        requires { index < length self.old }
        ensures { (call : Machine) → slice_get self.old index ≡ Some call
            → self.new ≡ slice_set self.old index (taken_call message 0 call) }
    {
        self.calls[index].take(message, 0);
    }

    /// The call at an index settles a value. It allocates no memory.
    pub(crate) fn settle(&mut self, index: usize, value: Bytes)
        requires { index < length self.old }
        ensures { (call : Machine) → slice_get self.old index ≡ Some call
            → self.new ≡ slice_set self.old index (record call { settled = Some value }) }
    {
        self.calls[index].settle(value);
    }

    /// The call at an index begins its next phase. `NoMemory` is the only refusal.
    pub(crate) fn begin_next(
        &mut self,
        index: usize,
        kind: Kind,
        position: u32,
        layout: &Layout,
    ) -> Result<(), Refusal>
        requires within { index < length self.old }
        requires limits { (call : Machine) → slice_get self.old index ≡ Some call → IsWithinLimits call }
        requires number { (call : Machine) → slice_get self.old index ≡ Some call → suc call.phase.number < 2 ^ 32 }
        ensures begun { OnOk result ((call : Machine) → slice_get self.old index ≡ Some call
            → self.new ≡ slice_set self.old index (entered call (phase_next call kind position layout.now 0))) }

        ensures refused { IfErr result (λ e. e ≡ NoMemory) }
    {
        let alloc = *self.calls.allocator();
        self.calls[index].begin_next(alloc, kind, position, layout, 0)?;
        Ok(())
    }

    /// The call at an index begins a query of its position, and takes replies to it that say what its phase before was
    /// told. `NoMemory` is the only refusal.
    pub(crate) fn query(
        &mut self,
        index: usize,
        layout: &Layout,
        reports: &[Report],
    ) -> Result<(), Refusal>
        requires within { index < length self.old }
        requires limits { (call : Machine) → slice_get self.old index ≡ Some call → IsWithinLimits call }
        requires number { (call : Machine) → slice_get self.old index ≡ Some call → suc call.phase.number < 2 ^ 32 }
        ensures queried { OnOk result ((call : Machine) → slice_get self.old index ≡ Some call
            → self.new ≡ slice_set self.old index (querying call layout.now reports.now)) }

        ensures refused { IfErr result (λ e. e ≡ NoMemory) }
    {
        let alloc = *self.calls.allocator();
        query_by(alloc, &mut self.calls[index], layout, reports)?;
        Ok(())
    }

    /// The call at an index, which has settled nothing, begins to read the sequence of layouts with what is asked.
    /// `NoMemory` is the only refusal.
    pub(crate) fn read_at(&mut self, index: usize, ask: Ask, layout: &Layout) -> Result<(), Refusal>
        requires within { index < length self.old }
        requires unsettled { (call : Machine) → slice_get self.old index ≡ Some call → call.settled ≡ None }
        requires named { (call : Machine) → slice_get self.old index ≡ Some call → ask.call ≡ call.id }
        requires kind { ask.kind ≡ Next }
        ensures read { OnOk result ((call : Machine) → slice_get self.old index ≡ Some call
            → self.new ≡ slice_set self.old index (reading_machine call ask.number ask.position layout.now)) }

        ensures refused { IfErr result (λ e. e ≡ NoMemory) }
    {
        let alloc = *self.calls.allocator();
        let kind = kind_of(&self.calls[index])?;
        self.calls[index] = Call::begin(alloc, ask, kind, Stage::ReadBegin, layout, 0)?;
        Ok(())
    }

    /// Removes the call at an index. Later ones move down by one index. It allocates no memory.
    pub(crate) fn remove(&mut self, index: usize) -> Call
        requires { index < length self.old }
        ensures call { slice_get self.old index ≡ Some result }
        ensures rest { self.new ≡ remove self.old index }
    {
        self.calls.remove(index)
    }
}

// The index of the first call with this id, if there is one.
fn place_of(calls: &[Call], id: CallId) -> Option<usize>
    ensures { result ≡ position (λ call. call.id == id) calls.now }
{
    calls.iter().position(|call| call.id() == id)
}

/// Returns whether the call is a move.
pub(crate) fn is_move(call: &Call) -> bool
    ensures { result ≡ is_move call.now.kind }
{
    match call.operation() {
        Operation::Move => true,
        Operation::Read | Operation::Write => false,
    }
}

/// Returns whether the call is a read.
pub(crate) fn is_read(call: &Call) -> bool
    ensures { result ≡ is_read call.now.kind }
{
    match call.operation() {
        Operation::Read => true,
        Operation::Write | Operation::Move => false,
    }
}

/// Returns whether the call has raised the pointer of this position to final, at a quorum.
pub(crate) fn has_raised(call: &Call, position: u32) -> bool
    ensures { result ≡ (is_at (if_final call.now.phase.kind call.now.phase.position) position
        && is_some call.now.phase.end) }
{
    match final_position(call) {
        Some(there) => there == position && call.phase().complete(),
        None => false,
    }
}

// The position whose pointer the current phase of the call raises to final, if it does so.
fn final_position(call: &Call) -> Option<u32>
    ensures { result ≡ if_final call.now.phase.kind call.now.phase.position }
{
    match call.phase().kind() {
        Kind::Spread(Status::Final) => Some(call.phase().position()),
        Kind::Spread(Status::Unset) | Kind::Spread(Status::Pending) => None,
        Kind::Next | Kind::Query | Kind::PreWrite(_) | Kind::Finalize(_) | Kind::Fetch(_) => None,
    }
}
