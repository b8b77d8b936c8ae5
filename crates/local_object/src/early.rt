//! Whether a call ends early, by what members told its current phase, and which value it returns.

ghost use Rattle.std.specs.Prelude.{◌≡◌, ◌≤◌, ℕ, List, Option, Some, nat_le, IfOk, IfErr, MatchOption};
ghost use Rattle.layout.specs.Layout.{quorum_of};
ghost use Rattle.tag.specs.declared.refusal.Refusal.TheVariants.{NoMemory};
ghost use Rattle.record.specs.declared.call.CallKind.TheVariants.{Read};
ghost use Rattle.record.specs.Wants.{is_fetch};
ghost use Rattle.local_object.specs.Early.{ends_at_once, ends_held, exceeds_rest, greatest_of, is_finalizing};
ghost use Rattle.local_object.specs.Early.{is_first_counting, is_held_by_quorum, is_last_at};
ghost use Rattle.local_object.specs.EarlyEnds.{EndsEarlyWith, IsHeldValue, pieces_told};
ghost use Rattle.local_object.specs.Going.{IsOnlyValue};
ghost use Rattle.local_object.specs.Sent.{asks_piece};

use crate::calls::{is_move, is_read};
use crate::going::{decoded, fetched};
use crate::pieces::first_told;
use crate::places::Places;
use crate::report::Report;
use crate::reports::{count_held, count_no_greater, count_unset, greatest_told};
use bank::Kind;
use bytes::Bytes;
use call::Call;
use layout::Layout;
use record::{Operation, Stage};
use std::alloc::Global;
use tag::{Refusal, Tag};

/// What a call returns that ends early, by the layout of its phase's position: for a read a value, and for a write
/// none. None where it does not end early.
///
/// `NoMemory` is the only refusal.
pub(crate) fn early_value(
    alloc: Global,
    places: &Places,
    call: &Call,
    layout: &Layout,
    reports: &[Report],
) -> Result<Option<Option<Bytes>>, Refusal>
    ensures value { IfOk result (λ value. MatchOption value
        ((r : Option (List ℕ)) → EndsEarlyWith places.now call.now layout.now reports.now r → ⊥)
        (EndsEarlyWith places.now call.now layout.now reports.now)) }

    ensures refused { IfErr result (λ e. e ≡ NoMemory) }
{
    if ends_held(call, layout, reports) {
        return held_value(alloc, places, call);
    }
    if !ends_at_once(call, layout, reports) {
        return Ok(None);
    }
    told_value(alloc, call, layout, reports)
}

// What a call returns whose tag is held. None where it is a move, or a read without a value.
fn held_value(alloc: Global, places: &Places, call: &Call) -> Result<Option<Option<Bytes>>, Refusal>
    ensures value { IfOk result (λ value. MatchOption value
        ((r : Option (List ℕ)) → IsHeldValue places.now call.now call.now.kind r → ⊥)
        (IsHeldValue places.now call.now call.now.kind)) }

    ensures refused { IfErr result (λ e. e ≡ NoMemory) }
{
    match call.operation() {
        Operation::Read => read_value(alloc, places, call),
        Operation::Write => Ok(Some(None)),
        Operation::Move => Ok(None),
    }
}

// The value that a read settled, or else fetched.
fn read_value(alloc: Global, places: &Places, call: &Call) -> Result<Option<Option<Bytes>>, Refusal>
    requires { call.now.kind ≡ Read }
    ensures value { IfOk result (λ value. MatchOption value
        ((r : Option (List ℕ)) → IsHeldValue places.now call.now Read r → ⊥)
        (IsHeldValue places.now call.now Read)) }

    ensures refused { IfErr result (λ e. e ≡ NoMemory) }
{
    if let Some(value) = call.value() {
        return Ok(Some(Some(value.clone()?)));
    }
    if !is_fetch(call.phase().kind()) {
        return Ok(None);
    }
    match fetched(alloc, places, call)? {
        Some(value) => Ok(Some(Some(value))),
        None => Ok(None),
    }
}

// The value that the pieces of the greatest tag give which a read was told.
fn told_value(
    alloc: Global,
    call: &Call,
    layout: &Layout,
    reports: &[Report],
) -> Result<Option<Option<Bytes>>, Refusal>
    ensures value { IfOk result (λ value. MatchOption value
        ((v : List ℕ) → IsOnlyValue layout.now.k (pieces_told call.now layout.now reports.now) v → ⊥)
        (λ r. (v : List ℕ) × (r ≡ Some v)
        × IsOnlyValue layout.now.k (pieces_told call.now layout.now reports.now) v)) }

    ensures refused { IfErr result (λ e. e ≡ NoMemory) }
{
    let tag = greatest_of(call, reports);
    let pieces = first_told(
        alloc,
        layout.k(),
        tag,
        call.id(),
        call.phase().number(),
        reports,
    )?;
    match decoded(alloc, layout.k(), pieces)? {
        Some(value) => Ok(Some(Some(value))),
        None => Ok(None),
    }
}

// Whether a call may end since its tag is held.
fn ends_held(call: &Call, layout: &Layout, reports: &[Report]) -> bool
    ensures { result ≡ ends_held call.now layout.now reports.now }
{
    let phase = call.phase();
    !is_move(call)
        && is_finalizing(phase.kind())
        && is_last_at(call.stage(), phase.position())
        && exceeds_rest(layout, count_unset(reports, call.id(), phase.number()))
}

// Whether a read may end at once.
fn ends_at_once(call: &Call, layout: &Layout, reports: &[Report]) -> bool
    ensures { result ≡ ends_at_once call.now layout.now reports.now }
{
    if !is_read(call) {
        return false;
    }
    if !is_first_counting(call.stage()) {
        return false;
    }
    is_held_by_quorum(call, layout, reports, greatest_of(call, reports))
}

// Whether a quorum told this tag or smaller ones, and more than n - k members that they hold it.
fn is_held_by_quorum(call: &Call, layout: &Layout, reports: &[Report], tag: Tag) -> bool
    ensures { result ≡ is_held_by_quorum call.now layout.now reports.now tag }
{
    let id = call.id();
    let phase = call.phase().number();
    if !is_quorum(layout, count_no_greater(reports, tag, id, phase)) {
        return false;
    }
    exceeds_rest(layout, count_held(reports, tag, id, phase))
}

/// Whether a layout has a quorum of at most this many members.
pub(crate) fn is_quorum(layout: &Layout, count: usize) -> bool
    ensures value { result ≡ nat_le (quorum_of layout.now) count }
    ensures some { 1 ≤ quorum_of layout.now }
{
    usize::from(layout.quorum()) <= count
}

// The greatest tag that the current phase of a call was told.
fn greatest_of(call: &Call, reports: &[Report]) -> Tag
    ensures { result ≡ greatest_of call.now reports.now }
{
    greatest_told(reports, call.id(), call.phase().number())
}

// Whether this many members of a layout are more than n - k.
fn exceeds_rest(layout: &Layout, count: usize) -> bool
    ensures { result ≡ exceeds_rest layout.now count }
{
    let rest = layout.n() - layout.k();
    usize::from(rest) < count
}

// Whether a phase of this kind has its members finalize a tag.
fn is_finalizing(kind: Kind) -> bool
    ensures { result ≡ is_finalizing kind }
{
    match kind {
        Kind::Finalize(_) | Kind::Fetch(_) => true,
        Kind::Next | Kind::Spread(_) | Kind::Query | Kind::PreWrite(_) => false,
    }
}

// Whether a phase of this kind fetches pieces.
fn is_fetch(kind: Kind) -> bool
    ensures { result ≡ is_fetch kind }
{
    match kind {
        Kind::Fetch(_) => true,
        _ => false,
    }
}

// Whether a call at this stage fetches or finalizes its tag, and this is its last position.
fn is_last_at(stage: Stage, position: u32) -> bool
    ensures { result ≡ is_last_at stage position }
{
    match stage {
        Stage::FetchAt {
            shown_at: _,
            last,
            tag: _,
        } => last == position,
        Stage::FinalizeAt { last, tag: _ } => last == position,
        _ => false,
    }
}

/// Whether a call at this stage asks for the pointer of the first position that counts.
pub(crate) fn is_first_counting(stage: Stage) -> bool
    ensures { result ≡ is_first_counting stage }
{
    match stage {
        Stage::ReadNext {
            position,
            finalized,
        } => position == finalized,
        _ => false,
    }
}

/// Whether the current phase of a call asks the members for their pieces, too.
pub(crate) fn asks_piece(call: &Call) -> bool
    ensures { result ≡ asks_piece call.now.kind call.now.stage }
{
    is_read(call) && is_first_counting(call.stage())
}
