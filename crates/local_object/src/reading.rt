//! Calls that read the sequence of layouts from a start on.

ghost use Rattle.std.specs.Prelude.{◌≡◌, ◌&&◌, ◌<◌, ◌^◌, not, is_some, length, nat_lt, None, Some, slice_get};
ghost use Rattle.std.specs.Prelude.{IfOk, IfErr, IsSome, option_copied};
ghost use Rattle.tag.specs.declared.refusal.Refusal.TheVariants.{NoMemory};
ghost use Rattle.call.specs.Call.{OpenCall as Machine, reached};
ghost use Rattle.call.specs.Limits.{IsWithinLimits};
ghost use Rattle.local_object.specs.Anew.{IsBegunAnew, IsReadLater};
ghost use Rattle.local_object.specs.Distinct.{KnowsStart};
ghost use Rattle.local_object.specs.Local.{heard_place, layout_in};
ghost use Rattle.local_object.specs.ReadingOn.{has_quorum, is_next, is_reading, is_reading_at};
ghost use Rattle.local_object.specs.Starting.{first_number};
ghost use Rattle.local_object.specs.Taking.{is_read_begin};

use crate::calls::{Calls, is_move, is_read};
use crate::going::advance;
use crate::letters::letters_of;
use crate::places::Places;
use bank::Kind;
use call::{Call, requests};
use layout::Layout;
use letter::Letter;
use mail::Ask;
use record::{CallKind, Operation, Stage};
use std::alloc::Global;
use tag::Refusal;

/// Returns the number of the phase in which a call that begins at a start reads there.
pub(crate) fn first_number(start: u32) -> u32
    requires { start < 2 ^ 31 }
    ensures { result ≡ first_number start }
{
    2 * start + 1
}

/// The call at an index, whose fetch lacks pieces, begins anew: a read that is to read the sequence of layouts does so
/// from the start on, and any other call begins a phase of this kind at this position. Returns its requests. Returns no
/// letters, and changes nothing, if it cannot begin, or if it is a move that is to read the sequence of layouts.
///
/// `NoMemory` is the only refusal.
pub(crate) fn begin_anew(
    alloc: Global,
    places: &Places,
    calls: &mut Calls,
    index: usize,
    start: u32,
    asked: (Kind, u32),
) -> Result<Vec<Letter>, Refusal>
    requires within { index < length calls.old }
    requires limits { (call : Machine) → slice_get calls.old index ≡ Some call → IsWithinLimits call }
    requires unsettled { (call : Machine) → slice_get calls.old index ≡ Some call → call.settled ≡ None }
    requires start { KnowsStart places.now start }
    ensures begun { IfOk result (λ letters. (call : Machine) → slice_get calls.old index ≡ Some call
        → IsBegunAnew places.now calls.old call index start asked.0 asked.1 calls.new letters.items) }

    ensures refused { IfErr result (λ e. e ≡ NoMemory) }
{
    let call = calls.at(index);
    if begins_reading(call) {
        if is_move(call) {
            return Ok(Vec::new(alloc));
        }
        return read_at(alloc, places, calls, index, first_number(start), start);
    }
    advance(alloc, places, start, calls, index, asked.0, asked.1)
}

// Whether the call has reached the stage at which its first reading is to begin.
fn begins_reading(call: &Call) -> bool
    requires { IsWithinLimits call.now }
    ensures { result ≡ is_read_begin (reached call.now) }
{
    match call.reached() {
        Stage::ReadBegin => true,
        _ => false,
    }
}

/// The call at an index, which has settled nothing, reads the sequence of layouts at the node's start, which is this
/// position, in a phase whose number is higher by `more` than that of its phase now. Returns its requests. Returns no
/// letters, and changes nothing, if there is no such number.
///
/// `NoMemory` is the only refusal.
pub(crate) fn read_at(
    alloc: Global,
    places: &Places,
    calls: &mut Calls,
    index: usize,
    more: u32,
    position: u32,
) -> Result<Vec<Letter>, Refusal>
    requires within { index < length calls.old }
    requires unsettled { (call : Machine) → slice_get calls.old index ≡ Some call → call.settled ≡ None }
    requires known { IsSome (layout_in (heard_place places.now position)) }
    ensures read { IfOk result (λ letters. (call : Machine) → slice_get calls.old index ≡ Some call
        → IsReadLater places.now calls.old call index more position calls.new letters.items) }

    ensures refused { IfErr result (λ e. e ≡ NoMemory) }
{
    let Some(layout) = places.shared_layout_of(u64::from(position)) else {
        unreachable!();
    };
    let call = calls.at(index);
    let number = call.phase().number();
    if number > u32::MAX - more {
        return Ok(Vec::new(alloc));
    }
    let ask = Ask {
        call: call.id(),
        number: number + more,
        position,
        kind: Kind::Next,
    };
    let messages = requests(alloc, ask, layout.layout().n(), None)?;
    let letters = letters_of(alloc, places, position, is_read(call), layout, messages)?;
    calls.read_at(index, ask, layout.layout())?;
    Ok(letters)
}

/// The kind of the call, whose value shares its bytes. `NoMemory` is the only refusal.
pub(crate) fn kind_of(call: &Call) -> Result<CallKind, Refusal>
    ensures kind { IfOk result (λ kind. kind ≡ call.now.kind) }
    ensures refused { IfErr result (λ e. e ≡ NoMemory) }
{
    match call.operation() {
        Operation::Read => Ok(CallKind::Read),
        Operation::Write => match call.value() {
            Some(value) => Ok(CallKind::Write(value.clone()?)),
            None => unreachable!(),
        },
        Operation::Move => Ok(CallKind::Move),
    }
}

/// Returns whether the call is no move and has settled nothing, and its phase reads the sequence of layouts at a
/// position of which the node has heard, and still lacks a quorum of replies.
pub(crate) fn is_reading(places: &Places, call: &Call) -> bool
    ensures value { result ≡ is_reading places.now call.now }
    ensures named { call.now.phase.call ≡ call.now.id }
    ensures waiting { is_some call.now.phase.end
        ≡ not (nat_lt (length call.now.phase.replies) call.now.phase.quorum) }
{
    let phase = call.phase();
    let complete = phase.complete();
    !is_move(call)
        && !complete
        && !call.is_settled()
        && is_reading_at(call.stage(), phase.position())
        && is_next(phase.kind())
        && has_quorum(
            places.layout_of(u64::from(phase.position())),
            phase.quorum(),
        )
}

/// Whether the first reading of the sequence of layouts is at this position.
pub(crate) fn is_reading_at(stage: Stage, position: u32) -> bool
    ensures { result ≡ is_reading_at stage position }
{
    match stage {
        Stage::ReadNext {
            position: there,
            ..
        } => there == position,
        _ => false,
    }
}

/// Whether a phase of this kind asks for a pointer.
pub(crate) fn is_next(kind: Kind) -> bool
    ensures { result ≡ is_next kind }
{
    match kind {
        Kind::Next => true,
        _ => false,
    }
}

// Whether there is a layout, and this many replies are a quorum of it.
fn has_quorum(layout: Option<&Layout>, quorum: u8) -> bool
    ensures { result ≡ has_quorum (option_copied layout.entry) quorum }
{
    match layout {
        Some(layout) => quorum == layout.quorum(),
        None => false,
    }
}
