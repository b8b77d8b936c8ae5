//! How a call goes on once its phase is complete.

ghost use Rattle.std.specs.Prelude.{◌≡◌, ℕ, ◌<◌, true, List, Some, length, slice_get, IfOk, IfErr, MatchOption};
ghost use Rattle.tag.specs.declared.refusal.Refusal.TheVariants.{NoMemory};
ghost use Rattle.record.specs.Journals.{operation_of, entry_value};
ghost use Rattle.record.specs.Sending.{fragment_piece, requests};
ghost use Rattle.encoder.specs.Fragment.{fragment};
ghost use Rattle.decoder.specs.Decoded.{IsDecoded};
ghost use Rattle.call.specs.Call.{OpenCall as Machine};
ghost use Rattle.call.specs.Limits.{IsWithinLimits};
ghost use Rattle.call.specs.Next.{is_unsettled};
ghost use Rattle.local_object.specs.Coding.{is_sendable, call_value};
ghost use Rattle.local_object.specs.Going.{IsAdvancedIf, IsFetchedValue, IsOnlyValue, UnlessWaiting};
ghost use Rattle.local_object.specs.Going.{is_restart, next_here, next_if};
ghost use Rattle.local_object.specs.Taking.{can_begin};

use crate::Ended;
use crate::calls::Calls;
use crate::coding::{coded_for, is_sendable};
use crate::letters::{knows_next, letters_of};
use crate::pieces::first_pieces;
use crate::places::Places;
use bank::Kind;
use bytes::Bytes;
use call::{Call, Next, requests};
use decoder::decode;
use layout::Layout;
use letter::Letter;
use mail::{Ask, Message};
use piece::Piece;
use std::alloc::Global;
use tag::Refusal;

/// What a call does next here. It waits if the numbers of its next position or tag have no successors.
pub(crate) fn next_here(call: &Call) -> Next
    ensures next { result ≡ next_here call.now }
    ensures limits { UnlessWaiting result (IsWithinLimits call.now) }
{
    if !call.is_within_limits() {
        return Next::Wait;
    }
    match call.next() {
        Next::Answer => {
            if is_unsettled(call) {
                Next::Wait
            } else {
                Next::Answer
            }
        }
        next => next,
    }
}

/// What a call does next here, if it begins anew only if `again` is true, and waits otherwise.
pub(crate) fn next_if(call: &Call, again: bool) -> Next
    ensures next { result ≡ next_if again call.now }
    ensures limits { UnlessWaiting result (IsWithinLimits call.now) }
{
    match next_here(call) {
        Next::Restart(kind, position) => {
            if again {
                Next::Restart(kind, position)
            } else {
                Next::Wait
            }
        }
        next => next,
    }
}

/// Whether a call is to begin anew, since its complete fetch lacks pieces.
pub(crate) fn begins_anew(call: &Call) -> bool
    ensures { result ≡ is_restart (next_here call.now) }
{
    match next_here(call) {
        Next::Restart(_, _) => true,
        _ => false,
    }
}

// Whether the current phase of a call is a fetch, and no value is settled.
fn is_unsettled(call: &Call) -> bool
    ensures { result ≡ is_unsettled call.now }
{
    match call.phase().kind() {
        Kind::Fetch(_) => !call.is_settled(),
        _ => false,
    }
}

/// The call at an index begins a phase of this kind at this position, at a node with this start. Returns its requests.
/// Returns no letters, and changes nothing, if the node has not heard of the position, or not of the next one of which
/// the phase says that it is there, if there is no number for the phase, or if the value is too long to be encoded.
///
/// `NoMemory` is the only refusal.
pub(crate) fn advance(
    alloc: Global,
    places: &Places,
    start: u32,
    calls: &mut Calls,
    index: usize,
    kind: Kind,
    position: u32,
) -> Result<Vec<Letter>, Refusal>
    requires within { index < length calls.old }
    requires limits { (call : Machine) → slice_get calls.old index ≡ Some call → IsWithinLimits call }
    ensures advanced { IfOk result (λ letters. (call : Machine) → slice_get calls.old index ≡ Some call
        → IsAdvancedIf (can_begin places.now call kind position) places.now start calls.old call index kind
        position calls.new letters.items) }

    ensures refused { IfErr result (λ e. e ≡ NoMemory) }
{
    let Some(layout) = places.shared_layout_of(u64::from(position)) else {
        return Ok(Vec::new(alloc));
    };
    let call = calls.at(index);
    let number = call.phase().number();
    if number >= u32::MAX {
        return Ok(Vec::new(alloc));
    }
    if !is_sendable(kind, call) {
        return Ok(Vec::new(alloc));
    }
    if !knows_next(places, kind, position) {
        return Ok(Vec::new(alloc));
    }
    let ask = Ask {
        call: call.id(),
        number: number + 1,
        position,
        kind,
    };
    let messages = coded_requests(alloc, ask, call, layout.layout())?;
    let letters = letters_of(alloc, places, start, false, layout, messages)?;
    calls.begin_next(index, kind, position, layout.layout())?;
    Ok(letters)
}

/// The requests of a phase of a call to the members of a layout, with the pieces of its value where they carry pieces.
pub(crate) fn coded_requests(
    alloc: Global,
    ask: Ask,
    call: &Call,
    layout: &Layout,
) -> Result<Vec<Message>, Refusal>
    requires { is_sendable ask.kind call.now ≡ true }
    ensures requests { IfOk result (λ messages. messages.items
        ≡ requests ask.call ask.number ask.kind ask.position layout.now.members 0
        (fragment_piece fragment layout.now (call_value call.now))) }

    ensures refused { IfErr result (λ e. e ≡ NoMemory) }
{
    let coded = coded_for(alloc, ask.kind, call, layout)?;
    requests(alloc, ask, layout.n(), coded.as_ref())
}

/// The value that a call fetched. None if the node has not heard of the position of its phase, or if its pieces do not
/// decode.
///
/// `NoMemory` is the only refusal.
pub(crate) fn fetched(alloc: Global, places: &Places, call: &Call) -> Result<Option<Bytes>, Refusal>
    ensures value { IfOk result (λ value. MatchOption value
        ((v : List ℕ) → IsFetchedValue places.now call.now v → ⊥) (IsFetchedValue places.now call.now)) }

    ensures refused { IfErr result (λ e. e ≡ NoMemory) }
{
    let phase = call.phase();
    let Some(layout) = places.layout_of(u64::from(phase.position())) else {
        return Ok(None);
    };
    let pieces = first_pieces(alloc, layout.k(), phase.replies())?;
    decoded(alloc, layout.k(), pieces)
}

/// The only value that is decoded from these k pieces. None where they do not decode.
///
/// `NoMemory` is the only refusal.
pub(crate) fn decoded(alloc: Global, k: u8, pieces: Vec<Piece>) -> Result<Option<Bytes>, Refusal>
    ensures value { IfOk result (λ value. MatchOption value
        ((v : List ℕ) → IsDecoded (record { k = k; pieces = pieces.items; value = v }) → ⊥)
        (IsOnlyValue k pieces.items)) }

    ensures refused { IfErr result (λ e. e ≡ NoMemory) }
{
    let Some(piece) = pieces.first() else {
        return Ok(None);
    };
    let len = piece.len;
    match decode(alloc, k, len, pieces) {
        Ok(decoded) => Ok(Some(decoded.into_value())),
        Err(Refusal::BadPieces) => Ok(None),
        Err(_) => Err(Refusal::NoMemory),
    }
}

/// What the client of an answered call is told. `NoMemory` is the only refusal.
pub(crate) fn ended(call: &Call) -> Result<Ended, Refusal>
    ensures told { IfOk result (λ ended. ended ≡ record {
      id = call.now.id;
      kind = operation_of call.now.kind;
      value = entry_value call.now.kind (Some 0) call.now.settled;
    }) }

    ensures refused { IfErr result (λ e. e ≡ NoMemory) }
{
    Ok(Ended {
        id: call.id(),
        kind: call.operation(),
        value: call.returned(true)?,
    })
}
