//! The values that calls encode, and those that they settle.

ghost use Rattle.std.specs.Prelude.{◌≡◌, ◌⊎◌, ◌≤◌, ◌<◌, pred, [], length, Some, None, if◌then◌else◌};
ghost use Rattle.std.specs.Prelude.{OnOk, OnErr, IfOk};
ghost use Rattle.tag.specs.Refusal.{IsByCause, IsExactlyByCause};
ghost use Rattle.tag.specs.declared.refusal.Refusal.TheVariants.{Full, WrongCode};
ghost use Rattle.encoder.specs.Coded.{Coding};
ghost use Rattle.record.specs.Steps.{Step};
ghost use Rattle.record.specs.PhaseOrder.{due};
ghost use Rattle.record.specs.Wants.{current_phase};
ghost use Rattle.call.specs.StageLimits.{IsBelowLimit};
ghost use Rattle.register.specs.State.{made, object_of};
ghost use Rattle.tag.specs.declared.limits.TheConstants.{MOST_POSITIONS, MOST_STEPS};
ghost use Rattle.register.specs.Tracked.{HasPositionsBelow, tracked_want};
ghost use Rattle.register.specs.Coding.{pieces_position, sending_position};
ghost use Rattle.register.specs.Causes.{unless, value_cause, supply_cause, supplying_cause, pieces_cause};
ghost use Rattle.register.specs.Causes.{settle_cause, is_replied};
ghost use Rattle.register.specs.View.{coding_at, fetched_pieces};

use crate::pieces::piece_by;
use crate::position::Position;
use crate::register::Register;
use crate::register::phases::{index_of, is_pre_write, want_of};
use crate::tracked_call::TrackedCall;
use bank::Kind;
use bytes::Bytes;
use call::due;
use decoder::Decoded;
use encoder::Coded;
use mail::Phase;
use piece::Piece;
use record::Want;
use tag::{CallId, MOST_STEPS, Refusal, Stamp};

impl Register {
    /// Returns the value whose pieces the call of this number is to send, with the k and the n of the layout that gets
    /// them. The value is a copy that shares its bytes.
    ///
    /// Is refused with `NoCall` if there is no call of this number. It is refused with `NotNow` unless the phase that
    /// is due sends pieces, or the current phase sends them and has no quorum of replies yet.
    pub fn value_to_code(&self, call: CallId) -> Result<(Bytes, u8, u8), Refusal>
        ensures value { IfOk result (λ r. coding_at self.now.object call ≡ Some r) }
        ensures cause { IsByCause (value_cause self.now.object call) result }
    {
        let index = index_of(&self.calls, call)?;
        let tracked = &self.calls[index];
        let Some(value) = tracked.value() else {
            return Err(Refusal::NotNow);
        };
        let Some(position) = pieces_position(&self.positions, tracked) else {
            return Err(Refusal::NotNow);
        };
        let layout = self.positions[position as usize].layout();
        Ok((value.clone()?, layout.k(), layout.n()))
    }

    /// Returns whether the call of this number may be supplied at step `now` with its own value, so that the value need
    /// not be encoded in vain. It changes nothing and allocates no memory.
    ///
    /// Is refused with `NoCall` and `NotNow` as for `value_to_code`. It is refused with `Full` if `now` is above
    /// `MOST_STEPS`, the call has `MOST_PHASES` phases and would begin one more, or the requests would make more than
    /// `MOST_MESSAGES` waiting messages. `supply` has the same cause of refusal for every encoded value that it does
    /// not refuse as `WrongCode`.
    pub fn may_supply(&self, call: CallId, now: Stamp) -> Result<(), Refusal>
        requires after { self.now.last < now }
        ensures cause { IsExactlyByCause (supplying_cause now self.now.object call) result }
        ensures coded { (coded : Coding) → (supply_cause now self.now.object call coded ≡ Some WrongCode)
            ⊎ (supply_cause now self.now.object call coded ≡ supplying_cause now self.now.object call) }
    {
        let index = index_of(&self.calls, call)?;
        let tracked = &self.calls[index];
        let Some(position) = pieces_position(&self.positions, tracked) else {
            return Err(Refusal::NotNow);
        };
        if now > MOST_STEPS {
            return Err(Refusal::Full);
        }
        let members = self.positions[position as usize].layout().n();
        if tracked.current().complete() {
            full_unless(tracked.can_begin(members, &self.mail))
        } else {
            full_unless(tracked.can_ask_again(call, &self.mail))
        }
    }

    /// Hands in the encoded value of the call of this number. The phase that is due begins, and sends the n pieces. If
    /// that phase has begun already, its pieces are sent again to each member that has no recorded reply and no waiting
    /// message of the phase.
    ///
    /// Is refused with `NoCall` and `NotNow` as for `value_to_code`, with `WrongCode` unless `coded` has the value, the
    /// k and the n that `value_to_code` gives, and with `Full` as for `may_supply`.
    pub fn supply(&mut self, call: CallId, coded: Coded, now: Stamp) -> Result<(), Refusal>
        requires after { self.old.last < now }
        ensures step { OnOk result (self.new ≡ made (Step.Supply (pred call)) now self.old) }
        ensures cause { IsByCause (supply_cause now self.old.object call coded) result }
        ensures unchanged { OnErr result (self.new ≡ self.old) }
    {
        self.send_coded(call, &coded, now)
    }

    // Sends the pieces of the encoded value of the call of this number, in the phase that is due or the current one.
    fn send_coded(&mut self, call: CallId, coded: &Coded, now: Stamp) -> Result<(), Refusal>
        requires after { self.old.last < now }
        ensures step { OnOk result (self.new ≡ made (Step.Supply (pred call)) now self.old) }
        ensures cause { IsByCause (supply_cause now self.old.object call coded.now) result }
        ensures unchanged { OnErr result (self.new ≡ self.old) }
    {
        let (index, position) = self.supplied_call(call, coded, now)?;
        let tracked = &self.calls[index];
        if let Some((kind, to)) = due_next(tracked) {
            let layout = self.positions[position as usize].layout();
            self.calls[index].begin_next(kind, to, layout, Some(coded), &mut self.mail, now)?;
            self.last = now;
            Ok(())
        } else {
            self.calls[index].ask_again(call, Some(coded), &mut self.mail)?;
            self.last = now;
            Ok(())
        }
    }

    /// Returns the pieces that the call of this number is to decode. Of the pieces that its current phase took, these
    /// are the k with the least points, in the order of their points.
    ///
    /// Is refused with `NoCall` if there is no call of this number, with `NotNow` unless the call wants to settle a
    /// value, and with `Collected` if its fetch lacks pieces, so that it wants to be restarted.
    pub fn pieces(&self, call: CallId) -> Result<Vec<Piece>, Refusal>
        ensures pieces { IfOk result (λ ps. ps.items ≡ fetched_pieces self.now.object call) }
        ensures cause { IsByCause (pieces_cause self.now.object call) result }
    {
        let index = index_of(&self.calls, call)?;
        let k = match want_of(&self.positions, &self.calls[index]) {
            Want::Settle { k, len: _ } => k,
            Want::Again => return Err(Refusal::Collected),
            _ => return Err(Refusal::NotNow),
        };
        let phase = self.calls[index].current();
        let mut pieces = Vec::with_capacity(*self.calls.allocator(), usize::from(k))?;
        for member in 0..phase.members() {
            let Some(piece) = piece_by(phase.replies(), member) else {
                continue;
            };
            if pieces.len() < usize::from(k) {
                pieces.push(piece.clone()?)?;
            }
        }
        Ok(pieces)
    }

    /// The call of this number settles the value that was decoded. It allocates no memory.
    ///
    /// Is refused with `NoCall` if there is no call of this number, with `NotNow` unless the call wants to settle a
    /// value, with `Collected` if its fetch lacks pieces, with `WrongCode` unless the value was decoded from k pieces
    /// that its current phase took, and with `Full` if `now` is above `MOST_STEPS`.
    pub fn settle(&mut self, call: CallId, decoded: Decoded, now: Stamp) -> Result<(), Refusal>
        requires after { self.old.last < now }
        ensures step { OnOk result (self.new ≡ made (Step.Settle (pred call) decoded.value) now self.old) }
        ensures cause { IsExactlyByCause (settle_cause now self.old.object call decoded) result }
        ensures unchanged { OnErr result (self.new ≡ self.old) }
    {
        let index = self.settling_call(call, &decoded, now)?;
        self.calls[index].settle(decoded.into_value());
        self.last = now;
        Ok(())
    }
}

// The position whose members are to get the pieces of a call, if it sends any.
pub fn pieces_position(positions: &[Position], call: &TrackedCall) -> Option<u32>
    requires count { length positions.now ≤ MOST_POSITIONS }
    requires below { HasPositionsBelow (length positions.now) call.now }
    ensures { result ≡ pieces_position (tracked_want (object_of None positions.now [] []) call.now) (due call.now.stage)
        (current_phase call.now.call.phases) }
{
    match want_of(positions, call) {
        Want::Supply { k: _, n: _ } => match due(call.stage()) {
            Some((_, position)) => Some(position),
            None => None,
        },
        Want::Replies => sending_position(call.current()),
        _ => None,
    }
}

// The position of the phase, if it sends pieces.
fn sending_position(phase: &Phase) -> Option<u32>
    ensures { result ≡ sending_position (Some phase.now) }
{
    if is_pre_write(phase.kind()) {
        Some(phase.position())
    } else {
        None
    }
}

// The phase that is due, with its position, once the current phase of a call is complete.
fn due_next(call: &TrackedCall) -> Option<(Kind, u32)>
    requires { IsBelowLimit call.now.stage }
    ensures { result ≡ (if is_replied (current_phase call.now.call.phases) then due call.now.stage else None) }
{
    if call.current().complete() {
        due(call.stage())
    } else {
        None
    }
}

// `Full` unless the condition holds.
fn full_unless(holds: bool) -> Result<(), Refusal>
    ensures { IsExactlyByCause (unless holds Full None) result }
{
    if holds { Ok(()) } else { Err(Refusal::Full) }
}
