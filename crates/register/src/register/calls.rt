//! How calls begin and end.

ghost use Rattle.std.specs.Prelude.{◌≡◌, ◌⊎◌, ℕ, ◌<◌, nat_le, nat_lt, suc, pred, false, List, length, OnOk, OnErr};
ghost use Rattle.std.specs.Prelude.{IfOk, IfErr, Some};
ghost use Rattle.std.specs.Vec.{vec_len, vec_capacity};
ghost use Rattle.tag.specs.Refusal.{IsByCause};
ghost use Rattle.tag.specs.declared.refusal.Refusal.TheVariants.{Full, NoMemory};
ghost use Rattle.mail.specs.Mail.{mail_cause};
ghost use Rattle.record.specs.declared.call.CallKind.TheVariants.{Read, Write};
ghost use Rattle.record.specs.declared.call.Operation.TheVariants as operations;
ghost use Rattle.record.specs.Fragments.{AreBytes, IsValue};
ghost use Rattle.tag.specs.declared.limits.TheConstants.{LONGEST_VALUE, MOST_CALLS};
ghost use Rattle.record.specs.Steps.{Step, called_object};
ghost use Rattle.register.specs.State.{made, next_id};
ghost use Rattle.register.specs.Causes.{unless, if_step, read_cause, write_cause, move_cause, answer_cause};
ghost use Rattle.register.specs.View.{receipt_at};

use crate::position::Position;
use crate::register::Register;
use crate::register::phases::{index_of, want_of};
use crate::tracked_call::TrackedCall;
use bank::{Kind, Status};
use bytes::Bytes;
use call::{Receipt, first_stage};
use layout::Layout;
use mail::Ask;
use record::{CallKind, Operation, Want};
use tag::{CallId, LONGEST_VALUE, MOST_STEPS, Refusal, Stamp};

impl Register {
    /// Begins a read: its first phase sends a request Next to each of the n members of the base. Returns the call's
    /// number, counted from 1.
    ///
    /// Is refused with `Full` if `now` is above `MOST_STEPS`, the object has `MOST_CALLS` calls, or the n requests
    /// would make more than `MOST_MESSAGES` waiting messages.
    pub fn call_read(&mut self, now: Stamp) -> Result<CallId, Refusal>
        requires after { self.old.last < now }
        ensures step { OnOk result (self.new ≡ made (Step.CallRead (next_id self.old.object)) now self.old) }
        ensures number { IfOk result (λ n. n ≡ suc (length self.old.object.calls)) }
        ensures cause { IsByCause (read_cause now self.old.object) result }
        ensures unchanged { OnErr result (self.new ≡ self.old) }
    {
        self.begin_reading(CallKind::Read, now)
    }

    /// Begins a write of a value: its first phase sends a request Next to each of the n members of the base. Returns
    /// the call's number, counted from 1.
    ///
    /// Is refused with `TooLong` if the value is longer than `LONGEST_VALUE` bytes, and with `Full` as for `call_read`.
    pub fn call_write(&mut self, value: Bytes, now: Stamp) -> Result<CallId, Refusal>
        requires after { self.old.last < now }
        ensures step { OnOk result (self.new ≡ made (Step.CallWrite (next_id self.old.object) value) now self.old) }
        ensures number { IfOk result (λ n. n ≡ suc (length self.old.object.calls)) }
        ensures cause { IsByCause (write_cause value now self.old.object) result }
        ensures unchanged { OnErr result (self.new ≡ self.old) }
    {
        if !is_short(value.as_slice()) {
            return Err(Refusal::TooLong);
        }
        self.begin_reading(CallKind::Write(value), now)
    }

    // Begins a call that first reads the sequence of layouts: a read or a write.
    fn begin_reading(&mut self, kind: CallKind, now: Stamp) -> Result<CallId, Refusal>
        requires after { self.old.last < now }
        requires kind { (kind ≡ Read) ⊎ ((value : List ℕ) × (kind ≡ Write value) × IsValue value) }
        ensures step { OnOk result (self.new
            ≡ record { object = called_object self.old.object (next_id self.old.object) kind now; last = now }) }
        ensures number { IfOk result (λ n. n ≡ suc (length self.old.object.calls)) }
        ensures cause { IsByCause (if_step now (unless (nat_lt (length self.old.object.calls) MOST_CALLS) Full
            (mail_cause (called_object self.old.object (next_id self.old.object) kind now).mail))) result }
        ensures unchanged { OnErr result (self.new ≡ self.old) }
    {
        self.may_call(now)?;
        let stage = first_stage(&kind, 0);
        let number = self.calls.len() as u64 + 1;
        let ask = Ask {
            call: number,
            number: 1,
            kind: Kind::Next,
            position: self.base,
        };
        self.calls.reserve(1)?;
        let call = TrackedCall::begin(
            *self.calls.allocator(),
            ask,
            kind,
            stage,
            self.positions[self.base as usize].layout(),
            &mut self.mail,
            now,
        )?;
        self.calls.push_reserved(call);
        self.last = now;
        Ok(number)
    }

    /// Begins a move to a layout. The next position exists from this step on, with a bank for each member of the
    /// layout. The first phase spreads Pending: it sends a request to each member of the position that was the last one
    /// so far. Returns the call's number, counted from 1.
    ///
    /// Is refused with `MovePending` if an earlier move is not answered. It is refused with `Full` if `now` is above
    /// `MOST_STEPS`, the object has `MOST_POSITIONS` positions or `MOST_CALLS` calls, or the requests would make more
    /// than `MOST_MESSAGES` waiting messages.
    pub fn call_move(&mut self, layout: Layout, now: Stamp) -> Result<CallId, Refusal>
        requires after { self.old.last < now }
        ensures step { OnOk result (self.new ≡ made (Step.CallMove (next_id self.old.object) layout) now self.old) }
        ensures number { IfOk result (λ n. n ≡ suc (length self.old.object.calls)) }
        ensures cause { IsByCause (move_cause layout now self.old.object) result }
        ensures unchanged { OnErr result (self.new ≡ self.old) }
    {
        self.may_move(now)?;
        reserve_both(&mut self.positions, &mut self.calls)?;
        let alloc = *self.calls.allocator();
        let next = Position::new(alloc, layout, self.delta, now)?;
        let last = self.positions.len() - 1;
        let position = last as u32;
        let number = self.calls.len() as u64 + 1;
        let stage = first_stage(&CallKind::Move, position);
        let ask = Ask {
            call: number,
            number: 1,
            kind: Kind::Spread(Status::Pending),
            position,
        };
        let call = TrackedCall::begin(
            alloc,
            ask,
            CallKind::Move,
            stage,
            self.positions[last].layout(),
            &mut self.mail,
            now,
        )?;
        self.positions.push_reserved(next);
        self.calls.push_reserved(call);
        self.is_moving = true;
        self.last = now;
        Ok(number)
    }

    /// Answers the call of this number. The receipt gets `object` as the object's place, and `now` as the step of the
    /// answer.
    ///
    /// Is refused with `NoCall` if there is no call of this number, with `NotNow` unless the call wants to be answered,
    /// and with `Full` if `now` is above `MOST_STEPS`.
    pub fn answer(&mut self, call: CallId, object: u32, now: Stamp) -> Result<Receipt, Refusal>
        requires after { self.old.last < now }
        ensures step { OnOk result (self.new ≡ made (Step.AnswerCall (pred call)) now self.old) }
        ensures receipt { IfOk result (λ r. receipt_at self.old.object object call now ≡ Some r) }
        ensures cause { IsByCause (answer_cause now self.old.object call) result }
        ensures unchanged { OnErr result (self.new ≡ self.old) }
    {
        let index = index_of(&self.calls, call)?;
        let Want::Answer = want_of(&self.positions, &self.calls[index]) else {
            return Err(Refusal::NotNow);
        };
        if now > MOST_STEPS {
            return Err(Refusal::Full);
        }
        let value = self.calls[index].returned(true)?;
        let operation = self.calls[index].operation();
        let called = self.calls[index].called();
        self.calls[index].answer(now);
        self.is_moving = is_still_moving(self.is_moving, operation);
        self.last = now;
        Ok(Receipt {
            object,
            kind: operation,
            call,
            called,
            answered: now,
            value,
        })
    }
}

// Reserves memory for one more position and one more call.
fn reserve_both(positions: &mut Vec<Position>, calls: &mut Vec<TrackedCall>) -> Result<(), Refusal>
    ensures positions { positions.new.items ≡ positions.old.items }
    ensures calls { calls.new.items ≡ calls.old.items }
    ensures lens { (vec_len positions.new ≡ vec_len positions.old) × (vec_len calls.new ≡ vec_len calls.old) }
    ensures room { OnOk result ((vec_len positions.new < vec_capacity positions.new)
        × (vec_len calls.new < vec_capacity calls.new)) }

    ensures refused { IfErr result (λ e. e ≡ NoMemory) }
{
    positions.reserve(1)?;
    calls.reserve(1)?;
    Ok(())
}

// Whether a move is open after the answer of a call with this operation.
fn is_still_moving(is_moving: bool, operation: Operation) -> bool
    ensures ended { operation ≡ operations.Move → result ≡ false }
    ensures same { (operation ≡ operations.Move → ⊥) → result ≡ is_moving }
{
    match operation {
        Operation::Move => false,
        Operation::Read | Operation::Write => is_moving,
    }
}

// Whether the value is within the limit on its length.
fn is_short(value: &[u8]) -> bool
    ensures short { result ≡ nat_le (length value.now) LONGEST_VALUE }
    ensures bytes { AreBytes value.now }
{
    value.len() <= LONGEST_VALUE
}
