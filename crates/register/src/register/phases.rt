//! What calls want, and how they continue.

ghost use Rattle.std.specs.Prelude.{◌≡◌, ◌≤◌, ◌⊎◌, ◌<◌, suc, pred, [], length, OnOk, OnErr, IfOk, IfErr};
ghost use Rattle.std.specs.Prelude.{Some, None, true};
ghost use Rattle.tag.specs.Refusal.{IsByCause, IsExactlyByCause};
ghost use Rattle.tag.specs.declared.refusal.Refusal.TheVariants.{NoCall};
ghost use Rattle.record.specs.Steps.{Step};
ghost use Rattle.record.specs.Wants.{is_fetch, value_len, want_of};
ghost use Rattle.register.specs.Coding.{is_pre_write};
ghost use Rattle.tag.specs.declared.limits.TheConstants.{MOST_POSITIONS, MOST_STEPS};
ghost use Rattle.register.specs.Tracked.{HasPositionsBelow, tracked_want};
ghost use Rattle.register.specs.State.{made, object_of};
ghost use Rattle.register.specs.Causes.{number_cause, advance_cause, again_cause, post_cause};
ghost use Rattle.register.specs.Causes.{due_step, due_cause, wants_due};
ghost use Rattle.register.specs.View.{want_at};

use crate::position::Position;
use crate::register::Register;
use crate::tracked_call::TrackedCall;
use bank::{Answer, Kind};
use call::due;
use mail::Taken;
use record::Want;
use tag::{CallId, MOST_STEPS, Refusal, Stamp};

impl Register {
    /// Returns what the call of this number wants next: `Done` if it is answered. It allocates no memory.
    ///
    /// Is refused with `NoCall` if there is no call of this number.
    pub fn want(&self, call: CallId) -> Result<Want, Refusal>
        ensures want { IfOk result (λ w. want_at self.now.object call ≡ Some w) }
        ensures cause { IsExactlyByCause (number_cause self.now.object call) result }
    {
        let index = index_of(&self.calls, call)?;
        Ok(want_of(&self.positions, &self.calls[index]))
    }

    /// The call of this number begins the phase that is due, if that phase sends no pieces: a request goes to each of
    /// the n members of its position.
    ///
    /// Is refused with `NoCall` if there is no call of this number, with `NotNow` unless the call wants to advance, and
    /// with `Full` if `now` is above `MOST_STEPS`, the call has `MOST_PHASES` phases, or the requests would make more
    /// than `MOST_MESSAGES` waiting messages.
    pub fn advance(&mut self, call: CallId, now: Stamp) -> Result<(), Refusal>
        requires after { self.old.last < now }
        ensures step { OnOk result (self.new ≡ made (Step.Advance (pred call)) now self.old) }
        ensures cause { IsByCause (advance_cause now self.old.object call) result }
        ensures unchanged { OnErr result (self.new ≡ self.old) }
    {
        self.begin_due(call, false, now)
    }

    /// Restarts the call of this number, whose fetch lacks pieces. A read restarts with a first reading, which begins
    /// at the object's base, and a move restarts with its query. The numbers of the call's phases continue.
    ///
    /// Is refused with `NoCall` if there is no call of this number, with `NotNow` unless the call wants to be
    /// restarted, and with `Full` as for `advance`.
    pub fn again(&mut self, call: CallId, now: Stamp) -> Result<(), Refusal>
        requires after { self.old.last < now }
        ensures step { OnOk result (self.new ≡ made (Step.Again (pred call)) now self.old) }
        ensures cause { IsByCause (again_cause now self.old.object call) result }
        ensures unchanged { OnErr result (self.new ≡ self.old) }
    {
        self.begin_due(call, true, now)
    }

    // The call of this number begins the phase that is due: as an advance, or if `anew` as a restart.
    fn begin_due(&mut self, call: CallId, anew: bool, now: Stamp) -> Result<(), Refusal>
        requires after { self.old.last < now }
        ensures step { OnOk result (self.new ≡ made (due_step anew (pred call)) now self.old) }
        ensures cause { IsByCause (due_cause anew now self.old.object call) result }
        ensures unchanged { OnErr result (self.new ≡ self.old) }
    {
        let (index, kind, position) = self.due_phase(call, anew, now)?;
        self.calls[index].begin_next(
            kind,
            position,
            self.positions[position as usize].layout(),
            None,
            &mut self.mail,
            now,
        )?;
        self.last = now;
        Ok(())
    }

    /// Resends the requests of the current phase of the call of this number: one to each member that has no recorded
    /// reply and no waiting message of the phase. It is a step even if there is no such member.
    ///
    /// Is refused with `NoCall` if there is no call of this number, with `NotNow` unless its current phase lacks a
    /// quorum and sends no pieces (see `supply`), and with `Full` if `now` is above `MOST_STEPS` or the requests would
    /// make more than `MOST_MESSAGES` waiting messages.
    pub fn post(&mut self, call: CallId, now: Stamp) -> Result<(), Refusal>
        requires after { self.old.last < now }
        ensures step { OnOk result (self.new ≡ made (Step.Post (pred call)) now self.old) }
        ensures cause { IsByCause (post_cause now self.old.object call) result }
        ensures unchanged { OnErr result (self.new ≡ self.old) }
    {
        let index = index_of(&self.calls, call)?;
        let Want::Replies = want_of(&self.positions, &self.calls[index]) else {
            return Err(Refusal::NotNow);
        };
        if is_pre_write(self.calls[index].current().kind()) {
            return Err(Refusal::NotNow);
        }
        if now > MOST_STEPS {
            return Err(Refusal::Full);
        }
        self.calls[index].ask_again(call, None, &mut self.mail)?;
        self.last = now;
        Ok(())
    }
}

// The index of the call of this number.
pub fn index_of(calls: &[TrackedCall], call: CallId) -> Result<usize, Refusal>
    ensures place { IfOk result (λ index. (suc index ≡ call) × (index < length calls.now)) }
    ensures refused { IfErr result (λ e. (e ≡ NoCall) × ((call ≡ 0) ⊎ (length calls.now < call))) }
{
    if call == 0 || call > calls.len() as u64 {
        return Err(Refusal::NoCall);
    }
    Ok((call - 1) as usize)
}

// What a call wants, where these are the object's positions.
pub fn want_of(positions: &[Position], call: &TrackedCall) -> Want
    requires count { length positions.now ≤ MOST_POSITIONS }
    requires below { HasPositionsBelow (length positions.now) call.now }
    ensures { result ≡ tracked_want (object_of None positions.now [] []) call.now }
{
    if call.is_answered() {
        return Want::Done;
    }
    let phase = call.current();
    if !phase.complete() {
        return Want::Replies;
    }
    if is_fetch(phase.kind()) && !call.is_settled() {
        if phase.lacks_pieces() {
            return Want::Again;
        }
        return Want::Settle {
            k: positions[phase.position() as usize].layout().k(),
            len: value_len(phase.replies()),
        };
    }
    match due(call.stage()) {
        Some((Kind::PreWrite(_), position)) => {
            let layout = positions[position as usize].layout();
            Want::Supply {
                k: layout.k(),
                n: layout.n(),
            }
        }
        Some(_) => Want::Advance,
        None => Want::Answer,
    }
}

// Whether a call that wants this is to begin the phase that is due: as an advance, or if `anew` as a restart.
pub fn wants_due(anew: bool, wanted: Want) -> bool
    ensures { result ≡ wants_due anew wanted }
{
    match wanted {
        Want::Advance => !anew,
        Want::Again => anew,
        _ => false,
    }
}

// The length of the value that the first piece of these replies states, or 0 where there is no piece.
fn value_len(replies: &[Taken]) -> u32
    ensures { result ≡ value_len replies.now }
{
    for taken in replies {
        if let Answer::Piece(Some(piece)) = &taken.reply.answer {
            return piece.piece().len;
        }
    }
    0
}

// Whether a phase of this kind is a fetch.
fn is_fetch(kind: Kind) -> bool
    ensures { result ≡ is_fetch kind }
{
    match kind {
        Kind::Fetch(_) => true,
        _ => false,
    }
}

// Whether a phase of this kind sends pieces.
pub fn is_pre_write(kind: Kind) -> bool
    ensures { result ≡ is_pre_write kind }
{
    match kind {
        Kind::PreWrite(_) => true,
        _ => false,
    }
}
