//! One call of an object.

ghost use Rattle.std.specs.Prelude.{◌≡◌, ◌&&◌, ℕ, ◌+◌, ◌++◌, suc, nat_lt, nat_le, List, length, option_copied};
ghost use Rattle.std.specs.Prelude.{Some, None, IfOk, OnOk, OnErr};
ghost use Rattle.tag.specs.declared.limits.TheConstants.{MOST_PHASES, MOST_MESSAGES};
ghost use Rattle.tag.specs.declared.refusal.Refusal.TheVariants.{Full};
ghost use Rattle.tag.specs.Refusal.{IsByCause};
ghost use Rattle.piece.specs.declared.piece.Piece.{Piece};
ghost use Rattle.bank.specs.Bank.{empty_piece};
ghost use Rattle.mail.specs.Mail.{mail_cause};
ghost use Rattle.mail.specs.Phase.{Phase as Asking, after_take};
ghost use Rattle.record.specs.PhaseOrder.{begun_at};
ghost use Rattle.record.specs.Steps.{new_call};
ghost use Rattle.record.specs.Sending.{requests};
ghost use Rattle.record.specs.Wants.{current_phase};
ghost use Rattle.call.specs.Pieces.{HavePieces, piece_from};
ghost use Rattle.call.specs.StageLimits.{IsBelowLimit, HasNextTag};
ghost use Rattle.register.specs.Causes.{unless};
ghost use Rattle.register.specs.Kept.{HasRoomIfFew};
ghost use Rattle.register.specs.Tracked.{with_begun, asked_again, taken_tracked, took_current};

use crate::requests::{has_room, post_requests};
use bank::Kind;
use bytes::Bytes;
use call::Call;
use encoder::Coded;
use layout::Layout;
use mail::{Ask, Mail, Message, Phase, Took};
use record::{CallKind, Stage};
use std::alloc::Global;
use std::marker::Model;
use tag::{Refusal, Stamp};

mod resending;
mod views;

/// A call of an object, with its phases.
#[derive(Debug)]
pub struct TrackedCall {
    called: Stamp,
    answered: Option<Stamp>,
    // The phases before the current one, the first one first.
    finished: Vec<Phase>,
    // The stage to which the phases lead.
    stage: Stage,
    // The call with its current phase. It stays as it is once the call is answered.
    call: Call,
}

impl Drop for TrackedCall {
    fn drop(self) {
        let Self {
            called: _,
            answered: _,
            finished: _,
            stage: _,
            call: _,
        } = self;
    }
}

impl Model for TrackedCall {
    ghost use Rattle.register.specs.Tracked.{Tracked, IsTracked, tracked_of};

    ghost Value = { Tracked };

    ghost view = { λ c. tracked_of c.called c.answered c.finished.items c.call c.stage };

    ghost invariant = { λ c. IsTracked c.finished.items c.call c.stage };
}

impl TrackedCall {
    /// Makes a call that begins at a stage, together with its first phase, as `ask` says, at a position with this
    /// layout. The requests are posted. If it is refused, the mail does not change.
    pub(crate) fn begin(
        alloc: Global,
        ask: Ask,
        kind: CallKind,
        stage: Stage,
        layout: &Layout,
        mail: &mut Mail,
        now: Stamp,
    ) -> Result<TrackedCall, Refusal>
        requires first { ask.number ≡ 1 }
        requires pieces { HavePieces ask.kind (length layout.now.members) None }
        requires room { HasRoomIfFew (mail.old ++ requests ask.call 1 ask.kind ask.position
            layout.now.members 0 empty_piece) }

        ensures call { IfOk result (λ c. c ≡ with_begun (record { call = new_call ask.call kind now; stage = stage })
            ask.call ask.kind ask.position layout.now now) }

        ensures mail { OnOk result (mail.new ≡ mail.old ++ requests ask.call 1 ask.kind ask.position
            layout.now.members 0 empty_piece) }

        ensures cause { IsByCause (mail_cause (mail.old ++ requests ask.call 1 ask.kind ask.position
            layout.now.members 0 empty_piece)) result }

        ensures kept { OnErr result (mail.new ≡ mail.old) }
    {
        if !has_room(mail, usize::from(layout.n())) {
            return Err(Refusal::Full);
        }
        let call = Call::begin(alloc, ask, kind, stage, layout, now)?;
        post_requests(alloc, ask, layout, None, mail)?;
        let stage = call.stage();
        Ok(TrackedCall {
            called: now,
            answered: None,
            finished: Vec::new(alloc),
            stage,
            call,
        })
    }

    /// The call begins its next phase, at a position with this layout. The requests are posted, and the phase is added;
    /// a first reading begins at the position. If it is refused, nothing changes.
    pub(crate) fn begin_next(
        &mut self,
        kind: Kind,
        position: u32,
        layout: &Layout,
        coded: Option<&Coded>,
        mail: &mut Mail,
        now: Stamp,
    ) -> Result<(), Refusal>
        requires pieces { HavePieces kind (length layout.now.members) (option_copied coded) }
        requires room { HasRoomIfFew (mail.old
            ++ requests self.old.call.id (suc (length self.old.call.phases)) kind position
            layout.now.members 0 (piece_from (option_copied coded))) }

        ensures call { OnOk result (self.new
            ≡ with_begun self.old self.old.call.id kind position layout.now now) }

        ensures mail { OnOk result (mail.new
            ≡ mail.old ++ requests self.old.call.id (suc (length self.old.call.phases)) kind position
            layout.now.members 0 (piece_from (option_copied coded.entry))) }

        ensures cause { IsByCause (unless (nat_lt (length self.old.call.phases) MOST_PHASES) Full
            (mail_cause (mail.old ++ requests self.old.call.id (suc (length self.old.call.phases)) kind position
            layout.now.members 0 (piece_from (option_copied coded.entry))))) result }

        ensures unchanged { OnErr result (self.new ≡ self.old) }
        ensures kept { OnErr result (mail.new ≡ mail.old) }
    {
        if !self.can_begin(layout.n(), mail) {
            return Err(Refusal::Full);
        }
        let alloc = *self.finished.allocator();
        let ask = Ask {
            call: self.call.id(),
            number: self.count() as u32 + 1,
            kind,
            position,
        };
        self.finished.reserve(1)?;
        let phase = self.call.next_phase(alloc, kind, position, layout, now)?;
        post_requests(alloc, ask, layout, coded, mail)?;
        let before = self.call.enter(self.stage, phase);
        self.finished.push_reserved(before);
        self.stage = self.call.stage();
        Ok(())
    }

    /// The current phase takes a message at step `now`, and the stage moves on if that completes the phase. It
    /// allocates no memory.
    pub(crate) fn take(&mut self, message: Message, now: Stamp) -> Took
        requires near { (p : Asking) → current_phase self.old.call.phases ≡ Some p
            → IsBelowLimit (begun_at self.old.stage p.position) }
        requires tags { (p : Asking) → current_phase self.old.call.phases ≡ Some p
            → HasNextTag self.old.call.kind (begun_at self.old.stage p.position) (after_take p message now).replies }

        ensures call { self.new ≡ taken_tracked message now self.old }
        ensures took { result ≡ took_current message (current_phase self.old.call.phases) }
    {
        if self.call.phase().complete() {
            return Took::Stale;
        }
        let took = self.call.take(message, now);
        self.stage = self.call.reached();
        took
    }

    /// The call settles a value.
    pub(crate) fn settle(&mut self, value: Bytes)
        ensures { self.new ≡ record { call = record self.old.call { settled = Some value }; stage = self.old.stage } }
    {
        self.call.settle(value);
    }

    /// The call is answered at step `now`. It frees the room that was reserved for further phases.
    pub(crate) fn answer(&mut self, now: Stamp)
        ensures { self.new ≡ record { call = record self.old.call { answered = Some now }; stage = self.old.stage } }
    {
        self.answered = Some(now);
        self.finished.shrink_to_fit();
    }
}
