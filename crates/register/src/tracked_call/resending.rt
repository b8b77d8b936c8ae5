//! Whether a call has room for requests, and how it resends them.

ghost use Rattle.std.specs.Prelude.{◌≡◌, ◌&&◌, ℕ, ◌+◌, ◌++◌, nat_lt, nat_le, List, length, option_copied, Some, OnOk};
ghost use Rattle.std.specs.Prelude.{OnErr};
ghost use Rattle.tag.specs.declared.limits.TheConstants.{MOST_PHASES, MOST_MESSAGES};
ghost use Rattle.tag.specs.Refusal.{IsByCause};
ghost use Rattle.piece.specs.declared.piece.Piece.{Piece};
ghost use Rattle.mail.specs.Mail.{mail_cause};
ghost use Rattle.mail.specs.Phase.{Phase as Asking};
ghost use Rattle.record.specs.Wants.{current_phase};
ghost use Rattle.call.specs.Pieces.{HavePieces, piece_from};
ghost use Rattle.register.specs.Kept.{HasRoomIfFew};
ghost use Rattle.register.specs.Tracked.{asked_again};

use crate::requests::{has_room, missing, missing_count};
use crate::tracked_call::TrackedCall;
use encoder::Coded;
use mail::{Ask, Mail};
use tag::{CallId, MOST_PHASES, Refusal};

impl TrackedCall {
    /// Returns whether a phase with this many members may begin, by the limits on phases and messages.
    pub(crate) fn can_begin(&self, members: u8, mail: &Mail) -> bool
        ensures { result ≡ (nat_lt (length self.now.call.phases) MOST_PHASES
            && nat_le (length mail.now + members) MOST_MESSAGES) }
    {
        self.count() < MOST_PHASES && has_room(mail, usize::from(members))
    }

    /// Returns whether the current phase of the call, whose number is given, may resend its requests, by the limit on
    /// messages.
    pub(crate) fn can_ask_again(&self, number: CallId, mail: &Mail) -> bool
        ensures { (p : Asking) (servers : List ℕ) (piece : ℕ → Piece) → current_phase self.now.call.phases ≡ Some p
            → length servers ≡ p.members
            → result ≡ nat_le (length (mail.now ++ asked_again number p servers mail.now piece)) MOST_MESSAGES }
    {
        let phase = self.call.phase();
        let ask = Ask {
            call: number,
            number: phase.number(),
            kind: phase.kind(),
            position: phase.position(),
        };
        has_room(mail, missing_count(ask, phase, mail))
    }

    /// The current phase of the call, whose number is given, resends its requests: one to each member that has no
    /// recorded reply and no waiting message of the phase.
    pub(crate) fn ask_again(
        &self,
        number: CallId,
        coded: Option<&Coded>,
        mail: &mut Mail,
    ) -> Result<(), Refusal>
        requires pieces { (p : Asking) → current_phase self.now.call.phases ≡ Some p
            → HavePieces p.kind p.members (option_copied coded) }
        requires room { (p : Asking) (servers : List ℕ) → current_phase self.now.call.phases ≡ Some p
            → length servers ≡ p.members
            → HasRoomIfFew (mail.old ++ asked_again number p servers mail.old (piece_from (option_copied coded))) }

        ensures mail { OnOk result ((p : Asking) (servers : List ℕ) → current_phase self.now.call.phases ≡ Some p
            → length servers ≡ p.members
            → mail.new ≡ mail.old ++ asked_again number p servers mail.old (piece_from (option_copied coded.entry))) }

        ensures cause { (p : Asking) (servers : List ℕ) → current_phase self.now.call.phases ≡ Some p
            → length servers ≡ p.members
            → IsByCause (mail_cause (mail.old ++ asked_again number p servers mail.old
            (piece_from (option_copied coded.entry)))) result }

        ensures kept { OnErr result (mail.new ≡ mail.old) }
    {
        let phase = self.call.phase();
        let ask = Ask {
            call: number,
            number: phase.number(),
            kind: phase.kind(),
            position: phase.position(),
        };
        if !has_room(mail, missing_count(ask, phase, mail)) {
            return Err(Refusal::Full);
        }
        let messages = missing(*self.finished.allocator(), ask, phase, mail, coded)?;
        mail.post_all(messages)
    }
}
