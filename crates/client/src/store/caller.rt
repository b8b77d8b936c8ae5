//! Who makes the rounds of a call: a seat or the administrator.

ghost use Rattle.std.specs.Prelude.{◌≡◌, IfErr, IfOk, OnErr};
ghost use Rattle.tag.specs.declared.refusal.Refusal.{Refusal as RefusalOf};
ghost use Rattle.tag.specs.declared.refusal.Refusal.TheVariants.{NoMemory};
ghost use Rattle.call.specs.declared.receipt.Receipt.{Receipt as ReceiptOf};
ghost use Rattle.cluster.specs.Cluster.{Cluster as ClusterOf};
ghost use Rattle.locked_steps.specs.Course.{IsStateOf};
ghost use Rattle.locked_steps.specs.Moves.{Ends, asked_if, has_asked};
ghost use Rattle.locked_steps.specs.Seats.{SettlesPending, asked_once};
ghost use Rattle.locked_steps.specs.declared.handed_in.HandedIn.{HandedIn as HandOf};
ghost use Rattle.client.specs.Callers.{CanBeCoded, IsCodedFrom, IsRoundWithoutAnswer, LeavesBy};
ghost use Rattle.client.specs.Refusals.{IsMovingHand, IsMovingRefused, IsPendingHand, IsSeatRefused};

use driver::{Chooser, Round};
use locked_steps::{
    Admin, Booked, HandedIn, Seat, StoreName, has_move_in, move_round_in, move_step_in, round_in,
    step_in,
};
use tag::Refusal;

/// A client's seat, or the administrator.
pub(crate) trait Caller<L: StoreName> {
    /// Relates the caller before the answer, the receipt, and the caller after it.
    ghost ends: { Self → ReceiptOf → Self → Type 0 };

    /// The caller after a round made with `asks_again`, apart from an answer.
    ghost asks: { Self → Self };

    /// What is handed in was coded for the caller's pending call.
    ghost holds: { Self → HandOf → Type 0 };

    /// Why a round of the caller's pending call is refused in this state of the store.
    ghost is_refused: { ClusterOf → Self → RefusalOf → Type 0 };

    /// Makes the step of the caller's pending call, if the call wants replies or to advance. Returns false, and makes
    /// no step, if it wants something else.
    fn step<C: Chooser>(
        &self,
        booked: &mut Booked<L>,
        chooser: &mut C,
        turns: u64,
    ) -> Result<bool, Refusal>
        ensures state { IsStateOf L.first booked.old }
        ensures refused { IfErr result (λ e. is_refused booked.old self.now e) };

    /// Makes one round of the caller's pending call.
    fn round<C: Chooser>(
        &mut self,
        booked: &mut Booked<L>,
        chooser: &mut C,
        hand: HandedIn,
        asks_again: bool,
        turns: u64,
    ) -> Result<Round, Refusal>
        requires { holds self.old hand }
        ensures state { IsStateOf L.first booked.old }
        ensures leaves { IfOk result (λ r. LeavesBy ends (asked_if asks asks_again self.old) r self.new) }
        ensures codes { IfOk result (λ r. CanBeCoded r) }
        ensures hands { IfOk result (λ r. (next : HandOf) → IsCodedFrom r next → holds self.new next) }
        ensures memory { IfOk result (λ r. IsRoundWithoutAnswer r → is_refused booked.old self.new NoMemory) }
        ensures kept { OnErr result (self.new ≡ self.old) }
        ensures refused { IfErr result (λ e. is_refused booked.old self.old e) };
}

impl<L: StoreName> Caller<L> for Seat<L> {
    ghost ends = { λ before receipt after. SettlesPending before.pending before receipt after };

    ghost asks = { λ seat. asked_once seat };

    ghost holds = { λ seat hand. IsPendingHand L.first seat.pending hand };

    ghost is_refused = { λ cluster seat e. IsSeatRefused L.first cluster seat e };

    fn step<C: Chooser>(
        &self,
        booked: &mut Booked<L>,
        chooser: &mut C,
        turns: u64,
    ) -> Result<bool, Refusal> {
        step_in(booked, self, chooser, turns)
    }

    fn round<C: Chooser>(
        &mut self,
        booked: &mut Booked<L>,
        chooser: &mut C,
        hand: HandedIn,
        asks_again: bool,
        turns: u64,
    ) -> Result<Round, Refusal> {
        round_in(booked, self, chooser, hand, asks_again, turns)
    }
}

impl<L: StoreName> Caller<L> for Admin<L> {
    ghost ends = { λ before receipt after. Ends before receipt after };

    ghost asks = { λ admin. has_asked admin };

    ghost holds = { λ admin hand. IsMovingHand L.first admin.moving hand };

    ghost is_refused = { λ cluster admin e. IsMovingRefused L.first cluster admin.moving e };

    fn step<C: Chooser>(
        &self,
        booked: &mut Booked<L>,
        chooser: &mut C,
        turns: u64,
    ) -> Result<bool, Refusal> {
        if has_move_in(booked, self) {
            move_step_in(booked, self, chooser, turns)
        } else {
            Err(Refusal::NoCall)
        }
    }

    fn round<C: Chooser>(
        &mut self,
        booked: &mut Booked<L>,
        chooser: &mut C,
        hand: HandedIn,
        asks_again: bool,
        turns: u64,
    ) -> Result<Round, Refusal> {
        if !has_move_in(booked, self) {
            return Err(Refusal::NoCall);
        }
        move_round_in(booked, self, chooser, hand, asks_again, turns)
    }
}
