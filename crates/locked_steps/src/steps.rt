//! The rounds that hand nothing in or out: those of a call that wants replies or to advance.
ghost use Rattle.std.specs.Prelude.{◌≡◌, ◌⊎◌, false, None, Some, IfOk, OnErr, MatchResult};
ghost use Rattle.locked_steps.specs.Calls.{client_calls};
ghost use Rattle.locked_steps.specs.Course.{PreservesReachable, IsStateOf};
ghost use Rattle.locked_steps.specs.Orders.{MoveGoesNot, MoveSteps, move_cause_of};
ghost use Rattle.locked_steps.specs.Rounds.{GoesNot, SeatGoesNot, SeatSteps, going_cause, round_cause};
ghost use Rattle.locked_steps.specs.declared.handed_in.HandedIn.TheVariants as hands;
ghost use Rattle.driver.specs.Rounds.{MakesStep};

use crate::admin::Admin;
use crate::booked::{Booked, StoreName};
use crate::rounds::want_to_go;
use crate::seat::Seat;
use cluster::Cluster;
use driver::{Chooser, make_step_at};
use tag::{CallId, Refusal};

/// Makes the step of the seat's pending call, if the call wants replies or to advance: the round that `round_in` makes
/// with nothing handed in and without asking again. Returns false, and makes no step, if the call wants something else.
/// It is cheaper than `round_in`, since it returns no round.
///
/// Is refused as `round_in` is.
pub fn step_in<L: StoreName, C: Chooser>(
    booked: &mut Booked<L>,
    seat: &Seat<L>,
    chooser: &mut C,
    turns: u64,
) -> Result<bool, Refusal>
    ensures state { IsStateOf L.first booked.old }
    ensures steps { IfOk result
        (λ b. SeatSteps C.chooses seat.now.pending booked.old chooser.old booked.new chooser.new b) }
    ensures cause { MatchResult result (λ b. round_cause booked.old seat.now turns ≡ None) (λ e.
        ((round_cause booked.old seat.now turns ≡ Some e) × (chooser.new ≡ chooser.old))
        ⊎ ((round_cause booked.old seat.now turns ≡ None)
        × SeatGoesNot C.chooses seat.now.pending hands.Empty false booked.old chooser.old chooser.new e)) }

    ensures unchanged { OnErr result (booked.new ≡ booked.old) }
{
    booked.cluster.invariant();
    if seat.floor > booked.cluster.counter() {
        return Err(Refusal::Stranger);
    }
    let Some(record) = &seat.pending else {
        return Err(Refusal::NoCall);
    };
    let name = seat.name.as_str();
    step(
        &mut booked.cluster,
        name,
        record.object,
        record.call,
        turns,
        chooser,
    )
}

/// Makes the step of the administrator's pending move, as `step_in` makes one of a seat's call.
///
/// Is refused as `move_round_in` is.
pub fn move_step_in<L: StoreName, C: Chooser>(
    booked: &mut Booked<L>,
    admin: &Admin<L>,
    chooser: &mut C,
    turns: u64,
) -> Result<bool, Refusal>
    ensures state { IsStateOf L.first booked.old }
    ensures steps { IfOk result
        (λ b. MoveSteps C.chooses admin.now.moving booked.old chooser.old booked.new chooser.new b) }
    ensures cause { MatchResult result (λ b. move_cause_of booked.old admin.now.moving turns ≡ None) (λ e.
        ((move_cause_of booked.old admin.now.moving turns ≡ Some e) × (chooser.new ≡ chooser.old))
        ⊎ ((move_cause_of booked.old admin.now.moving turns ≡ None)
        × MoveGoesNot C.chooses admin.now.moving hands.Empty false booked.old chooser.old chooser.new e)) }

    ensures unchanged { OnErr result (booked.new ≡ booked.old) }
{
    booked.cluster.invariant();
    let Some(pending) = admin.pending else {
        return Err(Refusal::NoCall);
    };
    let name = admin.name.as_str();
    step(
        &mut booked.cluster,
        name,
        pending.object,
        pending.call,
        turns,
        chooser,
    )
}

// The step alone, of the cluster without its book.
fn step<C: Chooser>(
    cluster: &mut Cluster,
    name: &str,
    guess: u32,
    call: CallId,
    turns: u64,
    chooser: &mut C,
) -> Result<bool, Refusal>
    ensures steps { IfOk result
        (λ b. MakesStep C.chooses name.entry.now call cluster.old chooser.old cluster.new chooser.new b) }
    ensures cause { MatchResult result (λ b. going_cause cluster.old name.entry.now call turns ≡ None) (λ e.
        ((going_cause cluster.old name.entry.now call turns ≡ Some e) × (chooser.new ≡ chooser.old))
        ⊎ ((going_cause cluster.old name.entry.now call turns ≡ None)
        × GoesNot C.chooses name.entry.now call hands.Empty false cluster.old chooser.old chooser.new e)) }

    ensures unchanged { OnErr result (cluster.new ≡ cluster.old) }
    ensures count { client_calls cluster.new ≡ client_calls cluster.old }
    ensures course { PreservesReachable cluster.old cluster.new }
{
    let (want, object) = want_to_go(cluster, name, guess, call, turns)?;
    make_step_at(cluster, name, object, call, want, chooser)
}
