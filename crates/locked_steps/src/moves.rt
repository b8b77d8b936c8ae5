//! The administrator's moves.

ghost use Rattle.std.specs.Prelude.{◌≡◌, ◌⊎◌, suc, None, Some, IfOk, IfErr, OnOk, OnErr, MatchResult};
ghost use Rattle.tag.specs.Refusal.{IsByCause, IsExactlyByCause};
ghost use Rattle.register.specs.Causes.{call_at};
ghost use Rattle.cluster.specs.Causes.{moving_cause, object_cause};
ghost use Rattle.cluster.specs.Cluster.{named, place_of};
ghost use Rattle.cluster.specs.Steps.{moved};
ghost use Rattle.locked_steps.specs.Calls.{client_calls};
ghost use Rattle.locked_steps.specs.Course.{PreservesReachable, IsStateOf};
ghost use Rattle.locked_steps.specs.Seats.{call_count};
ghost use Rattle.locked_steps.specs.Moves.{moving};
ghost use Rattle.locked_steps.specs.Orders.{AnswersMove, MoveGoes, MoveGoesNot, MoveLeaves, begin_move_cause};
ghost use Rattle.locked_steps.specs.Orders.{has_move, has_pending_move, is_move_begun, move_begun, move_cause_of};

use crate::admin::{Admin, PendingMove};
use crate::booked::{Booked, StoreName};
use crate::handed_in::HandedIn;
use crate::rounds::round_with_copy;
use crate::seat::hold;
use cluster::{Cluster, LayoutId};
use driver::{Chooser, Round};
use record::Operation;
use register::Register;
use tag::{CallId, Refusal, Stamp};

/// Begins a move of an object to the layout of this number: one step, which counts as an order.
///
/// Is refused with `NoObject` if no object has this name, with `MovePending` if the object or the administrator has a
/// move that is not answered, with `BadLayout` if there is no layout of this number, and with `Full` if the limit of
/// steps, of the object's positions, of its calls or of its waiting messages is met. Otherwise it is refused with
/// `NoMemory` if memory is refused. Without `Admin::make_room` for this name, the administrator copies the name under
/// the lock, before the step.
pub fn begin_move_in<L: StoreName>(
    booked: &mut Booked<L>,
    admin: &mut Admin<L>,
    name: &str,
    layout: LayoutId,
) -> Result<(), Refusal>
    ensures state { IsStateOf L.first booked.old }
    ensures step { OnOk result (booked.new ≡ moved booked.old name.now layout) }
    ensures free { OnOk result (admin.old.moving ≡ None) }
    ensures admin { OnOk result (admin.new ≡ move_begun booked.old admin.old name.now layout) }
    ensures cause { IsByCause (begin_move_cause booked.old admin.old.moving name.now layout) result }
    ensures unchanged { OnErr result (booked.new ≡ booked.old) }
    ensures kept { OnErr result (admin.new ≡ admin.old) }
{
    booked.cluster.invariant();
    let object = may_begin_move(&booked.cluster, admin, name, layout)?;
    hold(&mut admin.name, name)?;
    let call = call_move(&mut booked.cluster, name, layout)?;
    let pending = PendingMove {
        object,
        call,
        called: booked.cluster.counter(),
    };
    admin.pending = Some(pending);
    admin.note_order(&booked.cluster);
    Ok(())
}

// Whether the administrator may begin such a move, and the index of the object.
fn may_begin_move<L: StoreName>(
    cluster: &Cluster,
    admin: &Admin<L>,
    name: &str,
    layout: LayoutId,
) -> Result<u32, Refusal>
    ensures place { IfOk result (λ p. p ≡ place_of cluster.now.objects name.now) }
    ensures free { OnOk result (admin.now.moving ≡ None) }
    ensures may { OnOk result (object_cause cluster.now name.now (moving_cause cluster.now layout) ≡ None) }
    ensures cause { IsExactlyByCause (begin_move_cause cluster.now admin.now.moving name.now layout) result }
{
    let object = cluster.place(name)?;
    if admin.is_pending() {
        return Err(Refusal::MovePending);
    }
    cluster.may_move(name, layout)?;
    Ok(object)
}

// Makes the step that begins the move, and returns the call's number.
fn call_move(cluster: &mut Cluster, name: &str, layout: LayoutId) -> Result<CallId, Refusal>
    ensures step { OnOk result (cluster.new ≡ moved cluster.old name.entry.now layout) }
    ensures number { IfOk result (λ n. n ≡ suc (call_count (named cluster.old.objects name.entry.now))) }
    ensures count { client_calls cluster.new ≡ client_calls cluster.old }
    ensures course { PreservesReachable cluster.old cluster.new }
    ensures cause { IsByCause (object_cause cluster.old name.entry.now (moving_cause cluster.old layout)) result }
    ensures unchanged { OnErr result (cluster.new ≡ cluster.old) }
{
    cluster.call_move(name, layout)
}

/// Returns whether the cluster has the administrator's pending move: the move's object is at its place, and the call of
/// the move's number is a move that began at its step. False if no move is pending.
pub fn has_move_in<L: StoreName>(booked: &Booked<L>, admin: &Admin<L>) -> bool
    ensures state { IsStateOf L.first booked.now }
    ensures has { result ≡ has_pending_move booked.now admin.now.moving }
{
    booked.cluster.invariant();
    let Some(pending) = admin.pending else {
        return false;
    };
    has_move(&booked.cluster, admin.name.as_str(), pending)
}

/// Makes one round of the administrator's pending move, as `round_in` makes one of a seat's call. It counts a round
/// that is made with `asks_again`. If the round answers the move, none is pending any more, and the receipt has the
/// move's number. If the cluster has the move (`has_move_in`), the receipt also names the move's object and the step
/// that began it, and says that it is a move without a value.
///
/// Is refused with `NoCall` if no move is pending. Otherwise it is refused as `round_in` is, but never as `Stranger`.
pub fn move_round_in<L: StoreName, C: Chooser>(
    booked: &mut Booked<L>,
    admin: &mut Admin<L>,
    chooser: &mut C,
    hand: HandedIn,
    asks_again: bool,
    turns: u64,
) -> Result<Round, Refusal>
    ensures state { IsStateOf L.first booked.old }
    ensures steps { IfOk result
        (λ r. MoveGoes C.chooses admin.old.moving hand asks_again booked.old chooser.old booked.new chooser.new r) }
    ensures admin { IfOk result (λ r. MoveLeaves asks_again admin.old r admin.new) }
    ensures receipt { IfOk result (λ r. AnswersMove booked.old admin.old.moving r) }
    ensures cause { MatchResult result (λ r. move_cause_of booked.old admin.old.moving turns ≡ None) (λ e.
        ((move_cause_of booked.old admin.old.moving turns ≡ Some e) × (chooser.new ≡ chooser.old))
        ⊎ ((move_cause_of booked.old admin.old.moving turns ≡ None)
        × MoveGoesNot C.chooses admin.old.moving hand asks_again booked.old chooser.old chooser.new e)) }

    ensures unchanged { OnErr result (booked.new ≡ booked.old) }
    ensures kept { OnErr result (admin.new ≡ admin.old) }
{
    booked.cluster.invariant();
    let Some(pending) = admin.pending else {
        return Err(Refusal::NoCall);
    };
    let (round, _copy) = round_with_copy(
        &mut booked.cluster,
        admin.name.as_str(),
        pending.object,
        pending.call,
        hand,
        asks_again,
        turns,
        chooser,
    )?;
    if asks_again {
        admin.note_asked();
    }
    if let Round::Answered(receipt) = &round {
        admin.end_move(receipt);
    }
    Ok(round)
}

// Whether the cluster has this move of the object of this name.
fn has_move(cluster: &Cluster, name: &str, pending: PendingMove) -> bool
    ensures { result ≡ has_move cluster.now (moving name.now pending) }
{
    let Ok(register) = cluster.register(name) else {
        return false;
    };
    let Ok(place) = cluster.place(name) else {
        return false;
    };
    place == pending.object && is_move_begun(register, pending.call, pending.called)
}

// Whether the call of this number is a move that began at this step. A call's first phase begins at the call's step.
fn is_move_begun(register: &Register, call: CallId, step: Stamp) -> bool
    ensures { result ≡ is_move_begun (call_at register.now.object call) step }
{
    register.soundness();
    let Ok(view) = register.call_view(call) else {
        return false;
    };
    let Some(phase) = register.phase_view(call, 0) else {
        return false;
    };
    if view.kind != Operation::Move {
        return false;
    }
    phase.steps().0 == step
}
