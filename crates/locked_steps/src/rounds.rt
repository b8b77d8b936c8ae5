//! The rounds of a seat's call.
ghost use Rattle.std.specs.Prelude.{◌≡◌, ◌⊎◌, ◌<◌, ◌≤◌, None, Some, is_some, if◌then◌else◌, IfOk, IfErr};
ghost use Rattle.std.specs.Prelude.{OnOk, OnErr, MatchResult};
ghost use Rattle.std.specs.List.{AllByRecursion};
ghost use Rattle.tag.specs.declared.limits.TheConstants.{MOST_STEPS};
ghost use Rattle.tag.specs.declared.refusal.Refusal.TheVariants.{NoMemory};
ghost use Rattle.record.specs.declared.stage.Want.TheVariants as want;
ghost use Rattle.register.specs.State.{State};
ghost use Rattle.register.specs.View.{value_at};
ghost use Rattle.cluster.specs.Cluster.{if_named, named};
ghost use Rattle.cluster.specs.Places.{IsObjectAt};
ghost use Rattle.locked_steps.specs.Calls.{client_calls};
ghost use Rattle.locked_steps.specs.Course.{PreservesReachable, IsStateOf};
ghost use Rattle.driver.specs.Driver.{wanted};
ghost use Rattle.locked_steps.specs.Rounds.{Copies, Goes, GoesNot, SeatGoes, SeatGoesNot, SeatLeaves, going_cause};
ghost use Rattle.locked_steps.specs.Rounds.{round_cause, tells};
ghost use Rattle.locked_steps.specs.declared.handed_in.HandedIn.TheVariants as hands;

use crate::booked::{Booked, StoreName};
use crate::handed_in::HandedIn;
use crate::seat::Seat;
use bytes::Bytes;
use cluster::Cluster;
use driver::{Chooser, Round, make_round_at};
use record::Want;
use tag::{CallId, MOST_STEPS, Refusal};

/// Makes one round of the seat's pending call. With an empty `hand`, this is the round of `driver::make_round`: it
/// makes one step, or it makes no step and returns a copy of what is to be encoded or decoded before the next round.
/// With an encoded value in `hand`, the round supplies the call with it. If the encoded value comes too late, the round
/// makes no step and returns `Round::Late`. With a decoded value in `hand`, the call settles the value. The seat counts
/// each round made with `asks_again`, and keeps the receipt of the answer. `turns` is how many turns the call has left;
/// a round needs one.
///
/// Is refused with `Stranger` if the seat's floor is above the cluster's counter, with `NoCall` if the seat has no
/// pending call, with `NotNow` if the call is answered, with `GaveUp` if `turns` is 0. Otherwise it is refused as
/// `make_round`, `Cluster::supply` or `Cluster::settle` is.
pub fn round_in<L: StoreName, C: Chooser>(
    booked: &mut Booked<L>,
    seat: &mut Seat<L>,
    chooser: &mut C,
    hand: HandedIn,
    asks_again: bool,
    turns: u64,
) -> Result<Round, Refusal>
    ensures state { IsStateOf L.first booked.old }
    ensures steps { IfOk result
        (λ r. SeatGoes C.chooses seat.old.pending hand asks_again booked.old chooser.old booked.new chooser.new r) }
    ensures seat { IfOk result (λ r. SeatLeaves asks_again seat.old r seat.new) }
    ensures cause { MatchResult result (λ r. round_cause booked.old seat.old turns ≡ None) (λ e.
        ((round_cause booked.old seat.old turns ≡ Some e) × (chooser.new ≡ chooser.old))
        ⊎ ((round_cause booked.old seat.old turns ≡ None)
        × SeatGoesNot C.chooses seat.old.pending hand asks_again booked.old chooser.old chooser.new e)) }

    ensures unchanged { OnErr result (booked.new ≡ booked.old) }
    ensures kept { OnErr result (seat.new ≡ seat.old) }
{
    booked.cluster.invariant();
    if seat.floor > booked.cluster.counter() {
        return Err(Refusal::Stranger);
    }
    let Some(record) = &seat.pending else {
        return Err(Refusal::NoCall);
    };
    let call = record.call;
    let object = record.object;
    let (round, copy) = round_with_copy(
        &mut booked.cluster,
        seat.name.as_str(),
        object,
        call,
        hand,
        asks_again,
        turns,
        chooser,
    )?;
    if asks_again {
        seat.note_asked();
    }
    if let Round::Answered(receipt) = &round {
        seat.settle(receipt, copy);
    }
    Ok(round)
}

/// Makes one round of a call. If it answers the call, it also returns a second copy of the value, made before the step.
/// The object is looked up unless the one at the index `guess` has this name.
pub(crate) fn round_with_copy<C: Chooser>(
    cluster: &mut Cluster,
    name: &str,
    guess: u32,
    call: CallId,
    hand: HandedIn,
    asks_again: bool,
    turns: u64,
    chooser: &mut C,
) -> Result<(Round, Option<Bytes>), Refusal>
    ensures steps { IfOk result
        (λ r. Goes C.chooses name.entry.now call hand asks_again cluster.old chooser.old cluster.new chooser.new r.0) }
    ensures copy { IfOk result (λ r. Copies cluster.old call r.0 r.1) }
    ensures cause { MatchResult result (λ r. going_cause cluster.old name.entry.now call turns ≡ None) (λ e.
        ((going_cause cluster.old name.entry.now call turns ≡ Some e) × (chooser.new ≡ chooser.old))
        ⊎ ((going_cause cluster.old name.entry.now call turns ≡ None)
        × GoesNot C.chooses name.entry.now call hand asks_again cluster.old chooser.old chooser.new e)) }

    ensures unchanged { OnErr result (cluster.new ≡ cluster.old) }
    ensures count { client_calls cluster.new ≡ client_calls cluster.old }
    ensures course { PreservesReachable cluster.old cluster.new }
{
    let (want, object) = want_to_go(cluster, name, guess, call, turns)?;
    let copy = copy_to_keep(cluster, name, call, want, &hand)?;
    past_calls_at_end(cluster, name, want);
    let round = round_with(cluster, name, object, call, want, hand, asks_again, chooser)?;
    cluster.invariant();
    let copy = kept_value(&round, copy);
    Ok((round, copy))
}

// A copy of the value that a call will return, where the next round answers it; otherwise none.
fn copy_to_keep(
    cluster: &Cluster,
    name: &str,
    call: CallId,
    due: Want,
    hand: &HandedIn,
) -> Result<Option<Bytes>, Refusal>
    requires { wanted cluster.now name.now call ≡ Some due }
    ensures value { due ≡ want.Answer → hand.now ≡ hands.Empty → cluster.now.counter < MOST_STEPS
        → IfOk result (λ v. v ≡ if_named cluster.now name.now (λ object. value_at object call)) }

    ensures refused { IfErr result
        (λ e. (e ≡ NoMemory) × ((due ≡ want.Answer) × ((hand.now ≡ hands.Empty)
        × (cluster.now.counter < MOST_STEPS)))) }
{
    if due != Want::Answer || !hand.is_empty() || cluster.counter() >= MOST_STEPS {
        return Ok(None);
    }
    let Ok(register) = cluster.register(name) else {
        return Ok(None);
    };
    match register.value_view(call) {
        Some(value) => Ok(Some(value.clone()?)),
        None => Ok(None),
    }
}

// A law: no call of the object began after the last step. It changes nothing.
fn past_calls(cluster: &Cluster, name: &str)
    ensures { (state : State) → named cluster.now.objects name.now ≡ Some state
        → AllByRecursion (λ call. call.called ≤ cluster.now.counter) state.object.calls }
{
    cluster.invariant();
    match cluster.register(name) {
        Ok(register) => register.soundness(),
        Err(_) => {}
    }
}

// Calls `past_calls` for a call that wants to be answered. For any other call it looks up nothing and states nothing.
fn past_calls_at_end(cluster: &Cluster, name: &str, due: Want)
    ensures { due ≡ want.Answer → (state : State) → named cluster.now.objects name.now ≡ Some state
        → AllByRecursion (λ call. call.called ≤ cluster.now.counter) state.object.calls }
{
    if due == Want::Answer {
        past_calls(cluster, name);
    }
}

// The copy, where the round answered the call and returned a value; otherwise none.
fn kept_value(round: &Round, copy: Option<Bytes>) -> Option<Bytes>
    ensures { result ≡ (if tells round.now then copy else None) }
{
    match round {
        Round::Answered(receipt) => { if receipt.value.is_some() { copy } else { None } }
        _ => None,
    }
}

/// Returns what the call wants now, where a round of it may be made, and the index of its object.
pub(crate) fn want_to_go(
    cluster: &Cluster,
    name: &str,
    guess: u32,
    call: CallId,
    turns: u64,
) -> Result<(Want, u32), Refusal>
    ensures want { IfOk result (λ w. wanted cluster.now name.now call ≡ Some w.0) }
    ensures placed { IfOk result (λ w. IsObjectAt cluster.now name.now w.1) }
    ensures cause { MatchResult result (λ w. going_cause cluster.now name.now call turns ≡ None)
        (λ e. going_cause cluster.now name.now call turns ≡ Some e) }
{
    let object = cluster.place_near(name, guess)?;
    let want = cluster.want_at(name, object, call)?;
    if want == Want::Done {
        return Err(Refusal::NotNow);
    }
    if turns == 0 {
        return Err(Refusal::GaveUp);
    }
    Ok((want, object))
}

// One round of a call that wants this. It answers the call only if the call wants that and nothing is handed in.
fn round_with<C: Chooser>(
    cluster: &mut Cluster,
    name: &str,
    object: u32,
    call: CallId,
    due: Want,
    hand: HandedIn,
    asks_again: bool,
    chooser: &mut C,
) -> Result<Round, Refusal>
    requires wanted { wanted cluster.old name.now call ≡ Some due }
    requires placed { IsObjectAt cluster.old name.now object }
    ensures steps { IfOk result
        (λ r. Goes C.chooses name.entry.now call hand asks_again cluster.old chooser.old cluster.new chooser.new r) }
    ensures refused { IfErr result
        (λ e. GoesNot C.chooses name.entry.now call hand asks_again cluster.old chooser.old chooser.new e) }
    ensures unchanged { OnErr result (cluster.new ≡ cluster.old) }
    ensures count { client_calls cluster.new ≡ client_calls cluster.old }
    ensures course { PreservesReachable cluster.old cluster.new }
{
    match hand {
        HandedIn::Empty => { make_round_at(cluster, name, object, call, due, asks_again, chooser) }
        HandedIn::Coded(coded) => match cluster.supply_at(name, object, call, coded) {
            Ok(()) => Ok(Round::Stepped),
            Err(Refusal::NotNow) => Ok(Round::Late),
            Err(refusal) => Err(refusal),
        },
        HandedIn::Decoded(decoded) => {
            cluster.settle_at(name, object, call, decoded)?;
            Ok(Round::Stepped)
        }
    }
}
