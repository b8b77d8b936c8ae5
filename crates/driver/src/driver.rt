//! The driver of one call, for one thread.
ghost use Rattle.std.specs.Prelude.{◌≡◌, ◌⊎◌, Some, IfOk, IfErr, OnErr, MatchOption, false, true};
ghost use Rattle.tag.specs.declared.refusal.Refusal.TheVariants.{NotNow, GaveUp};
ghost use Rattle.record.specs.declared.stage.Want.TheVariants as want;
ghost use Rattle.register.specs.Causes.{number_cause};
ghost use Rattle.cluster.specs.Causes.{object_cause};
ghost use Rattle.cluster.specs.Places.{IsObjectAt};
ghost use Rattle.driver.specs.Driver.{asks_again, IsAnswerTurn, FinishesCall, IsNotAnswered, IsRefused, IsTurn};
ghost use Rattle.driver.specs.Driver.{IsUnfinished, wanted};

use crate::Chooser;
use crate::coding::{settle_pieces, supply_value};
use crate::round::{Round, make_round_at, make_step_at};
use cluster::Cluster;
use record::Want;
use register::Receipt;
use std::alloc::Global;
use tag::{CallId, Refusal};

/// Brings the call of this number to its answer, in at most `turns` turns. Each turn is one step: if the call wants
/// replies, one of its messages is handled, the one that `chooser` chooses; otherwise it is the step that the call
/// wants.
///
/// With `resumed`, the first turn differs in two cases. If the call wants replies, the turn resends the requests of the
/// current phase instead. If the call's fetch lacks pieces, the turn restarts the call.
///
/// - `NoObject` if no object has this name, `NoCall` if it has no call of this number, and `NotNow` if the call is
///   answered. Nothing has changed then.
/// - `GaveUp` after `turns` turns.
/// - `Stuck` if the call wants replies and none of its messages can be handled.
/// - `Collected` if the call's fetch lacks pieces, except in the first turn with `resumed`.
/// - `Full` if the step that comes next meets a limit.
///
/// After the last four, and after `NoMemory`, the steps of the earlier turns stay made, and the call stays open.
pub fn finish<C: Chooser>(
    alloc: Global,
    cluster: &mut Cluster,
    name: &str,
    call: CallId,
    resumed: bool,
    chooser: &mut C,
    turns: u64,
) -> Result<Receipt, Refusal>
    ensures finished { IfOk result
        (λ r. FinishesCall C.chooses name.entry.now call resumed turns cluster.old chooser.old cluster.new
        chooser.new r) }
    ensures refused { IfErr result
        (λ e. IsUnfinished C.chooses name.entry.now call resumed turns cluster.old chooser.old cluster.new chooser.new
        e) }
{
    let object = cluster.place(name)?;
    for turn in 0..turns {
        let again = asks_again(resumed, turn);
        if make_step(cluster, name, object, call, again, chooser)? {
            continue;
        }
        if let Some(receipt) = make_turn(alloc, cluster, name, object, call, again, chooser)? {
            return Ok(receipt);
        }
    }
    Err(why_unfinished(cluster, name, object, call))
}

// Why a call has no receipt after the last turn: it was answered before, it is still open, or there is no such call.
fn why_unfinished(cluster: &Cluster, name: &str, object: u32, call: CallId) -> Refusal
    requires { IsObjectAt cluster.now name.now object }
    ensures { (result ≡ NotNow) × (wanted cluster.now name.now call ≡ Some want.Done)
        ⊎ (result ≡ GaveUp) × IsNotAnswered cluster.now name.now call
        ⊎ (object_cause cluster.now name.now (λ object. number_cause object call) ≡ Some result) }
{
    match cluster.want_at(name, object, call) {
        Ok(want) => match want {
            Want::Done => Refusal::NotNow,
            _ => Refusal::GaveUp,
        },
        Err(refusal) => refusal,
    }
}

// Whether the turn after `count` others asks again, so that it may resend or restart: only the first of a resume does.
fn asks_again(resumed: bool, count: u64) -> bool
    ensures { result ≡ asks_again resumed count }
{
    resumed && count == 0
}

// Makes the turn of a call that wants replies or to advance, unless it may ask again. Returns false, and changes
// nothing, where the turn is another one. It hands out nothing, so it is cheaper than `make_turn`.
fn make_step<C: Chooser>(
    cluster: &mut Cluster,
    name: &str,
    object: u32,
    call: CallId,
    asks_again: bool,
    chooser: &mut C,
) -> Result<bool, Refusal>
    requires { IsObjectAt cluster.old name.now object }
    ensures turn { IfOk result (λ b. b ≡ true
        → IsTurn C.chooses name.entry.now call asks_again cluster.old chooser.old cluster.new chooser.new
        × IsNotAnswered cluster.new name.entry.now call) }

    ensures same { IfOk result (λ b. b ≡ false → (cluster.new ≡ cluster.old) × (chooser.new ≡ chooser.old)) }
    ensures refused { IfErr result
        (λ e. IsRefused C.chooses name.entry.now call cluster.old asks_again chooser.old chooser.new e) }
    ensures unchanged { OnErr result (cluster.new ≡ cluster.old) }
{
    if asks_again {
        return Ok(false);
    }
    let want = cluster.want_at(name, object, call)?;
    make_step_at(cluster, name, object, call, want, chooser)
}

// Makes one step of the call, encoding or decoding where the step needs it. Returns the receipt where the step answers
// the call.
fn make_turn<C: Chooser>(
    alloc: Global,
    cluster: &mut Cluster,
    name: &str,
    object: u32,
    call: CallId,
    asks_again: bool,
    chooser: &mut C,
) -> Result<Option<Receipt>, Refusal>
    requires { IsObjectAt cluster.old name.now object }
    ensures turn { IfOk result
        (λ o. MatchOption o
        (IsTurn C.chooses name.entry.now call asks_again cluster.old chooser.old cluster.new chooser.new
        × IsNotAnswered cluster.new name.entry.now call)
        (λ r. IsAnswerTurn C.chooses name.entry.now call asks_again cluster.old chooser.old cluster.new chooser.new
        r)) }

    ensures refused { IfErr result
        (λ e. IsRefused C.chooses name.entry.now call cluster.old asks_again chooser.old chooser.new e) }
    ensures unchanged { OnErr result (cluster.new ≡ cluster.old) }
{
    let want = cluster.want_at(name, object, call)?;
    match make_round_at(cluster, name, object, call, want, asks_again, chooser)? {
        Round::Stepped => Ok(None),
        Round::Encode { value, k, n } => {
            supply_value(alloc, cluster, name, object, call, value, k, n)?;
            Ok(None)
        }
        Round::Decode { pieces, k, len } => {
            settle_pieces(alloc, cluster, name, object, call, k, len, pieces)?;
            Ok(None)
        }
        Round::Answered(receipt) => Ok(Some(receipt)),
        Round::Late => unreachable!(),
    }
}
