//! One round of the driver, without the coding.
ghost use Rattle.std.specs.Prelude.{◌≡◌, true, false, Some, IfOk, IfErr, OnErr};
ghost use Rattle.tag.specs.Refusal.{IsByCause};
ghost use Rattle.record.specs.declared.stage.Want.TheVariants as want;
ghost use Rattle.register.specs.Causes.{supplying_cause};
ghost use Rattle.cluster.specs.Causes.{next, object_cause};
ghost use Rattle.cluster.specs.Places.{IsObjectAt};
ghost use Rattle.driver.specs.Driver.{wanted, IsRefused};
ghost use Rattle.driver.specs.Rounds.{HandsOutValue, MakesRound, MakesStep};

use crate::Chooser;
use crate::coding::{pieces_to_decode, value_to_encode};
use crate::messages::handle_chosen;
use bytes::Bytes;
use cluster::Cluster;
use piece::Piece;
use record::Want;
use register::Receipt;
use tag::{CallId, Refusal};

/// The result of a round: its step was made, or the step is still to be made, once the caller has encoded or decoded a
/// value.
#[derive(Debug, Drop)]
pub enum Round {
    /// The step was made, and the call is still open.
    Stepped,
    /// The call is to be supplied with this value, encoded for this k and n.
    Encode { value: Bytes, k: u8, n: u8 },
    /// The call is to settle the value, of `len` bytes, that is decoded from these k pieces.
    Decode { pieces: Vec<Piece>, k: u8, len: u32 },
    /// The call was answered.
    Answered(Receipt),
    /// A value that was encoded for the call came too late, since its phase is complete, and no step was made. Only a
    /// round that is handed an encoded value returns this, so `make_round` never does.
    Late,
}

/// Makes one round of the call of this number, without the coding. `want` must be what the call wants now.
///
/// If the call wants replies, one of its messages is handled, or, with `asks_again`, its current phase's requests are
/// resent; if these have pieces, the value to encode is returned instead. A call that wants to be restarted is
/// restarted with `asks_again`. If the call wants a value encoded or decoded, the round hands out the value or the
/// pieces, and changes nothing. Any other round makes the step that the call wants.
///
/// Is refused with `NotNow` if the call is answered, with `Stuck` if it wants replies and none of its messages can be
/// handled, with `Collected` if it wants to be restarted without `asks_again`, and with `Full` if the step, made or
/// still to be made, meets a limit.
pub fn make_round<C: Chooser>(
    cluster: &mut Cluster,
    name: &str,
    call: CallId,
    want: Want,
    asks_again: bool,
    chooser: &mut C,
) -> Result<Round, Refusal>
    requires { wanted cluster.old name.now call ≡ Some want }
    ensures round { IfOk result
        (λ r. MakesRound C.chooses name.entry.now call asks_again cluster.old chooser.old cluster.new chooser.new r) }
    ensures refused { IfErr result
        (λ e. IsRefused C.chooses name.entry.now call cluster.old asks_again chooser.old chooser.new e) }
    ensures unchanged { OnErr result (cluster.new ≡ cluster.old) }
{
    let object = cluster.place(name)?;
    make_round_at(cluster, name, object, call, want, asks_again, chooser)
}

/// Does what `make_round` does, for a caller that has looked the object up by `Cluster::place`: `object` must be its
/// index.
pub fn make_round_at<C: Chooser>(
    cluster: &mut Cluster,
    name: &str,
    object: u32,
    call: CallId,
    want: Want,
    asks_again: bool,
    chooser: &mut C,
) -> Result<Round, Refusal>
    requires wanted { wanted cluster.old name.now call ≡ Some want }
    requires placed { IsObjectAt cluster.old name.now object }
    ensures round { IfOk result
        (λ r. MakesRound C.chooses name.entry.now call asks_again cluster.old chooser.old cluster.new chooser.new r) }
    ensures refused { IfErr result
        (λ e. IsRefused C.chooses name.entry.now call cluster.old asks_again chooser.old chooser.new e) }
    ensures unchanged { OnErr result (cluster.new ≡ cluster.old) }
{
    match want {
        Want::Replies => await_replies(cluster, name, object, call, asks_again, chooser),
        Want::Advance => {
            cluster.advance_at(name, object, call)?;
            Ok(Round::Stepped)
        }
        Want::Supply { k: _, n: _ } => hand_out_value(cluster, name, object, call),
        Want::Settle { k, len } => {
            let pieces = pieces_to_decode(cluster, name, object, call, k, len)?;
            Ok(Round::Decode { pieces, k, len })
        }
        Want::Again => restart(cluster, name, object, call, asks_again, chooser),
        Want::Answer => Ok(Round::Answered(cluster.answer_at(name, object, call)?)),
        Want::Done => Err(Refusal::NotNow),
    }
}

/// Makes the step of a call that wants replies or to advance: the round that `make_round_at` makes without asking
/// again. Returns false, and changes nothing, if the call wants something else. Such a round hands out nothing, so it
/// is cheaper than one of `make_round_at`. `want` must be what the call wants now, and `object` the index that
/// `Cluster::place` returns.
///
/// Is refused with `Stuck` if the call wants replies and none of its messages can be handled, and with `Full` if the
/// step meets a limit.
pub fn make_step_at<C: Chooser>(
    cluster: &mut Cluster,
    name: &str,
    object: u32,
    call: CallId,
    want: Want,
    chooser: &mut C,
) -> Result<bool, Refusal>
    requires wanted { wanted cluster.old name.now call ≡ Some want }
    requires placed { IsObjectAt cluster.old name.now object }
    ensures step { IfOk result
        (λ b. MakesStep C.chooses name.entry.now call cluster.old chooser.old cluster.new chooser.new b) }
    ensures refused { IfErr result
        (λ e. IsRefused C.chooses name.entry.now call cluster.old false chooser.old chooser.new e) }
    ensures unchanged { OnErr result (cluster.new ≡ cluster.old) }
{
    match want {
        Want::Replies => handle_chosen(cluster, name, object, call, chooser)?,
        Want::Advance => cluster.advance_at(name, object, call)?,
        _ => return Ok(false),
    }
    Ok(true)
}

// Handles a message of a call that wants replies, or, with `asks_again`, resends the requests of its current phase.
fn await_replies<C: Chooser>(
    cluster: &mut Cluster,
    name: &str,
    object: u32,
    call: CallId,
    asks_again: bool,
    chooser: &mut C,
) -> Result<Round, Refusal>
    requires wanted { wanted cluster.old name.now call ≡ Some want.Replies }
    requires placed { IsObjectAt cluster.old name.now object }
    ensures round { IfOk result
        (λ r. MakesRound C.chooses name.entry.now call asks_again cluster.old chooser.old cluster.new chooser.new r) }
    ensures refused { IfErr result
        (λ e. IsRefused C.chooses name.entry.now call cluster.old asks_again chooser.old chooser.new e) }
    ensures unchanged { OnErr result (cluster.new ≡ cluster.old) }
{
    if asks_again {
        return ask_again(cluster, name, object, call, chooser);
    }
    handle_chosen(cluster, name, object, call, chooser)?;
    Ok(Round::Stepped)
}

// Restarts a call that wants to be restarted, if `asks_again` is set.
fn restart<C: Chooser>(
    cluster: &mut Cluster,
    name: &str,
    object: u32,
    call: CallId,
    asks_again: bool,
    chooser: &C,
) -> Result<Round, Refusal>
    requires wanted { wanted cluster.old name.now call ≡ Some want.Again }
    requires placed { IsObjectAt cluster.old name.now object }
    ensures round { IfOk result
        (λ r. MakesRound C.chooses name.entry.now call asks_again cluster.old chooser.entry.now cluster.new
        chooser.entry.now r) }
    ensures refused { IfErr result
        (λ e. IsRefused C.chooses name.entry.now call cluster.old asks_again chooser.entry.now chooser.entry.now e) }
    ensures unchanged { OnErr result (cluster.new ≡ cluster.old) }
{
    if !asks_again {
        return Err(Refusal::Collected);
    }
    cluster.again_at(name, object, call)?;
    Ok(Round::Stepped)
}

// The current phase of the call resends its requests. Where these have pieces, the value to encode is returned instead.
fn ask_again<C: Chooser>(
    cluster: &mut Cluster,
    name: &str,
    object: u32,
    call: CallId,
    chooser: &C,
) -> Result<Round, Refusal>
    requires wanted { wanted cluster.old name.now call ≡ Some want.Replies }
    requires placed { IsObjectAt cluster.old name.now object }
    ensures round { IfOk result
        (λ r. MakesRound C.chooses name.entry.now call true cluster.old chooser.entry.now cluster.new
        chooser.entry.now r) }
    ensures refused { IfErr result
        (λ e. IsRefused C.chooses name.entry.now call cluster.old true chooser.entry.now chooser.entry.now e) }
    ensures unchanged { OnErr result (cluster.new ≡ cluster.old) }
{
    cluster.register_at(name, object).soundness();
    match cluster.post_at(name, object, call) {
        Ok(()) => Ok(Round::Stepped),
        Err(refusal) => match refusal {
            Refusal::NotNow => hand_out_value(cluster, name, object, call),
            _ => Err(refusal),
        },
    }
}

// Hands out the value that the call is to send, with its k and n, and makes no step.
fn hand_out_value(
    cluster: &Cluster,
    name: &str,
    object: u32,
    call: CallId,
) -> Result<Round, Refusal>
    requires { IsObjectAt cluster.now name.now object }
    ensures value { IfOk result (λ r. HandsOutValue cluster.now name.now call r) }
    ensures cause { IsByCause
        (object_cause cluster.now name.now (λ object. supplying_cause (next cluster.now) object call)) result }
{
    let (value, k, n) = value_to_encode(cluster, name, object, call)?;
    Ok(Round::Encode { value, k, n })
}
