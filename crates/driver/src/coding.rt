//! Values that are encoded or decoded for a call, and the steps that they are for.
ghost use Rattle.std.specs.Prelude.{◌≡◌, ℕ, List, pred, Some, IfOk, OnOk, OnErr};
ghost use Rattle.tag.specs.Refusal.{IsByCause};
ghost use Rattle.record.specs.Steps.{Step};
ghost use Rattle.record.specs.declared.stage.Want.TheVariants as want;
ghost use Rattle.register.specs.Causes.{supplying_cause};
ghost use Rattle.register.specs.State.{State};
ghost use Rattle.register.specs.View.{fetched_pieces};
ghost use Rattle.decoder.specs.Pieces.{IsInterpolated};
ghost use Rattle.cluster.specs.Cluster.{named};
ghost use Rattle.cluster.specs.Causes.{next, object_cause};
ghost use Rattle.cluster.specs.Places.{IsObjectAt};
ghost use Rattle.cluster.specs.Preconditions.{MayMake};
ghost use Rattle.cluster.specs.Steps.{with_step};
ghost use Rattle.driver.specs.Coding.{settling_cause};
ghost use Rattle.driver.specs.Driver.{wanted};
ghost use Rattle.driver.specs.Rounds.{IsToEncode, IsToDecode, SettlesOwn};

use bytes::Bytes;
use cluster::Cluster;
use decoder::decode;
use encoder::encode;
use piece::Piece;
use record::Want;
use std::alloc::Global;
use tag::{CallId, MOST_STEPS, Refusal};

/// Encodes the value that the call of this number is to send, and supplies the call with it: one step. Every cause of
/// refusal but `NoMemory` is checked before the value is copied and encoded.
///
/// Is refused with `NoObject` if no object has this name, with `NoCall` if it has no call of this number, and with
/// `NotNow` if the call has no pieces to send. It is refused with `Full` if the limit of steps, of the call's phases or
/// of the object's waiting messages is met.
pub fn supply(alloc: Global, cluster: &mut Cluster, name: &str, call: CallId) -> Result<(), Refusal>
    ensures step { OnOk result (cluster.new ≡ with_step cluster.old name.entry.now (Step.Supply (pred call))) }
    ensures may { OnOk result (MayMake cluster.old name.entry.now (Step.Supply (pred call))) }
    ensures cause { IsByCause
        (object_cause cluster.old name.entry.now (λ object. supplying_cause (next cluster.old) object call)) result }
    ensures unchanged { OnErr result (cluster.new ≡ cluster.old) }
{
    let object = cluster.place(name)?;
    let (value, k, n) = value_to_encode(cluster, name, object, call)?;
    supply_value(alloc, cluster, name, object, call, value, k, n)
}

/// Decodes the value that the call of this number is to settle, from k pieces that its current phase took, and settles
/// it: one step.
///
/// Is refused with `NoObject` if no object has this name, with `NoCall` if it has no call of this number, with `NotNow`
/// unless the call wants to settle a value, with `Collected` if its fetch lacks pieces, and with `Full` if the limit of
/// steps is met.
pub fn settle(alloc: Global, cluster: &mut Cluster, name: &str, call: CallId) -> Result<(), Refusal>
    ensures step { OnOk result (SettlesOwn cluster.old name.entry.now call cluster.new) }
    ensures cause { IsByCause
        (object_cause cluster.old name.entry.now (λ object. settling_cause (next cluster.old) object call)) result }
    ensures unchanged { OnErr result (cluster.new ≡ cluster.old) }
{
    let object = cluster.place(name)?;
    match cluster.want_at(name, object, call)? {
        Want::Settle { k, len } => {
            let pieces = pieces_to_decode(cluster, name, object, call, k, len)?;
            settle_pieces(alloc, cluster, name, object, call, k, len, pieces)
        }
        Want::Again => Err(Refusal::Collected),
        _ => Err(Refusal::NotNow),
    }
}

/// Returns the value that a call is to send, with its k and n. Every refusal of the supply but `NoMemory` is found
/// here.
pub(crate) fn value_to_encode(
    cluster: &Cluster,
    name: &str,
    object: u32,
    call: CallId,
) -> Result<(Bytes, u8, u8), Refusal>
    requires { IsObjectAt cluster.now name.now object }
    ensures value { IfOk result (λ r. IsToEncode cluster.now name.now call r.1 r.2 r.0) }
    ensures cause { IsByCause
        (object_cause cluster.now name.now (λ object. supplying_cause (next cluster.now) object call)) result }
{
    cluster.register_at(name, object).soundness();
    cluster.may_supply_at(name, object, call)?;
    cluster.value_to_code_at(name, object, call)
}

/// Returns the pieces from which the call decodes the value that it is to settle.
pub(crate) fn pieces_to_decode(
    cluster: &Cluster,
    name: &str,
    object: u32,
    call: CallId,
    k: u8,
    len: u32,
) -> Result<Vec<Piece>, Refusal>
    requires wanted { wanted cluster.now name.now call ≡ Some (want.Settle k len) }
    requires placed { IsObjectAt cluster.now name.now object }
    ensures pieces { IfOk result (λ ps. IsToDecode cluster.now name.now call k len ps.items) }
    ensures given { (state : State) → named cluster.now.objects name.now ≡ Some state
        → (value : List ℕ) × IsInterpolated k len (fetched_pieces state.object call) value }
    ensures cause { IsByCause
        (object_cause cluster.now name.now (λ object. settling_cause (next cluster.now) object call)) result }
{
    cluster.register_at(name, object).soundness();
    if cluster.counter() >= MOST_STEPS {
        return Err(Refusal::Full);
    }
    cluster.pieces_at(name, object, call)
}

/// Encodes the value of a call, and supplies the call with it.
pub(crate) fn supply_value(
    alloc: Global,
    cluster: &mut Cluster,
    name: &str,
    object: u32,
    call: CallId,
    value: Bytes,
    k: u8,
    n: u8,
) -> Result<(), Refusal>
    requires value { IsToEncode cluster.old name.now call k n value }
    requires placed { IsObjectAt cluster.old name.now object }
    ensures step { OnOk result (cluster.new ≡ with_step cluster.old name.entry.now (Step.Supply (pred call))) }
    ensures may { OnOk result (MayMake cluster.old name.entry.now (Step.Supply (pred call))) }
    ensures cause { IsByCause
        (object_cause cluster.old name.entry.now (λ object. supplying_cause (next cluster.old) object call)) result }
    ensures unchanged { OnErr result (cluster.new ≡ cluster.old) }
{
    let coded = encode(alloc, k, n, value)?;
    cluster.supply_at(name, object, call, coded)
}

/// Decodes the pieces of a call, and settles the value.
pub(crate) fn settle_pieces(
    alloc: Global,
    cluster: &mut Cluster,
    name: &str,
    object: u32,
    call: CallId,
    k: u8,
    len: u32,
    pieces: Vec<Piece>,
) -> Result<(), Refusal>
    requires pieces { IsToDecode cluster.old name.now call k len pieces.items }
    requires placed { IsObjectAt cluster.old name.now object }
    ensures step { OnOk result (SettlesOwn cluster.old name.entry.now call cluster.new) }
    ensures cause { IsByCause
        (object_cause cluster.old name.entry.now (λ object. settling_cause (next cluster.old) object call)) result }
    ensures unchanged { OnErr result (cluster.new ≡ cluster.old) }
{
    let decoded = decode(alloc, k, len, pieces)?;
    cluster.settle_at(name, object, call, decoded)
}
