//! The commands that make one step of a call.
ghost use Rattle.std.specs.Prelude.{◌≡◌, ◌↔◌, pred, option_copied, Some, IfErr, OnOk, OnErr, IsTrue};
ghost use Rattle.tag.specs.Refusal.{IsByCause};
ghost use Rattle.record.specs.Steps.{Step};
ghost use Rattle.record.specs.Sending.{value_or_empty};
ghost use Rattle.register.specs.Causes.{supplying_cause};
ghost use Rattle.cluster.specs.Causes.{next, object_cause};
ghost use Rattle.cluster.specs.Steps.{with_step};
ghost use Rattle.player.specs.CallCommands.{CallsRead, CallsWrite, CallsMove, Advances, BeginsAnew, Posts, AnswersCall};
ghost use Rattle.player.specs.CodingCommands.{Supplies, SuppliesAs, SettlesValue, supplying_as_cause};

use crate::cluster_commands::layout_id;
use crate::report::Report;
use bytes::Bytes;
use cluster::Cluster;
use record::Want;
use std::alloc::Global;
use tag::{CallId, LONGEST_VALUE, Refusal};

/// Makes the step that begins a read.
pub(crate) fn call_read(cluster: &mut Cluster, name: &str) -> Report
    ensures { CallsRead cluster.old name.entry.now cluster.new result }
{
    Report::of_call(cluster.call_read(name))
}

/// Makes the step that begins a write.
pub(crate) fn call_write(cluster: &mut Cluster, name: &str, value: Bytes) -> Report
    ensures { CallsWrite cluster.old name.entry.now value cluster.new result }
{
    Report::of_call(cluster.call_write(name, value))
}

/// Makes the step that begins a move.
pub(crate) fn call_move(cluster: &mut Cluster, name: &str, layout: u64) -> Report
    ensures { CallsMove cluster.old name.entry.now layout cluster.new result }
{
    Report::of_call(cluster.call_move(name, layout_id(layout)))
}

/// The call begins the phase that is due.
pub(crate) fn advance(cluster: &mut Cluster, name: &str, call: CallId) -> Report
    ensures { Advances cluster.old name.entry.now call cluster.new result }
{
    Report::of_step(cluster.advance(name, call))
}

/// Supplies the call with its own value, which is encoded for it.
pub(crate) fn supply(alloc: Global, cluster: &mut Cluster, name: &str, call: CallId) -> Report
    ensures { Supplies cluster.old name.entry.now call cluster.new result }
{
    Report::of_step(driver::supply(alloc, cluster, name, call))
}

/// Supplies the call with these bytes, encoded as it wants its value.
pub(crate) fn supply_as(
    alloc: Global,
    cluster: &mut Cluster,
    name: &str,
    call: CallId,
    value: Bytes,
) -> Report
    ensures { SuppliesAs cluster.old name.entry.now call value cluster.new result }
{
    Report::of_step(supply_value(alloc, cluster, name, call, value))
}

fn supply_value(
    alloc: Global,
    cluster: &mut Cluster,
    name: &str,
    call: CallId,
    value: Bytes,
) -> Result<(), Refusal>
    ensures step { OnOk result (cluster.new ≡ with_step cluster.old name.entry.now (Step.Supply (pred call))) }
    ensures cause { IsByCause
        (object_cause cluster.old name.entry.now (supplying_as_cause cluster.old call value)) result }
    ensures unchanged { OnErr result (cluster.new ≡ cluster.old) }
{
    expect_own(cluster, name, call, &value)?;
    driver::supply(alloc, cluster, name, call)
}

// Refuses bytes that are not the value which the call is to send, where the call wants a value. It allocates no memory.
fn expect_own(cluster: &Cluster, name: &str, call: CallId, value: &Bytes) -> Result<(), Refusal>
    ensures own { OnOk result (object_cause cluster.now name.now (supplying_as_cause cluster.now call value.now)
        ≡ object_cause cluster.now name.now (λ object. supplying_cause (next cluster.now) object call)) }
    ensures other { IfErr result
        (λ r. object_cause cluster.now name.now (supplying_as_cause cluster.now call value.now) ≡ Some r) }
{
    let Want::Supply { .. } = cluster.want(name, call)? else {
        return Err(Refusal::NotNow);
    };
    let register = cluster.register(name)?;
    register.soundness();
    if value.len() > LONGEST_VALUE {
        return Err(Refusal::TooLong);
    }
    if !is_value(register.value_view(call), value) {
        return Err(Refusal::WrongCode);
    }
    Ok(())
}

// Whether these bytes are the value. An absent value counts as the empty one.
fn is_value(value: Option<&Bytes>, bytes: &Bytes) -> bool
    ensures { IsTrue result ↔ (bytes.now ≡ value_or_empty (option_copied value.entry)) }
{
    match value {
        Some(value) => value.as_slice() == bytes.as_slice(),
        None => bytes.as_slice().is_empty(),
    }
}

/// Decodes the pieces of the call, and settles the value.
pub(crate) fn settle(alloc: Global, cluster: &mut Cluster, name: &str, call: CallId) -> Report
    ensures { SettlesValue cluster.old name.entry.now call cluster.new result }
{
    Report::of_step(driver::settle(alloc, cluster, name, call))
}

/// Resends the requests of the call's current phase.
pub(crate) fn post(cluster: &mut Cluster, name: &str, call: CallId) -> Report
    ensures { Posts cluster.old name.entry.now call cluster.new result }
{
    Report::of_step(cluster.post(name, call))
}

/// Restarts a call whose fetch lacks pieces.
pub(crate) fn again(cluster: &mut Cluster, name: &str, call: CallId) -> Report
    ensures { BeginsAnew cluster.old name.entry.now call cluster.new result }
{
    Report::of_step(cluster.again(name, call))
}

/// Answers the call.
pub(crate) fn answer(cluster: &mut Cluster, name: &str, call: CallId) -> Report
    ensures { AnswersCall cluster.old name.entry.now call cluster.new result }
{
    Report::of_answer(cluster.answer(name, call))
}
