//! Whole calls, for one thread: the step that begins a call, and then the driver.
ghost use Rattle.std.specs.Prelude.{MatchResult, ◌≡◌, false};
ghost use Rattle.driver.specs.Driver.{FinishesCall, IsUnfinished};
ghost use Rattle.driver.specs.WholeCalls.{IsWholeRead, IsWholeWrite, IsWholeMove};
ghost use Rattle.driver.specs.declared.whole_call.NotAnswered.TheVariants as unanswered;

use crate::Chooser;
use crate::driver::finish;
use bytes::Bytes;
use cluster::{Cluster, LayoutId};
use register::Receipt;
use std::alloc::Global;
use tag::{CallId, Refusal};

/// Why a whole call has no answer.
#[derive(Clone, Copy, Debug, PartialEq, Eq)]
pub enum NotAnswered {
    /// The step that begins the call was refused, and nothing was done.
    NotCalled(Refusal),
    /// The driver was refused. The call of this number stays open, and `finish` can resume it.
    Open { call: CallId, refusal: Refusal },
}

/// Makes a whole read: `Cluster::call_read`, and then `finish` without a resume, in at most `turns` turns besides the
/// first step.
///
/// The error is `NotCalled` with a refusal of `call_read`, or `Open` with a refusal of `finish`. What the call costs
/// does not grow with the messages of other calls.
pub fn read<C: Chooser>(
    alloc: Global,
    cluster: &mut Cluster,
    name: &str,
    chooser: &mut C,
    turns: u64,
) -> Result<Receipt, NotAnswered>
    ensures { IsWholeRead C.chooses name.entry.now turns cluster.old chooser.old cluster.new chooser.new result }
{
    match cluster.call_read(name) {
        Ok(call) => finish_begun(alloc, cluster, name, call, chooser, turns),
        Err(refusal) => Err(NotAnswered::NotCalled(refusal)),
    }
}

/// Makes a whole write: `Cluster::call_write`, and then the driver, as for a read.
pub fn write<C: Chooser>(
    alloc: Global,
    cluster: &mut Cluster,
    name: &str,
    value: Bytes,
    chooser: &mut C,
    turns: u64,
) -> Result<Receipt, NotAnswered>
    ensures { IsWholeWrite C.chooses name.entry.now turns cluster.old chooser.old cluster.new chooser.new value result }
{
    match cluster.call_write(name, value) {
        Ok(call) => finish_begun(alloc, cluster, name, call, chooser, turns),
        Err(refusal) => Err(NotAnswered::NotCalled(refusal)),
    }
}

/// Makes a whole move to the layout of this number: `Cluster::call_move`, and then the driver, as for a read.
pub fn move_to<C: Chooser>(
    alloc: Global,
    cluster: &mut Cluster,
    name: &str,
    id: LayoutId,
    chooser: &mut C,
    turns: u64,
) -> Result<Receipt, NotAnswered>
    ensures { IsWholeMove C.chooses name.entry.now turns cluster.old chooser.old cluster.new chooser.new id result }
{
    match cluster.call_move(name, id) {
        Ok(call) => finish_begun(alloc, cluster, name, call, chooser, turns),
        Err(refusal) => Err(NotAnswered::NotCalled(refusal)),
    }
}

// Runs the driver on a call that has begun.
fn finish_begun<C: Chooser>(
    alloc: Global,
    cluster: &mut Cluster,
    name: &str,
    call: CallId,
    chooser: &mut C,
    turns: u64,
) -> Result<Receipt, NotAnswered>
    ensures { MatchResult result
        (λ receipt. FinishesCall C.chooses name.entry.now call false turns cluster.old chooser.old cluster.new
        chooser.new receipt)
        (λ e. (refusal : Refusal) × (e ≡ unanswered.Open call refusal)
        × IsUnfinished C.chooses name.entry.now call false turns cluster.old chooser.old cluster.new chooser.new
        refusal) }
{
    match finish(alloc, cluster, name, call, false, chooser, turns) {
        Ok(receipt) => Ok(receipt),
        Err(refusal) => Err(NotAnswered::Open { call, refusal }),
    }
}
