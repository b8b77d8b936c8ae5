//! What is to be done for frames that lie in memory.
ghost use Rattle.std.specs.Prelude.{◌≡◌, ◌<◌, ◌≤◌, Ok, Some, true, false, length, IfErr, IfOk, OnOk};
ghost use Rattle.node_store.specs.Gathering.{HandlesInput};
ghost use Rattle.node_store.specs.Serving.{IsInputEnd, IsReadStop, HandlesArrived, StopsAtFrame, StopsBehind};

use crate::batch::Batch;
use crate::end::LogEnd;
use crate::given::GivenBytes;
use crate::serving::{MOST_AT_ONCE, handle_next};
use crate::stop::ServeError;
use node_effects::{Machine, Report};
use std::alloc::Global;

/// What came of frames that lay in memory.
pub struct Round<'a> {
    /// The bytes behind the last frame that was handled.
    pub rest: &'a [u8],
    /// What is to be done for the frames, in the order of its fields.
    pub batch: Batch,
    /// What an operator should know, if there is something.
    pub report: Option<Report>,
}

impl<'a> Drop for Round<'a> {
    fn drop(self) {
        let Self {
            rest: _,
            batch: _,
            report: _,
        } = self;
    }
}

/// Handles the frames with which the input begins, one after another, and returns what is to be done for them, and the
/// bytes behind them. These are all of the input if no whole frame stands at its front. It handles at most as many
/// frames as the loop does in one round.
///
/// `end` is where the log ends, which is synced. The caller carries out what is to be done in this order: it sends the
/// frames of `early`; it appends the bytes of `log` to the log, and syncs it; and only then it sends the frames of
/// `output`. The log then ends behind `chain` of the batch.
///
/// After an error the machine can't be used. What is to be done for the frames before the error is lost.
pub fn gather_round<'a, M: Machine>(
    alloc: Global,
    machine: &mut M,
    input: &'a [u8],
    end: LogEnd,
) -> Result<Round<'a>, ServeError>
    ensures handles { IfOk result (HandlesInput M.handles M.notes end.chain.state machine.old machine.new input.now) }
    ensures ended { IfOk result (λ round. round.rest.now ≡ input.now → IsInputEnd input.now) }
    ensures lost { IfErr result (StopsBehind M.handles M.notes machine.old (Some input.now)) }
    ensures stopped { IfErr result (StopsAtFrame M.handles M.notes M.fails machine.old (Some input.now)) }
    ensures kind { IfErr result IsReadStop }
{
    let mut batch = Batch::new(alloc, end.chain);
    let report = machine.begin_round(end.length);
    let mut rest = input;
    take_frames(alloc, machine, &mut rest, &mut batch)?;
    Ok(Round {
        rest,
        batch,
        report,
    })
}

// Handles the frames at the front of these bytes, and leaves those behind them.
fn take_frames<'a, M: Machine>(
    alloc: Global,
    machine: &mut M,
    left: &mut &'a [u8],
    batch: &mut Batch,
) -> Result<(), ServeError>
    ensures handles { OnOk result (HandlesArrived M.handles M.notes machine.old machine.new (Some left.old.now)
        (Some left.new.now) batch.old batch.new (Ok true)) }
    ensures ended { OnOk result (left.new.now ≡ left.old.now → IsInputEnd left.old.now) }
    ensures lost { IfErr result (StopsBehind M.handles M.notes machine.old (Some left.old.now)) }
    ensures stopped { IfErr result (StopsAtFrame M.handles M.notes M.fails machine.old (Some left.old.now)) }
    ensures kind { IfErr result IsReadStop }
{
    if !take_frame(alloc, machine, left, batch)? {
        return Ok(());
    }
    take_more(alloc, machine, left, batch)
}

// Handles further frames, until no whole one stands at the front, or enough wait.
fn take_more<'a, M: Machine>(
    alloc: Global,
    machine: &mut M,
    left: &mut &'a [u8],
    batch: &mut Batch,
) -> Result<(), ServeError>
    ensures handles { OnOk result (HandlesArrived M.handles M.notes machine.old machine.new (Some left.old.now)
        (Some left.new.now) batch.old batch.new (Ok true)) }
    ensures no_more { OnOk result (length left.new.now ≤ length left.old.now) }
    ensures lost { IfErr result (StopsBehind M.handles M.notes machine.old (Some left.old.now)) }
    ensures stopped { IfErr result (StopsAtFrame M.handles M.notes M.fails machine.old (Some left.old.now)) }
    ensures kind { IfErr result IsReadStop }
{
    for _ in 1..MOST_AT_ONCE {
        if batch.is_full() {
            return Ok(());
        }
        if !take_frame(alloc, machine, left, batch)? {
            return Ok(());
        }
    }
    Ok(())
}

// Handles the frame at the front of these bytes, and leaves those behind it. Returns whether a whole frame stood there.
fn take_frame<'a, M: Machine>(
    alloc: Global,
    machine: &mut M,
    left: &mut &'a [u8],
    batch: &mut Batch,
) -> Result<bool, ServeError>
    ensures handles { OnOk result (HandlesArrived M.handles M.notes machine.old machine.new (Some left.old.now)
        (Some left.new.now) batch.old batch.new (Ok true)) }
    ensures ended { IfOk result (λ found. found ≡ false → IsInputEnd left.old.now) }
    ensures fewer { IfOk result (λ found. found ≡ true → length left.new.now < length left.old.now) }
    ensures no_more { OnOk result (length left.new.now ≤ length left.old.now) }
    ensures lost { IfErr result (StopsBehind M.handles M.notes machine.old (Some left.old.now)) }
    ensures stopped { IfErr result (StopsAtFrame M.handles M.notes M.fails machine.old (Some left.old.now)) }
    ensures kind { IfErr result IsReadStop }
{
    let mut reader = GivenBytes::new(*left);
    if handle_next(alloc, machine, &mut reader, batch)? {
        *left = reader.rest();
        Ok(true)
    } else {
        Ok(false)
    }
}
