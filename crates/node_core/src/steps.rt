//! What the program has to do after a round, in this order.
ghost use Rattle.std.specs.Prelude.{◌≡◌, option_map, slice_get};
ghost use Rattle.node_core.specs.Rounds.{steps_for, the_step};

use frames::Gathered;
use node_store::Batch;

/// One thing that the program has to do. The bytes lie in parts, which the program sends or appends one after another.
#[derive(Clone, Copy)]
pub enum Step<'a> {
    /// These bytes are sent.
    Send(&'a Gathered),
    /// These bytes are appended to the log.
    Append(&'a Gathered),
    /// The log is synced.
    Sync,
}

/// The step in this place, from 0, of what is to be done for a batch; none behind the last one. A batch without entries
/// has one step, and any other has four.
pub fn step_at(batch: &Batch, place: usize) -> Option<Step<'_>>
    ensures { option_map the_step result ≡ slice_get (steps_for batch.now) place }
{
    match place {
        0 => Some(Step::Send(&batch.early)),
        _ if batch.log.is_empty() => None,
        1 => Some(Step::Append(&batch.log)),
        2 => Some(Step::Sync),
        3 => Some(Step::Send(&batch.output)),
        _ => None,
    }
}
