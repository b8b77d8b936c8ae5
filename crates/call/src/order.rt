ghost use Rattle.std.specs.Prelude.{◌≡◌, ℕ, ◌+◌, ◌<◌, ◌^◌, length, slice_get};
ghost use Rattle.record.specs.declared.call.CallKind.TheVariants.{Move};
ghost use Rattle.record.specs.declared.stage.Stage.TheVariants.{MoveSpread};
ghost use Rattle.record.specs.PhaseOrder.{due, stage_after};
ghost use Rattle.call.specs.Laws.{AreComplete};
ghost use Rattle.call.specs.Moves.{last_phases, move_phases, queried_tag};

use crate::course::{due, passed};
use bank::Kind;
use mail::Phase;
use record::{CallKind, Stage};

/// Returns the phase that is next, with its position, in a move from the position `from` to the one after it. `done`
/// are the phases that the move has made so far. Returns none if all six are made. A phase that is not complete leads
/// nowhere, and a fetch that lacks pieces leads back to the query.
pub fn next_phase(from: u32, done: &[Phase]) -> Option<(Kind, u32)>
    requires { from + 2 < 2 ^ 32 }
    ensures stage { (number : ℕ) → result ≡ due (stage_after Move number (MoveSpread from) done.now) }
    ensures order { AreComplete done.now
        → result ≡ slice_get (move_phases from (queried_tag (last_phases done.now))) (length (last_phases done.now)) }
{
    let mut stage = Stage::MoveSpread { position: from };
    for phase in done {
        stage = passed(&CallKind::Move, 0, stage, phase);
    }
    due(stage)
}
