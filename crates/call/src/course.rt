//! The stages of a call, one after another.

ghost use Rattle.std.specs.Prelude.{◌≡◌};
ghost use Rattle.record.specs.PhaseOrder.{begun_at, due, stage_past};
ghost use Rattle.record.specs.Legal.{first_stage};
ghost use Rattle.record.specs.Journals.{stage_tag};
ghost use Rattle.call.specs.StageLimits.{IsBelowLimit, HasNextTag};

use crate::Reading;
use crate::after_replies::{after, first};
use bank::{Kind, Status};
use mail::Phase;
use record::{CallKind, Stage};
use tag::{CallId, Tag};

/// Returns the stage at which a call begins. A move leads from the position `from`. A read or a write begins at the
/// position that `begun_at` is given.
pub fn first_stage(kind: &CallKind, from: u32) -> Stage
    ensures { result ≡ first_stage kind.now from }
{
    match kind {
        CallKind::Read | CallKind::Write(_) => Stage::ReadBegin,
        CallKind::Move => Stage::MoveSpread { position: from },
    }
}

/// Returns the stage once its phase begins at a position. If a first reading is to begin, it begins at this position,
/// which is to be the object's base. Any other stage stays.
pub fn begun_at(stage: Stage, position: u32) -> Stage
    ensures { result ≡ begun_at stage position }
{
    match stage {
        Stage::ReadBegin => first(Reading::start(position)),
        _ => stage,
    }
}

/// Returns the phase that is due, with its position, or none if the call may be answered. For a first reading that has
/// not begun the position is 0, and means nothing: the reading begins at the position that `begun_at` is given.
pub fn due(stage: Stage) -> Option<(Kind, u32)>
    requires { IsBelowLimit stage }
    ensures { result ≡ due stage }
{
    match stage {
        Stage::ReadBegin => Some((Kind::Next, 0)),
        Stage::ReadNext { position, .. } => Some((Kind::Next, position)),
        Stage::AgainNext { position, .. } => Some((Kind::Next, position)),
        Stage::ReadSpread {
            position,
            status,
            ..
        }
        | Stage::AgainSpread {
            position,
            status,
            ..
        } => Some((Kind::Spread(status), position)),
        Stage::QueryFrom { position, .. } => Some((Kind::Query, position)),
        Stage::FetchAt { shown_at, tag, .. } => Some((Kind::Fetch(tag), shown_at)),
        Stage::PreWriteAt { last, tag } => Some((Kind::PreWrite(tag), last)),
        Stage::FinalizeAt { last, tag } => Some((Kind::Finalize(tag), last)),
        Stage::MoveSpread { position } => Some((Kind::Spread(Status::Pending), position)),
        Stage::MoveQuery { position } => Some((Kind::Query, position)),
        Stage::MoveFetch { position, tag } => Some((Kind::Fetch(tag), position)),
        Stage::MovePreWrite { position, tag } => Some((Kind::PreWrite(tag), position + 1)),
        Stage::MoveFinalize { position, tag } => Some((Kind::Finalize(tag), position + 1)),
        Stage::MoveFinal { position, .. } => Some((Kind::Spread(Status::Final), position)),
        Stage::Ended { .. } | Stage::Moved { .. } => None,
    }
}

/// Returns the stage to which a phase leads the call of this number. A phase that is not complete only begins what was
/// due.
pub fn passed(kind: &CallKind, number: CallId, stage: Stage, phase: &Phase) -> Stage
    requires room { IsBelowLimit (begun_at stage phase.now.position) }
    requires tags { HasNextTag kind.now (begun_at stage phase.now.position) phase.now.replies }
    ensures { result ≡ stage_past kind.now number stage phase.now }
{
    let stage = begun_at(stage, phase.position());
    if phase.complete() {
        let lacks = phase.lacks_pieces();
        after(kind, number, stage, phase.replies(), lacks)
    } else {
        stage
    }
}

/// Returns the tag of a call at this stage, or none before its queries are complete.
pub fn stage_tag(stage: Stage) -> Option<Tag>
    ensures { result ≡ stage_tag stage }
{
    match stage {
        Stage::ReadBegin
        | Stage::ReadNext { .. }
        | Stage::ReadSpread { .. }
        | Stage::QueryFrom { .. }
        | Stage::MoveSpread { .. }
        | Stage::MoveQuery { .. } => None,
        Stage::FetchAt { tag, .. }
        | Stage::PreWriteAt { tag, .. }
        | Stage::FinalizeAt { tag, .. }
        | Stage::AgainNext { tag, .. }
        | Stage::AgainSpread { tag, .. }
        | Stage::MoveFetch { tag, .. }
        | Stage::MovePreWrite { tag, .. }
        | Stage::MoveFinalize { tag, .. }
        | Stage::MoveFinal { tag, .. }
        | Stage::Ended { tag, .. }
        | Stage::Moved { tag, .. } => Some(tag),
    }
}
