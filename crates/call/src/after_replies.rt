//! The stages to which the replies of complete phases lead.

ghost use Rattle.std.specs.Prelude.{◌≡◌, ◌+◌, ◌<◌, ◌^◌, if◌then◌else◌};
ghost use Rattle.tag.specs.Tag.{later_tag};
ghost use Rattle.record.specs.PhaseOrder.{after, after_next, after_spread, after_query, after_fetch, after_again};
ghost use Rattle.record.specs.PhaseOrder.{greatest_status, greatest_tag, tagged};
ghost use Rattle.record.specs.declared.stage.Stage.TheVariants.{ReadBegin};
ghost use Rattle.call.specs.Reading.{first_of, again_of, spread_by};
ghost use Rattle.call.specs.declared.reading.Reading.TheVariants.{Spread};
ghost use Rattle.call.specs.StageLimits.{IsBelowLimit, IsTaggable, HasNextTag};
ghost use Rattle.call.specs.Moves.{after_move};

use crate::{Reading, greatest_status, greatest_tag};
use bank::Status;
use mail::Taken;
use record::{CallKind, Stage};
use tag::{CallId, Tag};

/// Returns the stage to which the replies of a complete phase lead the call of this number. A fetch that lacks pieces
/// leads a read back to its first reading, and a move back to its query.
pub(crate) fn after(
    kind: &CallKind,
    number: CallId,
    stage: Stage,
    replies: &[Taken],
    lacks: bool,
) -> Stage
    requires room { IsBelowLimit stage }
    requires tags { HasNextTag kind.now stage replies.now }
    ensures { result ≡ after kind.now number stage replies.now lacks }
{
    match stage {
        Stage::ReadNext {
            position,
            finalized,
        } => after_next(replies, position, finalized),
        Stage::ReadSpread {
            position,
            finalized,
            status,
        } => first(spread(position, finalized, status)),
        Stage::QueryFrom {
            position,
            last,
            greatest,
            shown_at,
        } => after_query(kind, number, replies, position, last, greatest, shown_at),
        Stage::FetchAt {
            shown_at,
            last,
            tag,
        } => after_fetch(shown_at, last, tag, lacks),
        Stage::PreWriteAt { last, tag } => Stage::FinalizeAt { last, tag },
        Stage::FinalizeAt { last, tag } => again(last, tag, Reading::start(last)),
        Stage::AgainNext {
            last,
            position,
            tag,
        } => after_again(replies, last, position, tag),
        Stage::AgainSpread {
            last,
            position,
            tag,
            status,
        } => again(last, tag, spread(position, last, status)),
        _ => after_move(stage, replies, lacks),
    }
}

// The stage to which the replies of a move's phase lead. Any other stage stays.
fn after_move(stage: Stage, replies: &[Taken], lacks: bool) -> Stage
    ensures { result ≡ after_move stage replies.now lacks }
{
    match stage {
        Stage::MoveSpread { position } => Stage::MoveQuery { position },
        Stage::MoveQuery { position } => Stage::MoveFetch {
            position,
            tag: greatest_tag(replies),
        },
        Stage::MoveFetch { position, tag } => {
            if lacks {
                Stage::MoveQuery { position }
            } else {
                Stage::MovePreWrite { position, tag }
            }
        }
        Stage::MovePreWrite { position, tag } => Stage::MoveFinalize { position, tag },
        Stage::MoveFinalize { position, tag } => Stage::MoveFinal { position, tag },
        Stage::MoveFinal { position, tag } => Stage::Moved { position, tag },
        _ => stage,
    }
}

// A first reading ends at an unset pointer. Any other status that was found is spread.
fn after_next(replies: &[Taken], position: u32, finalized: u32) -> Stage
    ensures { result ≡ after_next (greatest_status replies.now) position finalized }
{
    let reading = Reading::Next {
        position,
        finalized,
    };
    first(reading.found(greatest_status(replies)))
}

// The reading after it spread this status at a position. It goes on at the next position.
fn spread(position: u32, finalized: u32, status: Status) -> Reading
    requires { position + 1 < 2 ^ 32 }
    ensures { result ≡ spread_by (Spread position finalized status) }
{
    let reading = Reading::Spread {
        position,
        finalized,
        status,
    };
    reading.spread()
}

// Up to the last position, the next one is queried. Of the positions that showed the greatest tag, the last one counts.
fn after_query(
    kind: &CallKind,
    number: CallId,
    replies: &[Taken],
    position: u32,
    last: u32,
    greatest: Tag,
    shown_at: u32,
) -> Stage
    requires room { position + 1 < 2 ^ 32 }
    requires tags { IsTaggable kind.now (later_tag greatest (greatest_tag replies.now)) }
    ensures { result ≡ after_query kind.now number (greatest_tag replies.now) position last greatest shown_at }
{
    let found = greatest_tag(replies);
    let shown_at = if found.is_below(greatest) {
        shown_at
    } else {
        position
    };
    let greatest = greatest.later(found);
    if position == last {
        tagged(kind, number, shown_at, last, greatest)
    } else {
        Stage::QueryFrom {
            position: position + 1,
            last,
            greatest,
            shown_at,
        }
    }
}

// If pieces are lacking, a new first reading is to begin. Else the tag is put into the last position, unless it was
// fetched there, which finalized it at a quorum.
fn after_fetch(shown_at: u32, last: u32, tag: Tag, lacks: bool) -> Stage
    ensures { result ≡ (if lacks then ReadBegin else after_fetch shown_at last tag) }
{
    if lacks {
        Stage::ReadBegin
    } else if shown_at == last {
        again(last, tag, Reading::start(last))
    } else {
        Stage::PreWriteAt { last, tag }
    }
}

// A later reading ends at an unset pointer. Any other status that was found is spread.
fn after_again(replies: &[Taken], last: u32, position: u32, tag: Tag) -> Stage
    ensures { result ≡ after_again (greatest_status replies.now) last position tag }
{
    let reading = Reading::start(position);
    again(last, tag, reading.found(greatest_status(replies)))
}

/// Returns the stage of a call in its first reading. The queries after it begin at the last known final position.
pub(crate) fn first(reading: Reading) -> Stage
    ensures { result ≡ first_of reading }
{
    match reading {
        Reading::Next {
            position,
            finalized,
        } => Stage::ReadNext {
            position,
            finalized,
        },
        Reading::Spread {
            position,
            finalized,
            status,
        } => Stage::ReadSpread {
            position,
            finalized,
            status,
        },
        Reading::Ended { last, finalized } => Stage::QueryFrom {
            position: finalized,
            last,
            greatest: Tag::OPENING,
            shown_at: finalized,
        },
    }
}

// The stage of a call in a later reading, which began at the position `last`. If the reading found a later last
// position, the tag is put there too.
fn again(last: u32, tag: Tag, reading: Reading) -> Stage
    ensures { result ≡ again_of last tag reading }
{
    match reading {
        Reading::Next { position, .. } => Stage::AgainNext {
            last,
            position,
            tag,
        },
        Reading::Spread {
            position,
            status,
            ..
        } => Stage::AgainSpread {
            last,
            position,
            tag,
            status,
        },
        Reading::Ended { last: end, .. } => {
            if end == last {
                Stage::Ended { last, tag }
            } else {
                Stage::PreWriteAt { last: end, tag }
            }
        }
    }
}

// The stage once the queries are complete: a read fetches the greatest tag, and a write pre-writes the next one.
fn tagged(kind: &CallKind, number: CallId, shown_at: u32, last: u32, greatest: Tag) -> Stage
    requires { IsTaggable kind.now greatest }
    ensures { result ≡ tagged kind.now number shown_at last greatest }
{
    match kind {
        CallKind::Read | CallKind::Move => Stage::FetchAt {
            shown_at,
            last,
            tag: greatest,
        },
        CallKind::Write(_) => Stage::PreWriteAt {
            last,
            tag: greatest.next(number),
        },
    }
}
