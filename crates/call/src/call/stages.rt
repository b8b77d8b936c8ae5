//! How far a call has come, and what it does next.

ghost use Rattle.std.specs.Prelude.{◌≡◌, true};
ghost use Rattle.record.specs.PhaseOrder.{due};
ghost use Rattle.record.specs.Wants.{is_fetch};
ghost use Rattle.call.specs.Call.{reached};
ghost use Rattle.call.specs.Limits.{CanReach, IsWithinLimits, can_reach, has_next_tag, is_below_limit, is_taggable};
ghost use Rattle.call.specs.Limits.{is_within_limits};
ghost use Rattle.call.specs.Next.{leads_back, leads_to, next_of};

use crate::call::Call;
use crate::next::Next;
use crate::{due, greatest_tag, passed};
use bank::Kind;
use mail::Taken;
use record::{CallKind, Stage};
use tag::Tag;

impl Call {
    /// Returns the stage to which the current phase leads: while it lacks a quorum, the stage at which it began.
    pub fn reached(&self) -> Stage
        requires limits { CanReach self.now }
        ensures { result ≡ reached self.now }
    {
        passed(&self.kind, self.id, self.stage, &self.phase)
    }

    /// Returns whether the position of the current phase, that of the phase that is due next, and the tag of a write
    /// have successors that fit the machine's numbers. A caller that cannot know this from limits of its own asks it
    /// before `reached`, `begin_next` and `next`.
    pub fn is_within_limits(&self) -> bool
        ensures value { result ≡ is_within_limits self.now }
        ensures within { result ≡ true → IsWithinLimits self.now }
    {
        self.can_reach() && is_below_limit(self.reached())
    }

    // Whether the numbers from which the reached stage is computed have successors.
    fn can_reach(&self) -> bool
        ensures value { result ≡ can_reach self.now }
        ensures within { result ≡ true → CanReach self.now }
    {
        is_below_limit(self.stage) && has_next_tag(&self.kind, self.stage, self.phase.replies())
    }

    /// Returns what the call does next.
    pub fn next(&self) -> Next
        requires limits { IsWithinLimits self.now }
        ensures { result ≡ next_of self.now }
    {
        if !self.phase.complete() {
            return Next::Wait;
        }
        let asked = due(self.reached());
        if !is_fetch(self.phase.kind()) || self.is_settled() {
            return leads_to(asked);
        }
        if self.phase.lacks_pieces() {
            leads_back(asked)
        } else {
            Next::Settle
        }
    }
}

// Whether a phase of this kind is a fetch.
fn is_fetch(kind: Kind) -> bool
    ensures { result ≡ is_fetch kind }
{
    match kind {
        Kind::Fetch(_) => true,
        _ => false,
    }
}

// What a call does whose phase is done and leads on to this one, if one is due.
fn leads_to(asked: Option<(Kind, u32)>) -> Next
    ensures { result ≡ leads_to asked }
{
    match asked {
        Some((kind, position)) => Next::Begin(kind, position),
        None => Next::Answer,
    }
}

// What a call does whose fetch lacks pieces, and leads back to this phase.
fn leads_back(asked: Option<(Kind, u32)>) -> Next
    ensures { result ≡ leads_back asked }
{
    match asked {
        Some((kind, position)) => Next::Restart(kind, position),
        None => Next::Answer,
    }
}

// Whether the position of the phase that is due at a stage has a successor.
fn is_below_limit(stage: Stage) -> bool
    ensures { result ≡ is_below_limit (due stage) }
{
    match stage {
        Stage::ReadBegin | Stage::Ended { .. } | Stage::Moved { .. } => true,
        Stage::ReadNext { position, .. }
        | Stage::ReadSpread { position, .. }
        | Stage::QueryFrom { position, .. }
        | Stage::FetchAt {
            shown_at: position,
            ..
        }
        | Stage::PreWriteAt { last: position, .. }
        | Stage::FinalizeAt { last: position, .. }
        | Stage::AgainNext { position, .. }
        | Stage::AgainSpread { position, .. }
        | Stage::MoveSpread { position }
        | Stage::MoveQuery { position }
        | Stage::MoveFetch { position, .. }
        | Stage::MoveFinal { position, .. } => position < u32::MAX,
        Stage::MovePreWrite { position, .. } | Stage::MoveFinalize { position, .. } => {
            position < u32::MAX - 1
        }
    }
}

// Whether the stage is no query, or the greatest tag has a next one where the call needs it.
fn has_next_tag(kind: &CallKind, stage: Stage, replies: &[Taken]) -> bool
    ensures { result ≡ has_next_tag kind.now stage replies.now }
{
    match stage {
        Stage::QueryFrom { greatest, .. } => is_taggable(
            kind,
            greatest.later(greatest_tag(replies)),
        ),
        _ => true,
    }
}

// Whether a call of this kind needs no next tag, or the greatest tag has one.
fn is_taggable(kind: &CallKind, greatest: Tag) -> bool
    ensures { result ≡ is_taggable kind.now greatest }
{
    match kind {
        CallKind::Read | CallKind::Move => true,
        CallKind::Write(_) => greatest.number < u64::MAX,
    }
}
