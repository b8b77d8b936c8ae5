//! Calls whose first reading stands for their query, since members told their greatest finalized tags with replies.

ghost use Rattle.std.specs.Prelude.{◌≡◌, suc, ◌+◌, ◌<◌, ◌≤◌, ◌^◌, ◌&&◌, nat_le, nat_lt, true, IfErr, OnOk, OnErr};
ghost use Rattle.std.specs.List.{count_by};
ghost use Rattle.layout.specs.Layout.{quorum_of};
ghost use Rattle.tag.specs.declared.refusal.Refusal.TheVariants.{NoMemory};
ghost use Rattle.call.specs.Limits.{IsWithinLimits};
ghost use Rattle.local_object.specs.Going.{next_here};
ghost use Rattle.local_object.specs.Queried.{heeding, heeding_all, query_reply, querying};
ghost use Rattle.local_object.specs.Querying.{begins_query, is_query, is_to_query};
ghost use Rattle.local_object.specs.Reports.{tells_unset};

use crate::calls::is_move;
use crate::early::{is_first_counting, is_quorum};
use crate::going::next_here;
use crate::reading::{is_next, is_reading_at};
use crate::report::Report;
use crate::reports::{count_unset, tells_unset};
use bank::{Answer, Kind, Reply};
use call::{Call, Next};
use layout::Layout;
use mail::{Body, Message};
use std::alloc::Global;
use tag::{CallId, Refusal};

/// Returns whether the first reading of a call stands for the query that it is to make next, by the layout of its
/// phase's position.
pub(crate) fn stands_for_query(call: &Call, layout: &Layout, reports: &[Report]) -> bool
    ensures value { result ≡ (is_to_query call.now && (nat_lt (call.now.phase.number + 1) (2 ^ 32)
        && nat_le (quorum_of layout.now) (count_by (tells_unset call.now.id call.now.phase.number) reports.now))) }

    ensures limits { result ≡ true → IsWithinLimits call.now }
    ensures number { result ≡ true → suc call.now.phase.number < 2 ^ 32 }
    ensures some { result ≡ true → 1 ≤ quorum_of layout.now }
{
    is_to_query(call)
        && has_number(call)
        && is_quorum(
            layout,
            count_unset(reports, call.id(), call.phase().number()),
        )
}

// Whether there is a number for the call's next phase.
fn has_number(call: &Call) -> bool
    ensures value { result ≡ nat_lt (call.now.phase.number + 1) (2 ^ 32) }
    ensures number { result ≡ true → suc call.now.phase.number < 2 ^ 32 }
{
    call.phase().number() < u32::MAX
}

// Whether the call is a read or a write that asked for the pointers of the first position that counts, and is to query
// it next.
fn is_to_query(call: &Call) -> bool
    ensures value { result ≡ is_to_query call.now }
    ensures limits { result ≡ true → IsWithinLimits call.now }
{
    let phase = call.phase();
    !is_move(call)
        && is_first_counting(call.stage())
        && is_reading_at(call.stage(), phase.position())
        && is_next(phase.kind())
        && begins_query(call)
}

// Whether the call begins a query next.
fn begins_query(call: &Call) -> bool
    ensures value { result ≡ begins_query (next_here call.now) }
    ensures limits { result ≡ true → IsWithinLimits call.now }
{
    match next_here(call) {
        Next::Begin(kind, _) => is_query(kind),
        _ => false,
    }
}

// Whether a phase of this kind asks for the greatest finalized tag.
fn is_query(kind: Kind) -> bool
    ensures { result ≡ is_query kind }
{
    match kind {
        Kind::Query => true,
        _ => false,
    }
}

/// The call begins a query of its position, which has this layout, and takes replies to it that say what its phase
/// before was told. If it is refused, nothing changes. `NoMemory` is the only refusal.
pub(crate) fn query_by(
    alloc: Global,
    call: &mut Call,
    layout: &Layout,
    reports: &[Report],
) -> Result<(), Refusal>
    requires limits { IsWithinLimits call.old }
    requires number { suc call.old.phase.number < 2 ^ 32 }
    ensures queried { OnOk result (call.new ≡ querying call.old layout.now reports.now) }
    ensures refused { IfErr result (λ e. e ≡ NoMemory) }
    ensures unchanged { OnErr result (call.new ≡ call.old) }
{
    let id = call.id();
    let phase = call.phase().number();
    let position = call.phase().position();
    call.begin_next(alloc, Kind::Query, position, layout, 0)?;
    heed_all(call, id, phase, position, reports);
    Ok(())
}

// The call takes a reply to its query for each member that told this phase of it, which came before, an unset pointer.
// Those behind a quorum change nothing.
fn heed_all(call: &mut Call, id: CallId, phase: u32, position: u32, reports: &[Report])
    requires { suc phase < 2 ^ 32 }
    ensures { call.new ≡ heeding_all id phase position call.old reports.now }
{
    for report in reports {
        heed(call, id, phase, position, report);
    }
}

// The call takes a reply to its query, if the member told this phase of it, which came before, an unset pointer.
fn heed(call: &mut Call, id: CallId, phase: u32, position: u32, report: &Report)
    requires { suc phase < 2 ^ 32 }
    ensures { call.new ≡ heeding id phase position call.old report.now }
{
    if tells_unset(id, phase, report) {
        call.take(query_reply(id, phase, position, report), 0);
    }
}

// The reply to the query of a call after this phase, at this position, that says what a member told the phase.
fn query_reply(id: CallId, phase: u32, position: u32, report: &Report) -> Message
    requires { suc phase < 2 ^ 32 }
    ensures { result ≡ query_reply id phase position report.now }
{
    Message {
        call: id,
        phase: phase + 1,
        position,
        member: report.member,
        body: Body::Reply {
            kind: Kind::Query,
            reply: Reply {
                step: 0,
                answer: Answer::Greatest(report.telling.greatest),
            },
        },
    }
}
