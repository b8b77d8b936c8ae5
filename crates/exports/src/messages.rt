//! The messages between calls and servers.
use crate::loss::Loss;
use crate::object_view::ObjectView;
use crate::plan::Plan;
use mail::{Phase, Taken};
use std::fmt;
use tag::{CallId, Stamp};

/// How many replies are drawn at most.
pub(crate) const MOST_REPLIES: usize = 4000;

/// Returns how many calls, from the first on, have no more replies together than can be drawn.
pub(crate) fn shown_calls<O: ObjectView>(plan: &Plan, object: &O) -> usize {
    let mut replies: usize = 0;
    for (index, lane) in plan.lanes.iter().enumerate() {
        let call = lane.entry.call;
        for place in 0..object.phase_count(call) {
            if let Some(phase) = object.phase_view(call, place) {
                replies = replies.saturating_add(phase.replies().len());
            }
        }
        if replies > MOST_REPLIES {
            return index;
        }
    }
    plan.lanes.len()
}

/// Draws a thin line for each reply that was taken, from the step at which its request was served.
pub(crate) fn draw_replies<W: fmt::Write, O: ObjectView>(
    f: &mut fmt::Formatter<W>,
    plan: &Plan,
    object: &O,
) -> fmt::Result {
    for index in 0..shown_calls(plan, object) {
        if let Some(lane) = plan.lanes.get(index) {
            draw_replies_to(f, plan, object, lane.entry.call)?;
        }
    }
    Ok(())
}

// The replies that one call took.
fn draw_replies_to<W: fmt::Write, O: ObjectView>(
    f: &mut fmt::Formatter<W>,
    plan: &Plan,
    object: &O,
    call: CallId,
) -> fmt::Result {
    for index in 0..object.phase_count(call) {
        if let Some(phase) = object.phase_view(call, index) {
            draw_replies_of(f, plan, call, phase)?;
        }
    }
    Ok(())
}

// The replies that one phase took.
fn draw_replies_of<W: fmt::Write>(
    f: &mut fmt::Formatter<W>,
    plan: &Plan,
    call: CallId,
    phase: &Phase,
) -> fmt::Result {
    for taken in phase.replies() {
        draw_reply(f, plan, call, phase, taken)?;
    }
    Ok(())
}

fn draw_reply<W: fmt::Write>(
    f: &mut fmt::Formatter<W>,
    plan: &Plan,
    call: CallId,
    phase: &Phase,
    taken: &Taken,
) -> fmt::Result {
    let (served, step) = (taken.reply.step, taken.step);
    writeln!(
        f,
        "<path class='msg' d='M{} {}L{} {}'><title>call {call} phase {}, member {}: \
        served at step {served}, taken at step {step}</title></path>",
        plan.x(served),
        plan.server_y(phase.position(), taken.member),
        plan.x(step),
        plan.call_foot(call),
        phase.number(),
        taken.member
    )
}

/// Draws a line with a cross for each lost message.
pub(crate) fn draw_losses<W: fmt::Write, O: ObjectView>(
    f: &mut fmt::Formatter<W>,
    plan: &Plan,
    object: &O,
    losses: &[Loss],
) -> fmt::Result {
    for loss in &losses[..losses.len().min(MOST_REPLIES)] {
        draw_loss(f, plan, object, loss)?;
    }
    Ok(())
}

fn draw_loss<W: fmt::Write, O: ObjectView>(
    f: &mut fmt::Formatter<W>,
    plan: &Plan,
    object: &O,
    loss: &Loss,
) -> fmt::Result {
    let call = plan.call_foot(loss.call);
    let server = plan.server_y(loss.position, loss.member);
    let (word, from, begin, end) = match loss.served {
        Some(served) => ("reply", served, server, call),
        None => ("request", asked(object, loss), call, server),
    };
    writeln!(
        f,
        "<path class='lost' d='M{} {begin}L{} {end}m-4 -4l8 8m0 -8l-8 8'>\
        <title>the {word} of call {} phase {} and member {} was lost at step {}</title></path>",
        plan.x(from),
        plan.x(loss.step),
        loss.call,
        loss.phase,
        loss.member,
        loss.step
    )
}

// The step at which the phase of a lost message began.
fn asked<O: ObjectView>(object: &O, loss: &Loss) -> Stamp {
    // Phases are numbered from 1.
    match object.phase_view(loss.call, (loss.phase as usize).saturating_sub(1)) {
        Some(phase) => phase.steps().0,
        None => loss.step,
    }
}
