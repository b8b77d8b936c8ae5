//! What a picture leaves out.
use crate::messages::shown_calls;
use crate::object_view::ObjectView;
use crate::plan::{LETTER, Plan};
use crate::px::Px;
use crate::server_lanes::MOST_TAGS;
use std::fmt;

/// Draws a line that says what is not drawn, where the order has `ordered` calls. It is empty if all is drawn.
pub(crate) fn draw_omitted<W: fmt::Write, O: ObjectView>(
    f: &mut fmt::Formatter<W>,
    plan: &Plan,
    object: &O,
    ordered: usize,
    y: Px,
) -> fmt::Result {
    let letters = narrow_phases(plan, object);
    let calls = plan.lanes.len().saturating_sub(shown_calls(plan, object));
    let tags = tags_left_out(plan, object);
    let ordered = ordered.saturating_sub(plan.ordered(ordered));
    if letters == 0 && calls == 0 && tags == 0 && ordered == 0 {
        return Ok(());
    }
    writeln!(
        f,
        "<text x='8' y='{y}'><tspan class='head'>left out</tspan>{}{}{}{} \
        what is drawn has its text on hovering</text>",
        LeftOut("letters of narrow phases", letters),
        LeftOut("messages of the last calls", calls),
        LeftOut("the last tags of servers", tags),
        LeftOut("the last calls of the order", ordered)
    )
}

// How many of these are left out; nothing where none is.
#[derive(Clone, Copy)]
struct LeftOut(&'static str, usize);

impl fmt::Display for LeftOut {
    fn fmt<W: fmt::Write>(&self, f: &mut fmt::Formatter<W>) -> fmt::Result {
        let (these, count) = (self.0, self.1);
        if count == 0 {
            return Ok(());
        }
        write!(f, " {these} ({count});")
    }
}

// How many phases have no room for their letter.
fn narrow_phases<O: ObjectView>(plan: &Plan, object: &O) -> usize {
    let mut count: usize = 0;
    for lane in &plan.lanes {
        let call = lane.entry.call;
        for index in 0..object.phase_count(call) {
            if let Some(phase) = object.phase_view(call, index) {
                if plan.phase_width(phase).0 < LETTER {
                    count = count.saturating_add(1);
                }
            }
        }
    }
    count
}

// How many tags are not drawn in the lanes of servers.
fn tags_left_out<O: ObjectView>(plan: &Plan, object: &O) -> usize {
    let mut count: usize = 0;
    for place in &plan.positions {
        for member in 0..place.members {
            if let Some(bank) = object.bank_view(place.position, member) {
                count = count.saturating_add(bank.count().saturating_sub(MOST_TAGS));
            }
        }
    }
    count
}
