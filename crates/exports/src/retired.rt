//! The bands over positions that were retired.
use crate::place::Place;
use crate::plan::{Plan, SERVER};
use crate::px::Px;
use std::fmt;
use tag::Stamp;

/// The pattern of the hatching.
const HATCH: &str = "<pattern id='retired' width='5' height='5' patternUnits='userSpaceOnUse' \
patternTransform='rotate(45)'><path d='M2.5 0v5' stroke='#aaa' stroke-width='.8'/></pattern>";

/// The style of a hatched area.
pub(crate) const HATCHED: &str = "fill='url(#retired)' stroke='#777' stroke-width='.7'";

/// How far a band goes beyond the last step, in tenths of a pixel.
const BEHIND: u64 = 80;

/// Draws a hatched band over the servers' lanes of each retired position, from the step at which it was retired.
pub(crate) fn draw_retired<W: fmt::Write>(f: &mut fmt::Formatter<W>, plan: &Plan) -> fmt::Result {
    if has_retired(plan) {
        writeln!(f, "{HATCH}")?;
    }
    for place in &plan.positions {
        if let Some(step) = place.retired {
            draw_retired_place(f, plan, place, step)?;
        }
    }
    Ok(())
}

// The band of a position that was retired at a step.
fn draw_retired_place<W: fmt::Write>(
    f: &mut fmt::Formatter<W>,
    plan: &Plan,
    place: &Place,
    step: Stamp,
) -> fmt::Result {
    let (from, to) = (plan.x(step), plan.right().plus(BEHIND));
    let (top, height) = (Px(place.top), height_of(place));
    writeln!(
        f,
        "<path {HATCHED} d='M{from} {top}H{to}v{height}H{from}z'>\
        <title>position {} retired at step {step}</title></path>",
        place.position
    )
}

/// Returns whether a position was retired. Positions are retired in order, so it looks at the first.
pub(crate) fn has_retired(plan: &Plan) -> bool {
    match plan.positions.first() {
        Some(place) => place.retired.is_some(),
        None => false,
    }
}

// The height of the servers' lanes of a position.
fn height_of(place: &Place) -> Px {
    Px(u64::from(place.members).saturating_mul(SERVER))
}
