//! What surrounds the lanes: the numbers of the steps, the bands of the moves, and the order of the calls.
ghost use Rattle.std.specs.Prelude.{◌<◌};

use crate::plan::{MARGIN, ORDERED, Plan, ROW};
use crate::px::Px;
use crate::text::{FRONT, Front};
use printing::operation_word;
use record::{Entry, Operation};
use std::fmt;
use tag::{CallId, Stamp};

/// The upper edge of the vertical lines and of the bands.
const GRID_TOP: u64 = 450;

/// The baseline of the numbers of the steps.
const NUMBER_BASE: u64 = 400;

/// How many steps are numbered at most.
const MOST_NUMBERED: u64 = 40;

/// The distance between two numbered steps is chosen so that at most so many fit between the first and the last step.
const MOST_DISTANCES: u64 = 25;

/// How many powers of ten fit 64 bits, but for 1.
const POWERS_OF_TEN: u32 = 19;

/// The left edge of the order's rows.
const ORDER_LEFT: u64 = 500;

/// Draws the numbers of some steps, with a thin vertical line at each.
pub(crate) fn draw_steps<W: fmt::Write>(f: &mut fmt::Formatter<W>, plan: &Plan) -> fmt::Result {
    let every = tick(plan.span());
    for i in 0..MOST_NUMBERED {
        let step = (plan.first / every).saturating_add(i).saturating_mul(every);
        if step > plan.last {
            break;
        }
        if step >= plan.first {
            draw_step(f, plan, step)?;
        }
    }
    Ok(())
}

fn draw_step<W: fmt::Write>(f: &mut fmt::Formatter<W>, plan: &Plan, step: Stamp) -> fmt::Result {
    let x = plan.x(step);
    let (top, height) = (Px(GRID_TOP), Px(plan.bottom.saturating_sub(GRID_TOP)));
    writeln!(
        f,
        "<path class='grid' d='M{x} {top}v{height}'/><text class='tick' x='{x}' y='{}'>{step}</text>",
        Px(NUMBER_BASE)
    )
}

// The distance between two numbered steps: 1, 2 or 5 times a power of ten, so that some ten to thirty are numbered.
fn tick(span: u64) -> u64
    ensures { 0 < result }
{
    let mut every: u64 = 1;
    for _ in 0..POWERS_OF_TEN {
        for more in [1, 2, 5u64] {
            let next = every.saturating_mul(more).max(1);
            if span / next <= MOST_DISTANCES {
                return next;
            }
        }
        every = every.saturating_mul(10);
    }
    every.max(1)
}

/// Draws a band for each move, from the step of its call to that of its answer.
pub(crate) fn draw_bands<W: fmt::Write>(f: &mut fmt::Formatter<W>, plan: &Plan) -> fmt::Result {
    let mut position = 0u64;
    for lane in &plan.lanes {
        if lane.entry.kind == Operation::Move {
            position = position.saturating_add(1);
            draw_band(f, plan, &lane.entry, position)?;
        }
    }
    Ok(())
}

// The band of a move to a position.
fn draw_band<W: fmt::Write>(
    f: &mut fmt::Formatter<W>,
    plan: &Plan,
    entry: &Entry,
    position: u64,
) -> fmt::Result {
    let (top, height) = (Px(GRID_TOP), Px(plan.bottom.saturating_sub(GRID_TOP)));
    let to = entry.answered.unwrap_or(plan.last);
    writeln!(
        f,
        "<rect class='band' x='{}' y='{top}' width='{}' height='{height}'>\
        <title>call {} moves the object to position {position}</title></rect>",
        plan.x(entry.called),
        plan.wide(entry.called, to),
        entry.call
    )
}

/// Draws the calls in an order in which they follow one register, in rows.
pub(crate) fn draw_order<W: fmt::Write>(
    f: &mut fmt::Formatter<W>,
    plan: &Plan,
    order: &[u64],
) -> fmt::Result {
    let y = plan.order_y();
    let left = Px(MARGIN);
    writeln!(f, "<text class='head' x='{left}' y='{y}'>order</text>")?;
    let mut index = 0u64;
    for call in &order[..plan.ordered(order.len())] {
        draw_call(f, plan, index, *call)?;
        index = index.saturating_add(1);
    }
    Ok(())
}

// The call of this number, at an index of the order.
fn draw_call<W: fmt::Write>(
    f: &mut fmt::Formatter<W>,
    plan: &Plan,
    index: u64,
    call: CallId,
) -> fmt::Result {
    match plan.lanes.get(call.saturating_sub(1) as usize) {
        Some(lane) => draw_ordered(f, plan, index, &lane.entry),
        None => Ok(()),
    }
}

// The call at an index of the order.
fn draw_ordered<W: fmt::Write>(
    f: &mut fmt::Formatter<W>,
    plan: &Plan,
    index: u64,
    entry: &Entry,
) -> fmt::Result {
    let (row, column) = (index / plan.columns(), index % plan.columns());
    let x = Px(ORDER_LEFT).plus(column.saturating_mul(ORDERED));
    let y = plan.order_y().plus(row.saturating_mul(ROW));
    writeln!(f, "<text x='{x}' y='{y}'>{}</text>", Ordered(entry))
}

// A call of the order: its number, what it does, and the first bytes of its value.
#[derive(Clone, Copy)]
struct Ordered<'a>(&'a Entry);

impl fmt::Display for Ordered<'_> {
    fn fmt<W: fmt::Write>(&self, f: &mut fmt::Formatter<W>) -> fmt::Result {
        write!(f, "{} {}", self.0.call, operation_word(self.0.kind))?;
        match &self.0.value {
            Some(value) => {
                let bytes = value.as_slice();
                write!(f, " {}", Front { bytes, most: FRONT })
            }
            None => Ok(()),
        }
    }
}
