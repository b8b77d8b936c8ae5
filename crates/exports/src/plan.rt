//! Where lanes and steps are drawn. All lengths are in tenths of a pixel.
ghost use Rattle.std.specs.Prelude.{◌≡◌, ◌<◌, ◌≤◌, IfOk, map};
ghost use Rattle.exports.specs.Plan.{bar_end, right_of, x_of};

use crate::lane::Lane;
use crate::object_view::ObjectView;
use crate::place::Place;
use crate::px::Px;
use mail::Phase;
use record::Entry;
use std::alloc::{AllocError, Global};
use tag::{CallId, MOST_POSITIONS, Stamp};

/// The left edge of headings, and of the names of calls.
pub(crate) const MARGIN: u64 = 80;

/// The left edge of the time axis. The names of the lanes are left of it.
pub(crate) const LEFT: u64 = 1500;

/// The room to the right of the time axis, for the values at the ends of calls.
const RIGHT: u64 = 1700;

/// The greatest width of the time axis.
const WIDEST: u64 = 11_000;

/// The least width of the time axis.
const NARROWEST: u64 = 6_000;

/// The width of one step, if there is room for it.
const STEP: u64 = 90;

/// The height of a call's lane.
pub(crate) const CALL: u64 = 160;

/// The height of a server's lane.
pub(crate) const SERVER: u64 = 140;

/// The height of the line above the servers of a position.
const HEAD: u64 = 200;

/// The upper edge of the calls' lanes.
const CALLS_TOP: u64 = 520;

/// How wide a phase must be to show its word.
pub(crate) const WORD: u64 = 380;

/// How wide a phase must be to show its letter.
pub(crate) const LETTER: u64 = 70;

/// The width of one call in the order.
pub(crate) const ORDERED: u64 = 1250;

/// How many rows of the order are drawn at most.
const MOST_ROWS: u64 = 6;

/// The height of one row of the order.
pub(crate) const ROW: u64 = 150;

/// The room to the left and to the right of the order.
const ORDER_MARGINS: u64 = 600;

/// How far below the servers' lanes the baseline of the order's first row is.
const ORDER_GAP: u64 = 200;

/// How far below the order the baseline of the legend's first line is.
const LEGEND_GAP: u64 = 60;

/// Where the lanes of an object's calls and servers are drawn, and its first and last step.
#[derive(Drop)]
pub struct Plan {
    /// The lanes of the calls, from top to bottom.
    pub lanes: Vec<Lane>,
    pub(crate) first: Stamp,
    pub(crate) last: Stamp,
    pub(crate) width: u64,
    pub(crate) positions: Vec<Place>,
    /// The lower edge of the servers' lanes.
    pub(crate) bottom: u64,
}

impl Plan {
    /// Makes the plan for an object with these entries, each of which gets a lane. The only error is that memory is
    /// refused.
    pub fn new<O: ObjectView>(
        alloc: Global,
        object: &O,
        entries: &[Entry],
    ) -> Result<Plan, AllocError>
        ensures { IfOk result (λ plan. map (λ lane. lane.entry) plan.lanes.items ≡ entries.now) }
    {
        let lanes = lanes_of(alloc, entries)?;
        let mut positions = Vec::new(alloc);
        let mut bottom = down(CALLS_TOP, lanes.len() as u64, CALL);
        for position in 0..MOST_POSITIONS as u32 {
            let top = bottom.saturating_add(HEAD);
            let Some(place) = Place::of(alloc, object, position, top)? else {
                break;
            };
            bottom = down(top, u64::from(place.members), SERVER);
            positions.push(place)?;
        }
        let first = match positions.first() {
            Some(place) => place.opened,
            None => 0,
        };
        let last = object.last();
        let width = last.saturating_sub(first).saturating_mul(STEP);
        Ok(Plan {
            lanes,
            first,
            last,
            width: width.max(NARROWEST).min(WIDEST),
            positions,
            bottom,
        })
    }

    /// Returns the number of steps from the first to the last, and at least 1.
    pub(crate) fn span(&self) -> u64 {
        self.last.saturating_sub(self.first).max(1)
    }

    /// Returns where a step is drawn.
    pub(crate) fn x(&self, step: Stamp) -> Px
        ensures { result.0 ≡ x_of self.now step }
    {
        let offset = step.saturating_sub(self.first);
        let span = self.last.saturating_sub(self.first).max(1);
        Px(LEFT.saturating_add(offset.saturating_mul(self.width) / span))
    }

    /// Returns the right edge of the time axis.
    pub(crate) fn right(&self) -> Px
        ensures { result.0 ≡ right_of self.now }
    {
        Px(LEFT.saturating_add(self.width))
    }

    /// Returns where the bar of a call ends: at the step of its answer, or at the right edge if the call is open.
    pub(crate) fn end_x(&self, answered: Option<Stamp>) -> Px
        ensures { result.0 ≡ bar_end self.now answered }
    {
        match answered {
            Some(step) => self.x(step),
            None => self.right(),
        }
    }

    /// Returns the width between two steps.
    pub(crate) fn wide(&self, from: Stamp, to: Stamp) -> Px {
        Px(self.x(to).0.saturating_sub(self.x(from).0))
    }

    /// Returns the lower edge of the bar of a call.
    pub(crate) fn call_foot(&self, call: CallId) -> Px {
        match self.lanes.get(call.saturating_sub(1) as usize) {
            Some(lane) => lane.foot(),
            None => Px(CALLS_TOP),
        }
    }

    /// Returns the middle of the lane of a server, from top to bottom.
    pub(crate) fn server_y(&self, position: u32, member: u8) -> Px {
        match self.positions.get(position as usize) {
            Some(place) => Px(down(place.top, u64::from(member), SERVER)).plus(SERVER / 2),
            None => Px(self.bottom),
        }
    }

    /// Returns the width of the page.
    pub(crate) fn page(&self) -> Px {
        self.right().plus(RIGHT)
    }

    /// Returns the baseline of the first row of the order.
    pub(crate) fn order_y(&self) -> Px {
        Px(self.bottom).plus(ORDER_GAP)
    }

    /// Returns how many of `calls` calls are shown in the order.
    pub(crate) fn ordered(&self, calls: usize) -> usize
        ensures { result ≤ calls }
    {
        calls.min(self.columns().saturating_mul(MOST_ROWS) as usize)
    }

    /// Returns the baseline of the legend's first line, below the order of `calls` calls.
    pub(crate) fn legend_y(&self, calls: usize) -> Px {
        let rows = (self.ordered(calls) as u64).div_ceil(self.columns()).max(1);
        self.order_y()
            .plus(rows.saturating_mul(ROW).saturating_add(LEGEND_GAP))
    }

    /// Returns the width of a phase, which goes to the right edge of the time axis if it is open.
    pub(crate) fn phase_width(&self, phase: &Phase) -> Px {
        match phase.steps() {
            (start, Some(end)) => self.wide(start, end),
            (start, None) => self.right().less(self.x(start).0),
        }
    }

    /// Returns how many calls of the order fit into one row.
    pub(crate) fn columns(&self) -> u64
        ensures { 0 < result }
    {
        (self.page().0.saturating_sub(ORDER_MARGINS) / ORDERED).max(1)
    }
}

// One lane for each entry.
fn lanes_of(alloc: Global, entries: &[Entry]) -> Result<Vec<Lane>, AllocError>
    ensures { IfOk result (λ lanes. map (λ lane. lane.entry) lanes.items ≡ entries.now) }
{
    let mut lanes = Vec::new(alloc);
    let mut top = CALLS_TOP;
    for entry in entries {
        let entry = copy_of(entry)?;
        lanes.push(Lane { entry, top })?;
        top = top.saturating_add(CALL);
    }
    Ok(lanes)
}

// A copy of an entry, which shares the bytes of its value.
fn copy_of(entry: &Entry) -> Result<Entry, AllocError>
    ensures { IfOk result (λ copy. copy ≡ entry.now) }
{
    let value = match &entry.value {
        Some(value) => Some(value.clone()?),
        None => None,
    };
    Ok(Entry {
        call: entry.call,
        kind: entry.kind,
        called: entry.called,
        answered: entry.answered,
        value,
    })
}

// The upper edge of what follows `count` lanes.
fn down(top: u64, count: u64, height: u64) -> u64 {
    top.saturating_add(count.saturating_mul(height))
}
