//! The marks of one tag in the lane of a server.
use crate::plan::Plan;
use crate::px::Px;
use bank::{Arrival, Label, Row};
use std::fmt;
use tag::{Stamp, Tag};

/// The mark of a dropped piece, a square: the end of its SVG path, which follows the middle of the mark.
pub(crate) const SQUARE: &str = "m-2 -2h4v4h-4z' fill='#fff' stroke='#000' stroke-width='.7'";

/// How far above the middle of a lane the middle of the mark of a dropped piece is.
const DROP_HEIGHT: u64 = 70;

/// How far above the middle of a lane the mark of a finalized tag begins.
const FINALIZED_TOP: u64 = 40;

/// Draws when a tag came to a bank, whether its piece is still there, when that was dropped, and when the tag was
/// finalized. The piece was dropped at the step `dropped`; none if it was not, or was never kept.
pub(crate) fn draw_tag<W: fmt::Write>(
    f: &mut fmt::Formatter<W>,
    plan: &Plan,
    y: Px,
    tag: Tag,
    row: &Row,
    dropped: Option<Stamp>,
) -> fmt::Result {
    if let Some(arrival) = &row.arrival {
        draw_arrival(f, plan, y, tag, arrival, dropped)?;
        if let Some(step) = dropped {
            draw_drop(f, plan, y, tag, step)?;
        }
    }
    match row.label {
        Label::Finalized { since } => draw_finalized(f, plan, y, tag, since),
        Label::PreWritten { .. } => Ok(()),
    }
}

// A circle at the step at which the piece came, which is empty where the piece is no longer there.
fn draw_arrival<W: fmt::Write>(
    f: &mut fmt::Formatter<W>,
    plan: &Plan,
    y: Px,
    tag: Tag,
    arrival: &Arrival,
    dropped: Option<Stamp>,
) -> fmt::Result {
    let fill = match &arrival.piece {
        Some(_) => "",
        None => " fill='none' stroke='#000'",
    };
    writeln!(
        f,
        "<circle cx='{}' cy='{y}' r='3'{fill}><title>tag {tag} came at step {}, {}</title></circle>",
        plan.x(arrival.step),
        arrival.step,
        Fate { arrival, dropped }
    )
}

// What became of a piece that came: its length where it is still there, and when it was dropped where it was kept.
#[derive(Clone, Copy)]
struct Fate<'a> {
    arrival: &'a Arrival,
    dropped: Option<Stamp>,
}

impl fmt::Display for Fate<'_> {
    fn fmt<W: fmt::Write>(&self, f: &mut fmt::Formatter<W>) -> fmt::Result {
        match (&self.arrival.piece, self.dropped) {
            (Some(piece), _) => write!(f, "{} bytes", piece.bytes.len()),
            (None, Some(step)) => write!(f, "dropped at step {step}"),
            (None, None) => f.write_str("not kept"),
        }
    }
}

// A square above the lane at the step at which the piece was dropped.
fn draw_drop<W: fmt::Write>(
    f: &mut fmt::Formatter<W>,
    plan: &Plan,
    y: Px,
    tag: Tag,
    step: Stamp,
) -> fmt::Result {
    let (x, above) = (plan.x(step), y.less(DROP_HEIGHT));
    writeln!(
        f,
        "<path d='M{x} {above}{SQUARE}><title>the piece of tag {tag} was dropped at step {step}</title></path>"
    )
}

// A diamond at the step at which the tag was finalized.
fn draw_finalized<W: fmt::Write>(
    f: &mut fmt::Formatter<W>,
    plan: &Plan,
    y: Px,
    tag: Tag,
    since: Stamp,
) -> fmt::Result {
    let (x, top) = (plan.x(since), y.less(FINALIZED_TOP));
    writeln!(
        f,
        "<path class='fin' d='M{x} {top}l4 4l-4 4l-4 -4z'>\
        <title>tag {tag} was finalized at step {since}</title></path>"
    )
}
