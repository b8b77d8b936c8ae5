//! The lanes of the servers.
use crate::drops::Drops;
use crate::object_view::ObjectView;
use crate::place::Place;
use crate::plan::{MARGIN, Plan};
use crate::px::Px;
use crate::tag_marks::draw_tag;
use bank::{Bank, Pointer};
use std::fmt;
use tag::Stamp;

/// How many tags of one server are drawn at most.
pub(crate) const MOST_TAGS: usize = 400;

/// How far above the lanes of a position's servers the baseline of its heading is.
const HEADING_GAP: u64 = 50;

/// The left edge of the names of servers.
const NAME_LEFT: u64 = 200;

/// How far below the middle of a lane the baseline of the server's name is.
const NAME_BASE: u64 = 40;

/// How far above the middle of a lane the mark of its opening begins.
const OPENED_TOP: u64 = 30;

/// How far below the middle of a lane the foot of the mark of a status is.
const STATUS_FOOT: u64 = 40;

/// Draws a lane for each server of each position: when each tag came and was finalized, and when the pointer changed.
pub(crate) fn draw_servers<W: fmt::Write, O: ObjectView>(
    f: &mut fmt::Formatter<W>,
    plan: &Plan,
    object: &O,
) -> fmt::Result {
    for place in &plan.positions {
        draw_place(f, plan, object, place)?;
    }
    Ok(())
}

// The lanes of the servers of one position.
fn draw_place<W: fmt::Write, O: ObjectView>(
    f: &mut fmt::Formatter<W>,
    plan: &Plan,
    object: &O,
    place: &Place,
) -> fmt::Result {
    let (x, y, position) = (Px(MARGIN), Px(place.top).less(HEADING_GAP), place.position);
    writeln!(
        f,
        "<text class='head' x='{x}' y='{y}'>position {position}</text>"
    )?;
    for member in 0..place.members {
        draw_server(f, plan, object, place, member)?;
    }
    Ok(())
}

// The lane of one member of a position.
fn draw_server<W: fmt::Write, O: ObjectView>(
    f: &mut fmt::Formatter<W>,
    plan: &Plan,
    object: &O,
    place: &Place,
    member: u8,
) -> fmt::Result {
    let y = plan.server_y(place.position, member);
    if let Some(server) = object.server(place.position, member) {
        let (x, base) = (Px(NAME_LEFT), y.plus(NAME_BASE));
        writeln!(f, "<text x='{x}' y='{base}'>server {server}</text>")?;
    }
    draw_line(f, plan, place.opened, y)?;
    if let Some(bank) = object.bank_view(place.position, member) {
        draw_tags(f, plan, bank, place.drops.get(usize::from(member)), y)?;
        draw_pointer(f, plan, bank.pointer(), y)?;
    }
    Ok(())
}

// The line of a lane, from the step at which the bank was opened.
fn draw_line<W: fmt::Write>(
    f: &mut fmt::Formatter<W>,
    plan: &Plan,
    opened: Stamp,
    y: Px,
) -> fmt::Result {
    let (from, to) = (plan.x(opened), plan.right());
    writeln!(
        f,
        "<path class='lane' d='M{from} {}v6M{from} {y}H{to}'><title>opened at step {opened}</title></path>",
        y.less(OPENED_TOP)
    )
}

// The marks of what happened to the tags of a bank.
fn draw_tags<W: fmt::Write>(
    f: &mut fmt::Formatter<W>,
    plan: &Plan,
    bank: &Bank,
    drops: Option<&Drops>,
    y: Px,
) -> fmt::Result {
    for i in 1..bank.count().min(MOST_TAGS) {
        let (tag, row) = bank.kept(i);
        draw_tag(f, plan, y, tag, row, dropped(drops, i))?;
    }
    Ok(())
}

// The step at which the piece of a tag was dropped, where `i` tags of the bank are below that tag.
fn dropped(drops: Option<&Drops>, i: usize) -> Option<Stamp> {
    drops?.step(i)
}

// The marks of the steps at which the pointer to the next position changed.
fn draw_pointer<W: fmt::Write>(
    f: &mut fmt::Formatter<W>,
    plan: &Plan,
    pointer: Pointer,
    y: Px,
) -> fmt::Result {
    match pointer {
        Pointer::Unset => Ok(()),
        Pointer::Pending { since } => draw_status(f, plan, since, "pending", y),
        Pointer::Final { pending, since } => {
            if pending < since {
                draw_status(f, plan, pending, "pending", y)?;
            }
            draw_status(f, plan, since, "final", y)
        }
    }
}

// The mark of the step from which on the pointer to the next position has the status `word`.
fn draw_status<W: fmt::Write>(
    f: &mut fmt::Formatter<W>,
    plan: &Plan,
    since: Stamp,
    word: &str,
    y: Px,
) -> fmt::Result {
    let (x, y) = (plan.x(since), y.plus(STATUS_FOOT));
    writeln!(
        f,
        "<path class='{word}' d='M{x} {y}l-4 -8h8z'>\
        <title>the next position is {word} from step {since} on</title></path>"
    )
}
