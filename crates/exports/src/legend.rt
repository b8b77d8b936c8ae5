//! The legend, and the styles of a picture.
use crate::plan::{MARGIN, Plan};
use crate::px::Px;
use crate::retired::{HATCHED, has_retired};
use crate::tag_marks::SQUARE;
use std::fmt;

/// The styles of all elements. Each kind of phase has its own shade, and each text can be selected.
pub(crate) const STYLE: &str = "<style>\
text{font:11px sans-serif}.in{font-size:9px;text-anchor:middle}.head{font-weight:bold}\
.tick{font-size:9px;text-anchor:middle;fill:#555}.grid{stroke:#e4e4e4;fill:none}\
.bar{stroke:#000;stroke-width:1.5;fill:none}.open{stroke-dasharray:4 3}\
rect{stroke:#000;stroke-width:.7}.next{fill:#fff}.spread{fill:#f6e6c4}.query{fill:#dfe9f6}\
.fetch{fill:#bdd0ea}.pre{fill:#c4dfb6}.fin{fill:#8fbb84}.band{fill:#f1f1f1;stroke:#bbb;stroke-dasharray:2 2}\
.lane{stroke:#999;fill:none}.msg{stroke:#888;stroke-width:.5;fill:none}\
.lost{stroke:#000;stroke-width:1.2;stroke-dasharray:none;fill:none}\
path.fin{stroke:#000;stroke-width:.7}.pending{fill:#fff;stroke:#000}.final{fill:#000;stroke:#000}\
</style>";

/// The distance between the legend's two lines.
const LINE: u64 = 180;

/// How far above the baseline the upper edge of a box is.
const BOX_TOP: u64 = 90;

/// How far above the baseline a diamond begins.
const DIAMOND_TOP: u64 = 80;

/// How far above the baseline the middle of a mark or of a line is.
const MIDDLE: u64 = 40;

/// The width of a kind of phases: its box with its letter, and its word.
const KIND_WIDTH: u64 = 640;

/// How far right of a box's left edge the middle of its letter is.
const LETTER_MIDDLE: u64 = 60;

/// How far above the baseline of a kind's word that of its letter is.
const LETTER_BASE: u64 = 10;

/// How far right of a box's left edge its word begins.
const KIND_WORD: u64 = 150;

/// Draws the legend, in two lines, of which the first has its baseline at `y`. It explains the square and the hatching
/// only if there are some.
pub(crate) fn draw_legend<W: fmt::Write>(
    f: &mut fmt::Formatter<W>,
    plan: &Plan,
    y: Px,
) -> fmt::Result {
    let second = y.plus(LINE);
    draw_kind_signs(f, y)?;
    draw_mark_signs(f, y)?;
    draw_line_signs(f, second)?;
    if has_dropped(plan) {
        draw_dropped_sign(f, y)?;
    }
    if has_retired(plan) {
        draw_retired_sign(f, second)?;
    }
    Ok(())
}

// Whether a piece was dropped at one of the servers.
fn has_dropped(plan: &Plan) -> bool {
    for place in &plan.positions {
        for drops in &place.drops {
            if drops.any() {
                return true;
            }
        }
    }
    false
}

// The kinds of phases, each with the letter that is drawn where its word has no room.
static KINDS: [(&str, &str); 6] = [
    ("next", "n"),
    ("spread", "s"),
    ("query", "q"),
    ("fetch", "g"),
    ("pre", "p"),
    ("fin", "f"),
];

fn draw_kind_signs<W: fmt::Write>(f: &mut fmt::Formatter<W>, y: Px) -> fmt::Result {
    let mut x = Px(MARGIN);
    for (word, letter) in &KINDS {
        draw_kind_sign(f, x, y, word, letter)?;
        x = x.plus(KIND_WIDTH);
    }
    Ok(())
}

fn draw_kind_sign<W: fmt::Write>(
    f: &mut fmt::Formatter<W>,
    x: Px,
    y: Px,
    word: &str,
    letter: &str,
) -> fmt::Result {
    let (top, base) = (y.less(BOX_TOP), y.less(LETTER_BASE));
    writeln!(
        f,
        "<rect class='{word}' x='{x}' y='{top}' width='12' height='11'/>\
        <text class='in' x='{}' y='{base}'>{letter}</text><text x='{}' y='{y}'>{word}</text>",
        x.plus(LETTER_MIDDLE),
        x.plus(KIND_WORD)
    )
}

// The marks in the lanes of servers, and the band of a move.
fn draw_mark_signs<W: fmt::Write>(f: &mut fmt::Formatter<W>, y: Px) -> fmt::Result {
    let (top, middle) = (y.less(BOX_TOP), y.less(MIDDLE));
    writeln!(
        f,
        "<circle cx='396' cy='{middle}' r='3'/><text x='403' y='{y}'>a piece came</text>\n\
        <path class='fin' d='M498 {}l4 4l-4 4l-4 -4z'/><text x='507' y='{y}'>tag finalized</text>\n\
        <rect class='band' x='604' y='{top}' width='20' height='11'/><text x='629' y='{y}'>a move</text>\n\
        <circle cx='690' cy='{middle}' r='3' fill='none' stroke='#000'/>\
        <text x='697' y='{y}'>a dropped piece came</text>",
        y.less(DIAMOND_TOP)
    )
}

// The marks of pointers to the next position, and the lines of messages.
fn draw_line_signs<W: fmt::Write>(f: &mut fmt::Formatter<W>, y: Px) -> fmt::Result {
    let middle = y.less(MIDDLE);
    writeln!(
        f,
        "<path class='pending' d='M12 {y}l-4 -8h8z'/><path class='final' d='M23 {y}l-4 -8h8z'/>\
        <text x='31' y='{y}'>the next position is pending, is final</text>\n\
        <path class='msg' d='M270 {middle}h20'/>\
        <text x='295' y='{y}'>from a request's serving to the take of its reply</text>\n\
        <path class='lost' d='M590 {middle}h20m-4 -4l8 8m0 -8l-8 8'/><text x='620' y='{y}'>lost</text>\n\
        <path class='bar open' d='M670 {middle}h20'/><text x='696' y='{y}'>still open</text>"
    )
}

fn draw_dropped_sign<W: fmt::Write>(f: &mut fmt::Formatter<W>, y: Px) -> fmt::Result {
    writeln!(
        f,
        "<path d='M842 {}{SQUARE}/><text x='848' y='{y}'>dropped</text>",
        y.less(MIDDLE)
    )
}

fn draw_retired_sign<W: fmt::Write>(f: &mut fmt::Formatter<W>, y: Px) -> fmt::Result {
    writeln!(
        f,
        "<path {HATCHED} d='M770 {}h20v11h-20z'/><text x='795' y='{y}'>a retired position</text>",
        y.less(BOX_TOP)
    )
}
