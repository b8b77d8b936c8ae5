//! The phases in the bars of the calls, and the values beside their ends.
use crate::lane::Lane;
use crate::object_view::ObjectView;
use crate::plan::{LETTER, Plan, WORD};
use crate::px::Px;
use crate::text::{Course, KindText, Short, kind_letter};
use mail::Phase;
use printing::kind_word;
use record::Entry;
use std::fmt;

/// How far right of a call's end its value is.
const END_GAP: u64 = 50;

/// How far below the upper edge of its lane the box of a phase is.
const BOX_TOP: u64 = 20;

/// The height of the box of a phase.
const BOX_HEIGHT: u64 = 120;

/// How far below the upper edge of its lane the baseline of a phase's word is.
const LABEL_BASE: u64 = 115;

/// Draws the phases of each call, with their kinds and positions, and the value of each call beside its end.
pub(crate) fn draw_phases<W: fmt::Write, O: ObjectView>(
    f: &mut fmt::Formatter<W>,
    plan: &Plan,
    object: &O,
) -> fmt::Result {
    for lane in &plan.lanes {
        let call = lane.entry.call;
        for index in 0..object.phase_count(call) {
            if let Some(phase) = object.phase_view(call, index) {
                draw_phase(f, plan, lane, phase)?;
            }
        }
        draw_end(f, plan, lane)?;
    }
    Ok(())
}

// The value of a call beside its end, and whether it is open.
fn draw_end<W: fmt::Write>(f: &mut fmt::Formatter<W>, plan: &Plan, lane: &Lane) -> fmt::Result {
    let x = plan.end_x(lane.entry.answered).plus(END_GAP);
    writeln!(
        f,
        "<text x='{x}' y='{}'>{}</text>",
        lane.base(),
        EndText(&lane.entry)
    )
}

// The text beside the end of a call: its value, and whether it is open.
#[derive(Clone, Copy)]
struct EndText<'a>(&'a Entry);

impl fmt::Display for EndText<'_> {
    fn fmt<W: fmt::Write>(&self, f: &mut fmt::Formatter<W>) -> fmt::Result {
        if let Some(value) = &self.0.value {
            write!(f, "{}", Short(value.as_slice()))?;
        }
        if self.0.answered.is_none() {
            f.write_str(" open")?;
        }
        Ok(())
    }
}

// One phase in the bar of its call.
fn draw_phase<W: fmt::Write>(
    f: &mut fmt::Formatter<W>,
    plan: &Plan,
    lane: &Lane,
    phase: &Phase,
) -> fmt::Result {
    draw_box(f, plan, lane, phase)?;
    draw_label(f, plan, lane, phase)?;
    writeln!(f)
}

// The box of a phase, with its title.
fn draw_box<W: fmt::Write>(
    f: &mut fmt::Formatter<W>,
    plan: &Plan,
    lane: &Lane,
    phase: &Phase,
) -> fmt::Result {
    let (start, end) = phase.steps();
    let ending = if end.is_some() { "" } else { " open" };
    write!(
        f,
        "<rect class='{}{ending}' x='{}' y='{}' width='{}' height='{}'>\
        <title>phase {} {} at position {}, {}</title></rect>",
        kind_word(phase.kind()),
        plan.x(start),
        Px(lane.top).plus(BOX_TOP),
        plan.phase_width(phase),
        Px(BOX_HEIGHT),
        phase.number(),
        KindText(phase.kind()),
        phase.position(),
        Replies(phase)
    )
}

// The word of a phase with its position; its letter where that has no room; nothing where the letter has no room.
fn draw_label<W: fmt::Write>(
    f: &mut fmt::Formatter<W>,
    plan: &Plan,
    lane: &Lane,
    phase: &Phase,
) -> fmt::Result {
    let wide = plan.phase_width(phase).0;
    let x = plan.x(phase.steps().0).plus(wide / 2);
    let y = Px(lane.top).plus(LABEL_BASE);
    if wide >= WORD {
        let (word, position) = (kind_word(phase.kind()), phase.position());
        write!(
            f,
            "<text class='in' x='{x}' y='{y}'>{word} {position}</text>"
        )
    } else if wide >= LETTER {
        let letter = kind_letter(phase.kind());
        write!(f, "<text class='in' x='{x}' y='{y}'>{letter}</text>")
    } else {
        Ok(())
    }
}

// The steps of a phase, and how many members replied.
#[derive(Clone, Copy)]
struct Replies<'a>(&'a Phase);

impl fmt::Display for Replies<'_> {
    fn fmt<W: fmt::Write>(&self, f: &mut fmt::Formatter<W>) -> fmt::Result {
        let (from, to) = self.0.steps();
        write!(
            f,
            "{}, {} replies of {}",
            Course { from, to },
            self.0.replies().len(),
            self.0.quorum()
        )
    }
}
