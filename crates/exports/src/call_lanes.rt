//! The names and bars of the calls.
ghost use Rattle.std.specs.Prelude.{◌≡◌, Some};
ghost use Rattle.exports.specs.CallLanes.{bar_text, call_lanes_text, class_of};
ghost use Rattle.exports.specs.CallLanes.{name_text, path_text, title_text};

use crate::lane::Lane;
use crate::plan::Plan;
use crate::text::Course;
use printing::operation_word;
use record::Entry;
use std::fmt;
use tag::Stamp;

/// A name and a bar for each call. The bar goes from the call's step to its answer, or to the right edge if it is open.
#[derive(Clone, Copy)]
pub(crate) struct CallLanes<'a>(pub(crate) &'a Plan);

impl fmt::Display for CallLanes<'_> {
    ghost output = { λ lanes. Some (call_lanes_text lanes.0.now) };

    fn fmt<W: fmt::Write>(&self, f: &mut fmt::Formatter<W>) -> fmt::Result {
        let plan = self.0;
        for lane in &plan.lanes {
            write!(f, "{}{}", CallName(lane), CallBar { plan, lane })?;
        }
        Ok(())
    }
}

// The name of a call, at the left of its lane.
#[derive(Clone, Copy)]
struct CallName<'a>(&'a Lane);

impl fmt::Display for CallName<'_> {
    ghost output = { λ name. Some (name_text name.0.now) };

    fn fmt<W: fmt::Write>(&self, f: &mut fmt::Formatter<W>) -> fmt::Result {
        let lane = self.0;
        writeln!(
            f,
            "<text x='8' y='{}'>call {} {}</text>",
            lane.base(),
            lane.entry.call,
            operation_word(lane.entry.kind)
        )
    }
}

// The bar of a call, with its title.
#[derive(Clone, Copy)]
struct CallBar<'a> {
    plan: &'a Plan,
    lane: &'a Lane,
}

impl fmt::Display for CallBar<'_> {
    ghost output = { λ bar. Some (bar_text bar.plan.now bar.lane.now) };

    fn fmt<W: fmt::Write>(&self, f: &mut fmt::Formatter<W>) -> fmt::Result {
        let (plan, lane) = (self.plan, self.lane);
        writeln!(
            f,
            "<path class='{}' d='{}'><title>{}</title></path>",
            bar_class(lane.entry.answered),
            BarPath { plan, lane },
            BarTitle(&lane.entry)
        )
    }
}

// The path of a bar: a mark at the step of the call, and a line to the right.
#[derive(Clone, Copy)]
struct BarPath<'a> {
    plan: &'a Plan,
    lane: &'a Lane,
}

impl fmt::Display for BarPath<'_> {
    ghost output = { λ path. Some (path_text path.plan.now path.lane.now) };

    fn fmt<W: fmt::Write>(&self, f: &mut fmt::Formatter<W>) -> fmt::Result {
        let from = self.plan.x(self.lane.entry.called);
        let to = self.plan.end_x(self.lane.entry.answered);
        let top = self.lane.bar_top();
        write!(f, "M{from} {top}v10m0 -5H{to}")
    }
}

// The title of a bar: the call, what it does, and its steps.
#[derive(Clone, Copy)]
struct BarTitle<'a>(&'a Entry);

impl fmt::Display for BarTitle<'_> {
    ghost output = { λ title. Some (title_text title.0.now) };

    fn fmt<W: fmt::Write>(&self, f: &mut fmt::Formatter<W>) -> fmt::Result {
        let word = operation_word(self.0.kind);
        let course = Course {
            from: self.0.called,
            to: self.0.answered,
        };
        write!(f, "call {} {word}, {course}", self.0.call)
    }
}

fn bar_class(answered: Option<Stamp>) -> &'static str
    ensures { result.now ≡ class_of answered }
{
    match answered {
        Some(_) => "bar",
        None => "bar open",
    }
}
