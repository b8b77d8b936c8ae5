//! The lines of what calls cost.
ghost use Rattle.std.specs.Prelude.{Some};
ghost use Rattle.trace.specs.CostLines.{cost_text, costs_text, line_text, steps_text, total_text};

use crate::cost::{Cost, cost_of};
use printing::operation_word;
use record::Entry;
use register::Register;
use std::fmt;
use tag::Stamp;

/// A line for each of these calls of an object: `call C KIND phases P requests Q replies R sent B returned B steps S`.
/// S is the number of steps from the call to its answer, or `-` for an open call. Then a line for all of them together:
/// `calls N phases P requests Q replies R sent B returned B`.
#[derive(Clone, Copy)]
pub struct CostLines<'a> {
    /// The object.
    pub register: &'a Register,
    /// The entries of the calls.
    pub entries: &'a [Entry],
}

impl fmt::Display for CostLines<'_> {
    ghost output = { λ lines. Some (costs_text lines.register.now.object lines.entries.now) };

    fn fmt<W: fmt::Write>(&self, f: &mut fmt::Formatter<W>) -> fmt::Result {
        let mut total = Cost::NONE;
        for entry in self.entries {
            let cost = cost_of(self.register, entry.call);
            writeln!(f, "{}", CostLine { entry, cost })?;
            total = total.plus(cost);
        }
        let calls = self.entries.len();
        writeln!(f, "{}", TotalLine { calls, cost: total })
    }
}

// The line of one call.
#[derive(Clone, Copy)]
struct CostLine<'a> {
    entry: &'a Entry,
    cost: Cost,
}

impl fmt::Display for CostLine<'_> {
    ghost output = { λ line. Some (line_text line.entry.now line.cost) };

    fn fmt<W: fmt::Write>(&self, f: &mut fmt::Formatter<W>) -> fmt::Result {
        write!(
            f,
            "call {} {} {} steps {}",
            self.entry.call,
            operation_word(self.entry.kind),
            CostText(self.cost),
            Steps {
                called: self.entry.called,
                answered: self.entry.answered,
            }
        )
    }
}

// The line of all calls together.
#[derive(Clone, Copy)]
struct TotalLine {
    calls: usize,
    cost: Cost,
}

impl fmt::Display for TotalLine {
    ghost output = { λ line. Some (total_text line.calls line.cost) };

    fn fmt<W: fmt::Write>(&self, f: &mut fmt::Formatter<W>) -> fmt::Result {
        write!(f, "calls {} {}", self.calls, CostText(self.cost))
    }
}

#[derive(Clone, Copy)]
struct CostText(Cost);

impl fmt::Display for CostText {
    ghost output = { λ text. Some (cost_text text.0) };

    fn fmt<W: fmt::Write>(&self, f: &mut fmt::Formatter<W>) -> fmt::Result {
        let cost = self.0;
        write!(
            f,
            "phases {} requests {} replies {} sent {} returned {}",
            cost.phases, cost.requests, cost.replies, cost.sent, cost.returned
        )
    }
}

// The number of steps from a call to its answer, or `-` where it has none.
#[derive(Clone, Copy)]
struct Steps {
    called: Stamp,
    answered: Option<Stamp>,
}

impl fmt::Display for Steps {
    ghost output = { λ steps. Some (steps_text steps.called steps.answered) };

    fn fmt<W: fmt::Write>(&self, f: &mut fmt::Formatter<W>) -> fmt::Result {
        match self.answered {
            Some(answered) => write!(f, "{}", answered.saturating_sub(self.called)),
            None => f.write_str("-"),
        }
    }
}
