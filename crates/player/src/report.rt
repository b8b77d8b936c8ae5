//! What is reported about a command that may change the cluster.
ghost use Rattle.std.specs.Prelude.{◌≡◌, Some};
ghost use Rattle.player.specs.Report.{report_text};

use driver::NotAnswered;
use mail::Took;
use printing::{AnswerLine, Outcome};
use register::Receipt;
use std::fmt;
use tag::{CallId, Refusal};

/// What is reported about a command that may change the cluster. It prints as one line, without its line feed.
#[derive(Drop)]
pub enum Report {
    /// What the command did, or why it was refused.
    Did(Outcome),
    /// The receipt of the call that it answered.
    Answered(Receipt),
}

impl Report {
    ghost use Rattle.player.specs.Report.{report_of, done, added_layout, called, took, freed, refused, whole_report};
    ghost use Rattle.player.specs.declared.report.Report.TheVariants as report;

    /// Returns the report of a refused command.
    pub(crate) fn refused(refusal: Refusal) -> Report
        ensures { result ≡ refused refusal }
    {
        Report::Did(Outcome::Refused(refusal))
    }

    /// Returns the report of a step that returns nothing.
    pub(crate) fn of_step(made: Result<(), Refusal>) -> Report
        ensures { result ≡ report_of (λ _. done) made }
    {
        match made {
            Ok(()) => Report::Did(Outcome::Done),
            Err(refusal) => Report::refused(refusal),
        }
    }

    /// Returns the report of a step that adds a layout.
    pub(crate) fn of_layout(added: Result<u32, Refusal>) -> Report
        ensures { result ≡ report_of added_layout added }
    {
        match added {
            Ok(id) => Report::Did(Outcome::Layout(id)),
            Err(refusal) => Report::refused(refusal),
        }
    }

    /// Returns the report of a step that begins a call.
    pub(crate) fn of_call(begun: Result<CallId, Refusal>) -> Report
        ensures { result ≡ report_of called begun }
    {
        match begun {
            Ok(call) => Report::Did(Outcome::Called(call)),
            Err(refusal) => Report::refused(refusal),
        }
    }

    /// Returns the report of a step that takes a reply.
    pub(crate) fn of_take(taken: Result<Took, Refusal>) -> Report
        ensures { result ≡ report_of took taken }
    {
        match taken {
            Ok(took) => Report::Did(Outcome::Took(took)),
            Err(refusal) => Report::refused(refusal),
        }
    }

    /// Returns the report of a step that frees bytes.
    pub(crate) fn of_retire(retired: Result<u64, Refusal>) -> Report
        ensures { result ≡ report_of freed retired }
    {
        match retired {
            Ok(bytes) => Report::Did(Outcome::Freed(bytes)),
            Err(refusal) => Report::refused(refusal),
        }
    }

    /// Returns the report of a step that answers a call.
    pub(crate) fn of_answer(answered: Result<Receipt, Refusal>) -> Report
        ensures { result ≡ report_of report.Answered answered }
    {
        match answered {
            Ok(receipt) => Report::Answered(receipt),
            Err(refusal) => Report::refused(refusal),
        }
    }

    /// Returns the report of a whole call.
    pub(crate) fn of_whole(answered: Result<Receipt, NotAnswered>) -> Report
        ensures { result ≡ whole_report answered }
    {
        match answered {
            Ok(receipt) => Report::Answered(receipt),
            Err(not_answered) => match not_answered {
                NotAnswered::NotCalled(refusal) => Report::refused(refusal),
                NotAnswered::Open { call, refusal } => {
                    Report::Did(Outcome::CallRefused { call, refusal })
                }
            },
        }
    }
}

impl fmt::Display for Report {
    ghost output = { λ report. Some (report_text report) };

    fn fmt<W: fmt::Write>(&self, f: &mut fmt::Formatter<W>) -> fmt::Result {
        match self {
            Report::Did(outcome) => outcome.fmt(f),
            Report::Answered(receipt) => AnswerLine(receipt).fmt(f),
        }
    }
}
