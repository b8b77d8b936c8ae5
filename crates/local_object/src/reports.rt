//! What members told the calls of a node with their replies.

ghost use Rattle.std.specs.Prelude.{◌≡◌, ◌==◌, [], length, IfErr, OnOk};
ghost use Rattle.std.specs.Prelude.{filter};
ghost use Rattle.std.specs.List.{count_by, list_any};
ghost use Rattle.tag.specs.Tag.{opening_tag};
ghost use Rattle.tag.specs.declared.refusal.Refusal.TheVariants.{NoMemory};
ghost use Rattle.local_object.specs.Distinct.{AreOfOtherMembers};
ghost use Rattle.local_object.specs.Reports.{greatest_told, is_kept_beside, is_of, is_same, is_unset, later_told};
ghost use Rattle.local_object.specs.Reports.{reports_after};
ghost use Rattle.local_object.specs.Reports.{tells_held, tells_no_greater, tells_unset, with_report, without_reports};

use crate::report::Report;
use bank::Status;
use letter::Telling;
use mail::Message;
use std::alloc::Global;
use std::marker::Model;
use tag::{CallId, Refusal, Tag};

/// What members told the current phases of a node's calls, in the order in which the node took the replies. No two
/// reports are of the same member, to the same phase of the same call.
#[derive(Debug)]
pub struct Reports {
    reports: Vec<Report>,
}

impl Drop for Reports {
    fn drop(self) {
        let Self { reports: _ } = self;
    }
}

impl Model for Reports {
    ghost use Rattle.std.specs.Prelude.{List};
    ghost use Rattle.local_object.specs.declared.report.Report.{Report as Told};
    ghost use Rattle.local_object.specs.Distinct.{AreOfOtherMembers};

    ghost Value = { List Told };

    ghost view = { λ r. r.reports.items };

    ghost invariant = { λ r. AreOfOtherMembers r.reports.items };
}

impl Reports {
    /// Makes a list without reports. It allocates no memory.
    pub(crate) fn new(alloc: Global) -> Reports
        ensures { result ≡ [] }
    {
        Reports {
            reports: Vec::new(alloc),
        }
    }

    /// Returns whether there are no reports.
    pub(crate) fn is_empty(&self) -> bool
        ensures { result ≡ (length self.now == 0) }
    {
        self.reports.len() == 0
    }

    /// Returns the reports.
    pub(crate) fn all(&self) -> &[Report]
        ensures all { result.now ≡ self.now }
        ensures apart { AreOfOtherMembers self.now }
    {
        &self.reports
    }

    /// Adds a report, unless its member reported to this phase before. Reports to other phases of its call are dropped.
    ///
    /// `NoMemory` is the only refusal.
    pub(crate) fn add(&mut self, report: Report) -> Result<(), Refusal>
        ensures added { OnOk result (self.new ≡ with_report report self.old) }
        ensures refused { IfErr result (λ e. e ≡ NoMemory) }
    {
        if has_same(&self.reports, &report) {
            return Ok(());
        }
        keep_beside(&mut self.reports, &report);
        self.reports.push(report)?;
        Ok(())
    }

    /// Adds what a member told with a message, if it told anything and the message is of the phase with this number.
    ///
    /// `NoMemory` is the only refusal.
    pub(crate) fn heed(
        &mut self,
        number: u32,
        message: &Message,
        told: Option<Telling>,
    ) -> Result<(), Refusal>
        ensures added { OnOk result (self.new ≡ reports_after number message.now told self.old) }
        ensures refused { IfErr result (λ e. e ≡ NoMemory) }
    {
        let Some(telling) = told else {
            return Ok(());
        };
        if message.phase != number {
            return Ok(());
        }
        self.add(Report {
            call: message.call,
            phase: message.phase,
            member: message.member,
            telling,
        })
    }

    /// Drops the reports to a call.
    pub(crate) fn forget(&mut self, call: CallId)
        ensures { self.new ≡ without_reports call self.old }
    {
        self.reports.retain(|report| report.call != call);
    }
}

// Whether one of the reports is of the same member, to the same phase of the same call.
fn has_same(reports: &[Report], report: &Report) -> bool
    ensures { result ≡ list_any (is_same report.now) reports.now }
{
    reports.iter().any(|other| is_same(report, other))
}

// Keeps the reports that are kept beside a new one.
fn keep_beside(reports: &mut Vec<Report>, report: &Report)
    ensures { reports.new.items ≡ filter (is_kept_beside report.now) reports.old.items }
{
    reports.retain(|other| is_kept_beside(report, other));
}

// Whether two reports are of the same member, to the same phase of the same call.
fn is_same(report: &Report, other: &Report) -> bool
    ensures { result ≡ is_same report.now other.now }
{
    is_of(report.call, report.phase, other) && other.member == report.member
}

// Whether a report is kept beside a new one.
fn is_kept_beside(report: &Report, other: &Report) -> bool
    ensures { result ≡ is_kept_beside report.now other.now }
{
    other.call != report.call || other.phase == report.phase
}

/// Whether a report is one to this phase of this call.
pub(crate) fn is_of(call: CallId, phase: u32, report: &Report) -> bool
    ensures { result ≡ is_of call phase report.now }
{
    report.call == call && report.phase == phase
}

/// Whether a member told this phase of a call an unset pointer.
pub(crate) fn tells_unset(call: CallId, phase: u32, report: &Report) -> bool
    ensures { result ≡ tells_unset call phase report.now }
{
    is_of(call, phase, report) && is_unset(report.telling.status)
}

// Whether a pointer is unset.
fn is_unset(status: Status) -> bool
    ensures { result ≡ is_unset status }
{
    match status {
        Status::Unset => true,
        Status::Pending | Status::Final => false,
    }
}

/// How many members told this phase of a call an unset pointer.
pub(crate) fn count_unset(reports: &[Report], call: CallId, phase: u32) -> usize
    ensures { result ≡ count_by (tells_unset call phase) reports.now }
{
    reports
        .iter()
        .filter(|report| tells_unset(call, phase, report))
        .count()
}

// Whether a member told this phase of a call an unset pointer, and that this tag is its greatest finalized one.
fn tells_held(tag: Tag, call: CallId, phase: u32, report: &Report) -> bool
    ensures { result ≡ tells_held tag call phase report.now }
{
    tells_unset(call, phase, report) && report.telling.greatest.is(tag)
}

/// How many members told this phase of a call an unset pointer, and that this tag is their greatest finalized one.
pub(crate) fn count_held(reports: &[Report], tag: Tag, call: CallId, phase: u32) -> usize
    ensures { result ≡ count_by (tells_held tag call phase) reports.now }
{
    reports
        .iter()
        .filter(|report| tells_held(tag, call, phase, report))
        .count()
}

// Whether a member told this phase of a call a greatest finalized tag that is not greater than this one.
fn tells_no_greater(tag: Tag, call: CallId, phase: u32, report: &Report) -> bool
    ensures { result ≡ tells_no_greater tag call phase report.now }
{
    is_of(call, phase, report) && !tag.is_below(report.telling.greatest)
}

/// How many members told this phase of a call a greatest finalized tag that is not greater than this one.
pub(crate) fn count_no_greater(reports: &[Report], tag: Tag, call: CallId, phase: u32) -> usize
    ensures { result ≡ count_by (tells_no_greater tag call phase) reports.now }
{
    reports
        .iter()
        .filter(|report| tells_no_greater(tag, call, phase, report))
        .count()
}

/// The greatest tag that this phase of a call was told, or the opening tag if it was told none.
pub(crate) fn greatest_told(reports: &[Report], call: CallId, phase: u32) -> Tag
    ensures { result ≡ greatest_told call phase reports.now opening_tag }
{
    let mut greatest = Tag::OPENING;
    for report in reports {
        greatest = later_told(greatest, call, phase, report);
    }
    greatest
}

// The later of this tag and the one that a report tells, if it is one to this phase of a call.
fn later_told(greatest: Tag, call: CallId, phase: u32, report: &Report) -> Tag
    ensures { result ≡ later_told call phase greatest report.now }
{
    if is_of(call, phase, report) {
        greatest.later(report.telling.greatest)
    } else {
        greatest
    }
}
