//! What the program writes about an object.
ghost use Rattle.std.specs.Prelude.{◌≡◌, ℕ, List, Some, IfErr, OnOk, MatchResult};
ghost use Rattle.std.specs.Io.KnownBytes.{Appends};
ghost use Rattle.record.specs.Journals.{entries};
ghost use Rattle.exports.specs.Event.{IsHistory};
ghost use Rattle.trace.specs.Shown.{IsLoss, ShowsObject, IsWant, Shows, behind};

use crate::cost_lines::CostLines;
use crate::fault::Fault;
use crate::play::Played;
use crate::request::{Form, Request};
use crate::viewed::Viewed;
use exports::{EdnLines, Event, JsonLines, Loss, Picture, Plan, events};
use history::sequence;
use record::Entry;
use register::Register;
use std::alloc::Global;
use std::fmt::Display;
use std::io::Write;
use tag::Refusal;

/// Writes the requested object in the requested form and flushes it. Fails with `NoObject` if no object has the name.
/// With any other error memory is refused or the output is lost, and part of the text may have been written.
pub fn show<O: Write>(
    alloc: Global,
    played: &Played,
    request: Request<'_>,
    out: &mut O,
) -> Result<(), Fault>
    ensures { Shows request.entry.form played.now.cluster request.entry.name.now (O.contents out.old)
        (O.contents out.new) result }
{
    let Some(cluster) = &played.cluster else {
        return Err(Fault::Refused(Refusal::NoObject));
    };
    match cluster.register(request.name) {
        Ok(register) => show_object(alloc, register, &played.losses, request, out),
        Err(refusal) => Err(Fault::Refused(refusal)),
    }
}

fn show_object<O: Write>(
    alloc: Global,
    register: &Register,
    losses: &[Loss],
    request: Request<'_>,
    out: &mut O,
) -> Result<(), Fault>
    ensures { MatchResult result
        (λ _. ShowsObject request.entry.form register.now (O.contents out.old) (O.contents out.new)) IsLoss }
{
    match request.form {
        Form::Edn => show_edn(alloc, register, out),
        Form::Json => show_json(alloc, register, out),
        Form::Costs => show_costs(register, out),
        Form::Picture => show_picture(alloc, register, losses, request.name, out),
    }
}

fn show_edn<O: Write>(alloc: Global, register: &Register, out: &mut O) -> Result<(), Fault>
    ensures { MatchResult result
        (λ _. ShowsObject Form.Edn register.now (O.contents out.old) (O.contents out.new)) IsLoss }
{
    let events = history_of(alloc, register)?;
    print(out, EdnLines(&events))
}

fn show_json<O: Write>(alloc: Global, register: &Register, out: &mut O) -> Result<(), Fault>
    ensures { MatchResult result
        (λ _. ShowsObject Form.Json register.now (O.contents out.old) (O.contents out.new)) IsLoss }
{
    let events = history_of(alloc, register)?;
    print(out, JsonLines(&events))
}

// The events of the object's calls. Calls that are still open end at the step after the last one.
fn history_of(alloc: Global, register: &Register) -> Result<Vec<Event>, Fault>
    ensures { MatchResult result
        (λ events. IsHistory (entries register.now.object) (behind register.now) events.items) IsWant }
{
    let entries = match register.entries() {
        Ok(entries) => entries,
        Err(refusal) => return Err(Fault::Refused(refusal)),
    };
    match events(alloc, &entries, register.last().saturating_add(1)) {
        Ok(events) => Ok(events),
        Err(_) => Err(Fault::Refused(Refusal::NoMemory)),
    }
}

fn show_costs<O: Write>(register: &Register, out: &mut O) -> Result<(), Fault>
    ensures { MatchResult result
        (λ _. ShowsObject Form.Costs register.now (O.contents out.old) (O.contents out.new)) IsLoss }
{
    match register.entries() {
        Ok(entries) => {
            let entries: &[Entry] = &entries;
            print(out, CostLines { register, entries })
        }
        Err(refusal) => Err(Fault::Refused(refusal)),
    }
}

fn show_picture<O: Write>(
    alloc: Global,
    register: &Register,
    losses: &[Loss],
    name: &str,
    out: &mut O,
) -> Result<(), Fault>
    ensures { IfErr result IsLoss }
{
    let entries = match register.entries() {
        Ok(entries) => entries,
        Err(refusal) => return Err(Fault::Refused(refusal)),
    };
    let order = match sequence(alloc, register) {
        Ok(order) => order,
        Err(refusal) => return Err(Fault::Refused(refusal)),
    };
    draw(alloc, register, &entries, &order, losses, name, out)
}

fn draw<'a, O: Write>(
    alloc: Global,
    register: &'a Register,
    entries: &'a [Entry],
    order: &'a [u64],
    losses: &'a [Loss],
    name: &'a str,
    out: &mut O,
) -> Result<(), Fault>
    ensures { IfErr result IsLoss }
{
    let object = Viewed(register);
    let Ok(plan) = Plan::new(alloc, &object, entries) else {
        return Err(Fault::Refused(Refusal::NoMemory));
    };
    let picture = Picture {
        name,
        plan: &plan,
        object: &object,
        order,
        losses,
    };
    print(out, picture)
}

fn print<W: Write, D: Display + Drop>(out: &mut W, lines: D) -> Result<(), Fault>
    ensures shown { (text : List ℕ) → D.output lines ≡ Some text
        → OnOk result (Appends (W.contents out.old) (W.contents out.new) text) }
    ensures lost { IfErr result IsLoss }
{
    match out.write_fmt(lines) {
        Ok(()) => match out.flush() {
            Ok(()) => Ok(()),
            Err(error) => Err(Fault::from_output(error)),
        },
        Err(error) => Err(Fault::from_output(error)),
    }
}
