//! The events of a history.
ghost use Rattle.std.specs.Prelude.{◌≡◌, IfOk, List, length};
ghost use Rattle.std.specs.List.{flat_map, zip};
ghost use Rattle.exports.specs.Event.{IsHistory, begin_event, end_event, ends_of};

use crate::clients::assign;
use bytes::Bytes;
use record::{Entry, Operation};
use std::alloc::{AllocError, Global};
use tag::{CallId, Stamp};

/// The process that makes a call, as a history names it. No process has two calls at once.
#[derive(Clone, Copy, Debug, PartialEq, Eq)]
pub enum Process {
    /// A client, which reads and writes. Clients are numbered from 0.
    Client(u64),
    /// The process that moves the object.
    Nemesis,
}

/// What an event says about its call.
#[derive(Clone, Copy, Debug, PartialEq, Eq)]
pub enum Stage {
    /// A read or a write begins.
    Invoke,
    /// A read or a write is answered.
    Complete,
    /// A read or a write stays open, or a move begins or ends.
    Info,
}

/// An event of a history: a call begins or ends.
#[derive(Debug, PartialEq, Eq, Drop)]
pub struct Event {
    /// The number of the step at which the call begins or ends.
    pub step: Stamp,
    /// The process that makes the call.
    pub process: Process,
    /// The call's number in its object, from 1.
    pub call: CallId,
    /// What the call does.
    pub kind: Operation,
    /// What the event says about the call.
    pub stage: Stage,
    /// The value that the call writes, or that an answered read returned; none if a read begins.
    pub value: Option<Bytes>,
}

/// Returns the two events of each entry, in the order of their steps. A call that is open ends at the step `end`.
pub fn events(alloc: Global, entries: &[Entry], end: Stamp) -> Result<Vec<Event>, AllocError>
    ensures { IfOk result (λ events. IsHistory entries.now end events.items) }
{
    let processes = assign(alloc, entries)?;
    let mut events = both_ends(alloc, entries, &processes, end)?;
    events.sort_by_key(|event| event.step)?;
    Ok(events)
}

// The two events of each entry, one entry after another.
fn both_ends(
    alloc: Global,
    entries: &[Entry],
    processes: &[Process],
    end: Stamp,
) -> Result<Vec<Event>, AllocError>
    requires { length processes.now ≡ length entries.now }
    ensures { IfOk result (λ events. events.items ≡ flat_map (ends_of end) (zip entries.now processes.now)) }
{
    let mut events = Vec::new(alloc);
    for (index, entry) in entries.iter().enumerate() {
        let process = processes[index];
        events.push(begin_event(entry, process)?)?;
        events.push(end_event(entry, process, end)?)?;
    }
    Ok(events)
}

fn begin_event(entry: &Entry, process: Process) -> Result<Event, AllocError>
    ensures { IfOk result (λ event. event ≡ begin_event entry.now process) }
{
    let stage = match entry.kind {
        Operation::Move => Stage::Info,
        _ => Stage::Invoke,
    };
    let value = match entry.kind {
        Operation::Read => None,
        _ => value_of(entry)?,
    };
    Ok(Event {
        step: entry.called,
        process,
        call: entry.call,
        kind: entry.kind,
        stage,
        value,
    })
}

fn end_event(entry: &Entry, process: Process, end: Stamp) -> Result<Event, AllocError>
    ensures { IfOk result (λ event. event ≡ end_event end entry.now process) }
{
    let stage = match (entry.kind, entry.answered) {
        (Operation::Move, _) | (_, None) => Stage::Info,
        _ => Stage::Complete,
    };
    Ok(Event {
        step: entry.answered.unwrap_or(end),
        process,
        call: entry.call,
        kind: entry.kind,
        stage,
        value: value_of(entry)?,
    })
}

fn value_of(entry: &Entry) -> Result<Option<Bytes>, AllocError>
    ensures { IfOk result (λ value. value ≡ entry.now.value) }
{
    match &entry.value {
        Some(value) => Ok(Some(value.clone()?)),
        None => Ok(None),
    }
}
