//! Which process makes which call.
ghost use Rattle.std.specs.Prelude.{◌≡◌, ◌<◌, Some, IfNone, IfOk, IfSome, length, slice_get};
ghost use Rattle.exports.specs.Clients.{AreBusy, AreProcesses, TakesClient, TakesProcess, later};

use crate::event::Process;
use record::{Entry, Operation};
use std::alloc::{AllocError, Global};
use tag::Stamp;

/// Returns a process for each entry: a read or a write gets the first client that has no open call, and a move gets the
/// nemesis.
pub(crate) fn assign(alloc: Global, entries: &[Entry]) -> Result<Vec<Process>, AllocError>
    ensures { IfOk result (λ processes. AreProcesses entries.now processes.items) }
{
    // For each client the step by which all its calls are answered, or none where one is open.
    let mut clients = Vec::new(alloc);
    let mut processes = Vec::new(alloc);
    for entry in entries {
        let process = process_of(&mut clients, entry)?;
        processes.push(process)?;
    }
    Ok(processes)
}

fn process_of(clients: &mut Vec<Option<Stamp>>, entry: &Entry) -> Result<Process, AllocError>
    ensures { IfOk result (λ process. TakesProcess clients.old.items entry.now clients.new.items process) }
{
    match entry.kind {
        Operation::Move => Ok(Process::Nemesis),
        _ => Ok(Process::Client(take_client(clients, entry)?)),
    }
}

fn take_client(clients: &mut Vec<Option<Stamp>>, entry: &Entry) -> Result<u64, AllocError>
    ensures { IfOk result (λ client. TakesClient clients.old.items entry.now clients.new.items client) }
{
    match first_free(clients, entry.called) {
        Some((client, since)) => {
            clients[client] = later(since, entry.answered);
            Ok(client as u64)
        }
        None => {
            let client = clients.len() as u64;
            clients.push(entry.answered)?;
            Ok(client)
        }
    }
}

// The first client whose calls are all answered before a step, and the step by which they are answered.
fn first_free(clients: &[Option<Stamp>], called: Stamp) -> Option<(usize, Stamp)>
    ensures free { IfSome result (λ free. (slice_get clients.now free.0 ≡ Some (Some free.1)) × (free.1 < called)) }
    ensures first { IfSome result (λ free. AreBusy called clients.now free.0) }
    ensures none { IfNone result (AreBusy called clients.now (length clients.now)) }
{
    for (client, last) in clients.iter().enumerate() {
        if let Some(since) = *last
            && since < called
        {
            return Some((client, since));
        }
    }
    None
}

fn later(since: Stamp, answered: Option<Stamp>) -> Option<Stamp>
    ensures { result ≡ later since answered }
{
    match answered {
        Some(answered) => Some(answered.max(since)),
        None => None,
    }
}
