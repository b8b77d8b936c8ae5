//! The log at a node's start.
ghost use Rattle.std.specs.Prelude.{◌≡◌, length, IfOk, MatchResult};
ghost use Rattle.node_log.specs.Entry.{log_entry_bytes};
ghost use Rattle.node_store.specs.Recovery.{HasRecovered, HasReadNext, IsPast, IsRefusedAt};

use crate::end::LogEnd;
use crate::error::{StoreError, StoreFault};
use node_effects::Machine;
use node_log::{Chain, Entry, LogError, read_entry, write_entry};
use std::alloc::Global;
use std::io;
use std::io::Read;

/// Has the machine carry out each entry of the log again, one after another, and returns where the last one ends.
///
/// Behind that the log ends, or it has an entry that is cut short, maybe with zeros after the cut: the process or the
/// computer stopped while that entry was written, and nothing that depends on it was sent. The caller cuts the file
/// there.
///
/// Fails if any other bytes follow, which are damage, if memory is refused, if reading fails, or if the machine
/// cannot carry out an entry. The error says at which byte. An entry that is not in its place is damage.
pub fn recover_machine<R: Read, M: Machine>(
    alloc: Global,
    reader: &mut R,
    machine: &mut M,
) -> Result<LogEnd, StoreError>
    ensures { HasRecovered M.carries_out machine.old machine.new (R.remaining reader.old) result }
{
    let mut at = LogEnd::new();
    while let Some(end) = read_next(alloc, reader, machine, at)? {
        at = end;
    }
    Ok(at)
}

// Has the machine carry out the entry that begins there, and returns where it ends. None where the log ends.
fn read_next<R: Read, M: Machine>(
    alloc: Global,
    reader: &mut R,
    machine: &mut M,
    at: LogEnd,
) -> Result<Option<LogEnd>, StoreError>
    ensures { HasReadNext M.carries_out at machine.old machine.new (R.remaining reader.old)
        (R.remaining reader.new) result }
{
    match read_entry(alloc, reader, at.chain) {
        Ok(Some(entry)) => match carry_out(alloc, machine, entry, at) {
            Ok(end) => Ok(Some(end)),
            Err(fault) => Err(StoreError {
                at: at.length,
                fault,
            }),
        },
        Ok(None) => Ok(None),
        Err(LogError::Damaged(damage)) => Err(StoreError {
            at: at.length,
            fault: StoreFault::Damaged(damage),
        }),
        Err(LogError::NoMemory) => Err(StoreError {
            at: at.length,
            fault: StoreFault::NoMemory,
        }),
        Err(LogError::Failed(error)) => Err(StoreError {
            at: at.length,
            fault: StoreFault::Failed(error),
        }),
    }
}

// Has the machine carry out an entry that begins there, and returns where it ends.
fn carry_out<M: Machine>(
    alloc: Global,
    machine: &mut M,
    entry: Entry,
    at: LogEnd,
) -> Result<LogEnd, StoreFault>
    ensures { MatchResult result
        (λ end. M.carries_out machine.old entry machine.new × IsPast at entry end)
        (λ fault. IsRefusedAt at entry fault) }
{
    let end = end_of(alloc, &entry, at)?;
    match machine.recover(entry) {
        Ok(()) => Ok(end),
        Err(error) => Err(StoreFault::NotCarriedOut(error)),
    }
}

// Where an entry ends that begins there.
fn end_of(alloc: Global, entry: &Entry, at: LogEnd) -> Result<LogEnd, StoreFault>
    ensures { MatchResult result (IsPast at entry.now) (IsRefusedAt at entry.now) }
{
    let Ok(length) = entry_length(alloc, at.chain, entry) else {
        return Err(StoreFault::NoMemory);
    };
    let Some(length) = at.length.checked_add(length as u64) else {
        return Err(StoreFault::TooLong);
    };
    let mut chain = at.chain;
    chain.pass(entry);
    Ok(LogEnd { length, chain })
}

// The number of bytes of an entry in a log. It writes the entry to memory, and fails only where that is refused.
fn entry_length(alloc: Global, chain: Chain, entry: &Entry) -> io::Result<usize>
    ensures { IfOk result (λ len. len ≡ length (log_entry_bytes chain.state entry.now)) }
{
    let mut bytes = Vec::new(alloc);
    write_entry(&mut bytes, chain, entry)?;
    Ok(bytes.len())
}
