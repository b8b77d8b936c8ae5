//! Appending to the log.
ghost use Rattle.std.specs.Prelude.{◌≡◌, ◌++◌, IsTrue, OnOk};
ghost use Rattle.std.specs.List.{concat};
ghost use Rattle.frames.specs.Writing.{Writes};
ghost use Rattle.node_log.specs.Entry.{chain_behind};
ghost use Rattle.node_store.specs.Recovery.{log_bytes};
ghost use Rattle.node_store.specs.Logs.{Grows, TellsFailure};

use crate::log::Log;
use bytes::Bytes;
use frames::Gathered;
use node_log::{Chain, Entry, push_entry};
use std::io;

/// Appends the bytes of entries to bytes that wait to be written to the log, and goes on with the chain behind them.
/// Fails only if memory is refused.
pub fn push_entries(bytes: &mut Gathered, chain: &mut Chain, entries: &[Entry]) -> io::Result<()>
    ensures bytes { OnOk result (bytes.new ≡ bytes.old ++ log_bytes chain.old.state entries.now) }
    ensures chain { OnOk result (chain.new.state ≡ chain_behind chain.old.state entries.now) }
{
    for entry in entries {
        push_entry(bytes, *chain, entry)?;
        chain.pass(entry);
    }
    Ok(())
}

/// Appends bytes to a log that is synced, and syncs it again. Does nothing if there are no bytes. If it fails, the log
/// keeps a front of the bytes, and is not to be synced again.
pub fn append_bytes<L: Log>(log: &mut L, bytes: &Gathered) -> io::Result<()>
    requires synced { L.kept log.old ≡ L.written log.old }
    requires sound { IsTrue (L.sound log.old) }
    ensures kept { Writes (L.kept log.old) (L.kept log.new) result bytes.now }
    ensures synced { OnOk result (L.kept log.new ≡ L.written log.new) }
    ensures sound { OnOk result (IsTrue (L.sound log.new)) }
    ensures failure { TellsFailure (L.failed log.old) (L.failed log.new) result }
{
    if bytes.is_empty() {
        return Ok(());
    }
    append_parts(log, bytes)?;
    log.sync()
}

/// Appends bytes to a log, part by part, from where each part lies. If it fails, a front of the bytes was appended.
pub(crate) fn append_parts<L: Log>(log: &mut L, bytes: &Gathered) -> io::Result<()>
    ensures written { Writes (L.written log.old) (L.written log.new) result bytes.now }
    ensures kept { Grows (L.kept log.old) (L.kept log.new) }
    ensures within { IsTrue (L.sound log.old) → Grows (L.kept log.old) (L.written log.old)
        → Grows (L.kept log.new) (L.written log.new) }
    ensures sound { L.sound log.new ≡ L.sound log.old }
    ensures failure { TellsFailure (L.failed log.old) (L.failed log.new) result }
{
    let (parts, last) = bytes.parts();
    append_each(log, parts)?;
    log.append(last)
}

// Appends these parts to a log, one after another.
fn append_each<L: Log>(log: &mut L, parts: &[Bytes]) -> io::Result<()>
    ensures written { Writes (L.written log.old) (L.written log.new) result (concat parts.now) }
    ensures kept { Grows (L.kept log.old) (L.kept log.new) }
    ensures within { IsTrue (L.sound log.old) → Grows (L.kept log.old) (L.written log.old)
        → Grows (L.kept log.new) (L.written log.new) }
    ensures sound { L.sound log.new ≡ L.sound log.old }
    ensures failure { TellsFailure (L.failed log.old) (L.failed log.new) result }
{
    for part in parts {
        log.append(part)?;
    }
    Ok(())
}
