//! Writing a log anew.
ghost use Rattle.std.specs.Prelude.{◌≡◌, ◌↔◌, ◌+◌, ◌*◌, ◌≤◌, [], IsTrue, OnOk, IfOk, length};
ghost use Rattle.std.specs.Io.KnownBytes.{Appends};
ghost use Rattle.node_log.specs.Entry.{first_chain};
ghost use Rattle.node_store.specs.Logs.{TellsExchange};
ghost use Rattle.node_store.specs.Recovery.{log_bytes};
ghost use Rattle.node_store.specs.Rewriting.{HasGrown, HasRewritten, IsBeside, IsEndOf};

use crate::end::LogEnd;
use crate::log::Log;
use crate::second::RewritableLog;
use crate::writing::append_parts;
use frames::Gathered;
use node_log::{Chain, Entry, push_entry};
use std::alloc::Global;
use std::io;
use std::io::ErrorKind;

// So many bytes wait at most before they are written to the second log, but for those of one entry.
const PART_BYTES: usize = 1_048_576;

// A log is not written anew for fewer bytes than these.
const SPARED_BYTES: u64 = 16_777_216;

/// What came of writing a log anew, where the log can still be used.
#[derive(Debug, Drop)]
pub enum Rewriting {
    /// The log has the new entries, and ends there.
    Done(LogEnd),
    /// The log is as it was, because the second one could not be written.
    GivenUp(io::Error),
}

/// Whether it is worth writing a log of `length` bytes anew, of which about `needed` would be left: whether it has at
/// least twice as many bytes, and 16 MiB more.
pub fn is_worth_rewriting(length: u64, needed: u64) -> bool
    ensures { IsTrue result ↔ (2 * needed + 16_777_216 ≤ length) }
{
    length >= SPARED_BYTES && (length - SPARED_BYTES) / 2 >= needed
}

/// Whether a log that had `before` bytes, and has `now` bytes, has grown so much that it is time to ask whether it is
/// worth writing anew: whether it has at least twice as many bytes, and at least 16 MiB more.
///
/// So a machine that is asked only then is asked rarely.
pub fn has_grown(before: u64, now: u64) -> bool
    ensures { IsTrue result ↔ HasGrown before now }
{
    now >= SPARED_BYTES && now - SPARED_BYTES >= before && now / 2 >= before
}

/// Writes a log anew, so that it has these entries and no others. It writes them to a second log, whose chain begins
/// anew, and syncs that, and puts the second log in the place of the log.
///
/// If the second log cannot be written, the log stays as it was, and the result is `GivenUp`. If a later step fails,
/// the log may keep what it had, or the new entries, and nothing may be appended to it.
pub fn rewrite_log<L: RewritableLog>(
    alloc: Global,
    log: &mut L,
    entries: &[Entry],
) -> io::Result<Rewriting>
    requires synced { L.kept log.old ≡ L.written log.old }
    requires sound { IsTrue (L.sound log.old) }
    ensures kept { HasRewritten (L.kept log.old) (L.kept log.new) entries.now result }
    ensures synced { OnOk result (L.kept log.new ≡ L.written log.new) }
    ensures sound { OnOk result (IsTrue (L.sound log.new)) }
    ensures failure { TellsExchange (L.failed log.old) (L.failed log.new) result }
{
    match write_second(alloc, log, entries) {
        Ok((second, end)) => {
            log.put_second(second)?;
            Ok(Rewriting::Done(end))
        }
        Err(error) => Ok(Rewriting::GivenUp(error)),
    }
}

// Writes entries to a second log, which is then synced, and returns where it ends. Where this fails, the second log is
// removed. The log stays as it is.
fn write_second<L: RewritableLog>(
    alloc: Global,
    log: &mut L,
    entries: &[Entry],
) -> io::Result<(L::Second, LogEnd)>
    ensures written { L.written log.new ≡ L.written log.old }
    ensures kept { L.kept log.new ≡ L.kept log.old }
    ensures second { IfOk result (λ done.
        IsBeside (L.written log.old) (L.Second.written done.0) (log_bytes first_chain entries.now)) }

    ensures synced { IfOk result (λ done. L.Second.kept done.0 ≡ L.Second.written done.0) }
    ensures fresh { IfOk result (λ done. IsTrue (L.Second.sound done.0)) }
    ensures unfailed { IfOk result (λ done. IsTrue (L.Second.failed done.0) → IsTrue (L.failed log.old)) }
    ensures end { IfOk result (λ done. IsEndOf entries.now done.1) }
    ensures sound { L.sound log.new ≡ L.sound log.old }
    ensures failure { L.failed log.new ≡ L.failed log.old }
{
    let mut second = log.begin_second()?;
    match write_entries(alloc, &mut second, entries) {
        Ok(end) => Ok((second, end)),
        Err(error) => {
            let _ = log.remove_second();
            Err(error)
        }
    }
}

// Appends entries to a log that has none, in parts, and syncs it. Returns where it ends.
fn write_entries<L: Log>(alloc: Global, log: &mut L, entries: &[Entry]) -> io::Result<LogEnd>
    requires { IsTrue (L.sound log.old) }
    ensures written { OnOk result (Appends (L.written log.old) (L.written log.new)
        (log_bytes first_chain entries.now)) }
    ensures synced { OnOk result (L.kept log.new ≡ L.written log.new) }
    ensures sound { OnOk result (IsTrue (L.sound log.new)) }
    ensures failure { OnOk result (L.failed log.new ≡ L.failed log.old) }
    ensures end { IfOk result (IsEndOf entries.now) }
{
    let mut part = Gathered::new(alloc);
    let mut length = 0u64;
    let mut chain = Chain::new();
    for entry in entries {
        push_entry(&mut part, chain, entry)?;
        chain.pass(entry);
        if part.len() >= PART_BYTES {
            length = write_part(log, &mut part, length)?;
        }
    }
    length = write_part(log, &mut part, length)?;
    log.sync()?;
    Ok(LogEnd { length, chain })
}

// Appends these bytes to a log, and drops them. `before` is the number of bytes that were written before them, and the
// result is the number of bytes that are written then.
fn write_part<L: Log>(log: &mut L, part: &mut Gathered, before: u64) -> io::Result<u64>
    ensures written { OnOk result (Appends (L.written log.old) (L.written log.new) part.old) }
    ensures sound { OnOk result (L.sound log.new ≡ L.sound log.old) }
    ensures failure { OnOk result (L.failed log.new ≡ L.failed log.old) }
    ensures empty { OnOk result (part.new ≡ []) }
    ensures length { IfOk result (λ end. end ≡ before + length part.old) }
{
    let Some(end) = before.checked_add(part.len() as u64) else {
        return Err(io::Error::from(ErrorKind::FileTooLarge));
    };
    append_parts(log, part)?;
    part.clear();
    Ok(end)
}
