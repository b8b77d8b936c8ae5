//! Entries from a reader.
ghost use Rattle.std.specs.Prelude.{◌≡◌, ◌++◌, ℕ, List, Some, length, MatchResult};
ghost use Rattle.std.specs.Io.KnownBytes.{prepend_known};
ghost use Rattle.frames.specs.Frame.{IsFrame, frame_bytes};
ghost use Rattle.node_log.specs.Entry.{IsHead, length_in, log_entry_bytes};
ghost use Rattle.node_log.specs.Reading.{ReadsEntry, ReadsThis};
ghost use Rattle.node_log.specs.Parts.{IsBodyOf, IsNoBodyFor, IsNoFrameFor, EndsOrIsDamaged};

use crate::chain::Chain;
use crate::entry::Entry;
use crate::error::{Damage, LogError};
use crate::head::{HEAD_LENGTH, has_digest, length_in, said_in};
use crate::input::{are_zeros, has_only_zeros, read_up_to};
use frames::{Frame, FrameError, read_frame, read_full};
use std::alloc::Global;
use std::io::Read;

/// The next entry behind a chain, or none where the log ends: before the entry's first byte, or within the entry. An
/// entry is cut short where its node stopped while it wrote it; nothing that depends on such an entry was sent. A file
/// system may leave zeros in place of the bytes that are missing.
///
/// `Damaged` says what is wrong with any other bytes. It takes no byte behind an entry that it returns. In each other
/// case the reader may have lost bytes.
pub fn read_entry<R: Read>(
    alloc: Global,
    reader: &mut R,
    chain: Chain,
) -> Result<Option<Entry>, LogError>
    // What is read stood at the front, and nothing else is taken; where nothing is read, which bytes stood there.
    ensures read { ReadsEntry chain.state (R.remaining reader.old) (R.remaining reader.new) result }
    // An entry that stands at the front is read, unless memory is refused or the reader fails.
    ensures only { (strings : List (List ℕ)) (rest : List ℕ) → IsFrame strings
        → R.remaining reader.old ≡ Some (log_entry_bytes chain.state strings ++ rest)
        → ReadsThis strings rest (R.remaining reader.new) result }
{
    read_next(alloc, reader, chain)
}

// Does what `read_entry` does, and promises its clause `read` alone. The clause `only` follows from that one.
fn read_next<R: Read>(
    alloc: Global,
    reader: &mut R,
    chain: Chain,
) -> Result<Option<Entry>, LogError>
    ensures { ReadsEntry chain.state (R.remaining reader.old) (R.remaining reader.new) result }
{
    let mut head = [0; HEAD_LENGTH];
    let count = read_full(reader, &mut head)?;
    if count < HEAD_LENGTH {
        return Ok(None);
    }
    match length_in(chain, &head) {
        Some(length) => read_body(alloc, reader, chain, &head, length),
        None => end_or_damage(reader, &head, Damage::WrongHead),
    }
}

// The entry whose head was read.
fn read_body<R: Read>(
    alloc: Global,
    reader: &mut R,
    chain: Chain,
    head: &[u8; HEAD_LENGTH],
    length: u64,
) -> Result<Option<Entry>, LogError>
    requires head { IsHead chain.state head.now }
    requires length { length ≡ length_in head.now }
    ensures { ReadsEntry chain.state (prepend_known head.now (R.remaining reader.old)) (R.remaining reader.new) result }
{
    let body = read_up_to(alloc, reader, length)?;
    if (body.len() as u64) < length {
        return Ok(None);
    }
    match entry_of(alloc, chain, head, &body) {
        Ok(entry) => Ok(Some(entry)),
        Err(LogError::Damaged(damage)) => end_or_damage(reader, &body, damage),
        Err(error) => Err(error),
    }
}

// The entry of a head and a whole body.
fn entry_of(
    alloc: Global,
    chain: Chain,
    head: &[u8; HEAD_LENGTH],
    body: &[u8],
) -> Result<Entry, LogError>
    requires head { IsHead chain.state head.now }
    requires length { length body.now ≡ length_in head.now }
    ensures { MatchResult result (IsBodyOf chain.state head.now body.now) (IsNoBodyFor head.now body.now) }
{
    if !has_digest(head, body) {
        return Err(LogError::Damaged(Damage::WrongDigest));
    }
    let frame = frame_of(alloc, body)?;
    Ok(Entry::of(said_in(head), frame))
}

// The frame that the bytes are, with nothing behind it.
fn frame_of(alloc: Global, body: &[u8]) -> Result<Frame, LogError>
    ensures { MatchResult result (λ frame. IsFrame frame × (body.now ≡ frame_bytes frame)) (IsNoFrameFor body.now) }
{
    let mut rest = body;
    match read_frame(alloc, &mut rest) {
        Ok(Some(frame)) => {
            if rest.is_empty() {
                Ok(frame)
            } else {
                Err(LogError::Damaged(Damage::NoFrame))
            }
        }
        Ok(None) => Err(LogError::Damaged(Damage::NoFrame)),
        Err(FrameError::Fault(_)) => Err(LogError::Damaged(Damage::NoFrame)),
        Err(FrameError::NoMemory) => Err(LogError::NoMemory),
        Err(FrameError::Failed(error)) => Err(LogError::Failed(error)),
    }
}

// Of bytes that are no entry, the last part of which was read: the end of the log, where the last byte of the part and
// all behind it are zeros, and damage otherwise.
fn end_or_damage<R: Read>(
    reader: &mut R,
    part: &[u8],
    damage: Damage,
) -> Result<Option<Entry>, LogError>
    ensures { EndsOrIsDamaged part.now damage (R.remaining reader.old) result }
{
    let last = part.len().saturating_sub(1);
    if !are_zeros(&part[last..]) {
        return Err(LogError::Damaged(damage));
    }
    if has_only_zeros(reader)? {
        Ok(None)
    } else {
        Err(LogError::Damaged(damage))
    }
}
