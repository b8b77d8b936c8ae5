//! Bytes of a reader: zeros at its end, and as many as a head says.
ghost use Rattle.std.specs.Prelude.{◌≡◌, ◌<◌, ◌≤◌, ◌==◌, ◌↔◌, IsTrue, IfOk, IfErr, length};
ghost use Rattle.std.specs.List.{list_all};
ghost use Rattle.std.specs.Io.KnownBytes.{Consumes, IsAtEnd};
ghost use Rattle.node_log.specs.Reading.{AreZerosFrom, HadLeft};
ghost use Rattle.node_log.specs.Parts.{IsUnread};

use crate::error::LogError;
use frames::{read_full, read_some};
use std::alloc::Global;
use std::cmp::min;
use std::io;
use std::io::{ErrorKind, Read};

// The size of the buffer in which bytes are looked at that are thrown away.
const ROOM: usize = 4096;

// Memory is asked for so many bytes more than have come, at most, and for as many again as have come.
const PART: u64 = 65_536;

/// Reads to the end, or up to a byte that is not zero. Whether all bytes are zeros.
pub(crate) fn has_only_zeros<R: Read>(reader: &mut R) -> io::Result<bool>
    ensures { IfOk result (λ only. HadLeft (λ bytes. IsTrue only ↔ AreZerosFrom 0 bytes) (R.remaining reader.old)) }
{
    let mut room = [0; ROOM];
    for _ in 0..u64::MAX {
        let count = read_some(reader, &mut room)?;
        if count == 0 {
            return Ok(true);
        }
        if !are_zeros(&room[..count]) {
            return Ok(false);
        }
    }
    Err(io::Error::from(ErrorKind::TimedOut))
}

/// Whether all bytes are zeros.
pub(crate) fn are_zeros(bytes: &[u8]) -> bool
    ensures { result ≡ list_all (λ byte. byte == 0) bytes.now }
{
    bytes.iter().all(|byte| *byte == 0)
}

/// Reads so many bytes, or all that are left if these are fewer. Memory is asked for as the bytes come, so a number
/// that is beyond the end of the reader costs none.
pub(crate) fn read_up_to<R: Read>(
    alloc: Global,
    reader: &mut R,
    most: u64,
) -> Result<Vec<u8>, LogError>
    ensures bytes { IfOk result (λ bytes. Consumes (R.remaining reader.old) (R.remaining reader.new) bytes.items) }
    ensures fits { IfOk result (λ bytes. length bytes.items ≤ most) }
    ensures end { IfOk result (λ bytes. length bytes.items < most → IsAtEnd (R.remaining reader.new)) }
    ensures fails { IfErr result IsUnread }
{
    let mut bytes = Vec::new(alloc);
    while (bytes.len() as u64) < most {
        let wanted = min(most - bytes.len() as u64, PART);
        let mut part = vec![in alloc; 0; wanted as usize]?;
        let count = read_full(reader, &mut part)?;
        bytes.extend_from_slice(&part[..count])?;
        if count < part.len() {
            return Ok(bytes);
        }
    }
    Ok(bytes)
}
