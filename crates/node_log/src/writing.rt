//! Entries to a writer, and to bytes that wait to be written.
ghost use Rattle.std.specs.Prelude.{◌≡◌, ◌++◌, OnOk};
ghost use Rattle.frames.specs.Writing.{Writes};
ghost use Rattle.node_log.specs.Entry.{log_entry_bytes};

use crate::chain::Chain;
use crate::entry::Entry;
use crate::head::head_behind;
use frames::{Gathered, push_frame, write_bytes, write_frame};
use std::io;
use std::io::Write;

/// Writes an entry behind a chain. It does not flush. If it fails, it wrote only the first of the entry's bytes, which
/// `read_entry` takes for the end of the log.
pub fn write_entry<W: Write>(writer: &mut W, chain: Chain, entry: &Entry) -> io::Result<()>
    ensures { Writes (W.contents writer.old) (W.contents writer.new) result
        (log_entry_bytes chain.state entry.now) }
{
    write_bytes(writer, &head_behind(chain, entry.says()))?;
    write_frame(writer, entry.frame())
}

/// Adds the bytes of an entry behind a chain to bytes that wait to be written. The long strings are shared. Fails only
/// if memory is refused, or if there were more than 2^64 - 1 bytes.
pub fn push_entry(bytes: &mut Gathered, chain: Chain, entry: &Entry) -> io::Result<()>
    ensures { OnOk result (bytes.new ≡ bytes.old ++ log_entry_bytes chain.state entry.now) }
{
    write_bytes(bytes, &head_behind(chain, entry.says()))?;
    push_frame(bytes, entry.frame())
}
