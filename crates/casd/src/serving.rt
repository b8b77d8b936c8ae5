//! The frames of the input, and the rewritings of the log between them.
ghost use Rattle.std.specs.Prelude.{◌≡◌, IsTrue, OnOk};
ghost use Rattle.std.specs.Io.Buffered.{reader_remaining};
ghost use Rattle.casd.specs.Fault.{TellsFailedLog, status_of};
ghost use Rattle.casd.specs.Program.{HasServed, HasServedOnce};

use crate::fault::Fault;
use crate::opening::write_anew;
use node::Node;
use node_store::{LogEnd, RewritableLog, ServeError, serve_frames};
use std::alloc::Global;
use std::io;
use std::io::{BufReader, ErrorKind, Read, Write};

/// Has the node handle the frames of the input, until it ends. Whenever the log has grown much, which ends there at
/// first, it is written anew, if that is worth it and the node may do so then.
pub fn serve<L: RewritableLog, I: Read + Drop, O: Write, E: Write>(
    alloc: Global,
    node: &mut Node,
    input: &mut BufReader<I>,
    output: &mut O,
    log: &mut L,
    end: LogEnd,
    err: &mut E,
) -> Result<(), Fault>
    requires synced { L.kept log.old ≡ L.written log.old }
    requires sound { IsTrue (L.sound log.old) }
    ensures serves { HasServed
        (record {
          length = end.length;
          chain = end.chain.state;
          machine = node.old;
          left = reader_remaining I.remaining input.old;
          kept = L.kept log.old;
          held = O.contents output.old;
        })
        node.new (reader_remaining I.remaining input.new) (L.kept log.new) (O.contents output.new) result }
    ensures failure { TellsFailedLog (L.failed log.old) (L.failed log.new) (status_of result) }
{
    let mut end = end;
    for _ in 0..u64::MAX {
        match serve_once(alloc, node, input, output, log, end, err) {
            Ok(Some(now)) => end = now,
            Ok(None) => return Ok(()),
            Err(fault) => return Err(fault),
        }
    }
    Err(Fault::Ended(ServeError::NoInput(io::Error::from(ErrorKind::TimedOut))))
}

// The same until the log has grown and perhaps was written anew. Returns where it ends then, or none if the input has
// ended.
fn serve_once<L: RewritableLog, I: Read + Drop, O: Write, E: Write>(
    alloc: Global,
    node: &mut Node,
    input: &mut BufReader<I>,
    output: &mut O,
    log: &mut L,
    end: LogEnd,
    err: &mut E,
) -> Result<Option<LogEnd>, Fault>
    requires synced { L.kept log.old ≡ L.written log.old }
    requires sound { IsTrue (L.sound log.old) }
    ensures serves { HasServedOnce
        (record {
          length = end.length;
          chain = end.chain.state;
          machine = node.old;
          left = reader_remaining I.remaining input.old;
          kept = L.kept log.old;
          held = O.contents output.old;
        })
        node.new (reader_remaining I.remaining input.new) (L.kept log.new) (O.contents output.new) result }
    ensures synced { OnOk result (L.kept log.new ≡ L.written log.new) }
    ensures sound { OnOk result (IsTrue (L.sound log.new)) }
    ensures failure { TellsFailedLog (L.failed log.old) (L.failed log.new) (status_of result) }
{
    match serve_frames(alloc, node, input, output, log, end, err) {
        Ok(Some(now)) => match write_anew(alloc, log, node, now, err) {
            Ok(then) => Ok(Some(then)),
            Err(fault) => Err(fault),
        },
        Ok(None) => Ok(None),
        Err(error) => Err(Fault::Ended(error)),
    }
}
