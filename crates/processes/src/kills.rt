//! What a node program leaves that is killed.
//!
//! These laws run the code of which they speak, over a log and an output that stop after any numbers of calls. A
//! program that is killed just before some call to its log or its output leaves what it leaves over a log and an output
//! that stop after the calls before: it makes the same calls until then, because it is generic over both, and nothing
//! changes afterwards.
ghost use Rattle.std.specs.Prelude.{◌≡◌, IsTrue};
ghost use Rattle.std.specs.Io.Buffered.{reader_remaining};
ghost use Rattle.processes.specs.Kills.{LeavesEvents};

use node::Node;
use node_store::{Log, LogEnd, ServeError, StoppingLog, StoppingWriter, serve_frames};
use std::alloc::Global;
use std::io::{BufReader, Read, Write};

/// A law: a program that is killed in a round of its loop, at any call to its log or its output, is a process that
/// stops. The output has a front of the bytes that the process writes, and what the log keeps is what a stop may leave.
pub fn killed_rounds_are_events<I: Read + Drop, O: Write, L: Log, E: Write>(
    alloc: Global,
    node: &mut Node,
    input: &mut BufReader<I>,
    output: &mut StoppingWriter<O>,
    log: &mut StoppingLog<L>,
    end: LogEnd,
    err: &mut E,
) -> Result<Option<LogEnd>, ServeError>
    requires synced { L.kept log.old.log ≡ L.written log.old.log }
    requires sound { IsTrue (L.sound log.old.log) }
    ensures { LeavesEvents
        (record {
          length = end.length;
          chain = end.chain.state;
          machine = node.old;
          left = reader_remaining I.remaining input.old;
          kept = L.kept log.old.log;
          held = O.contents output.old.writer;
        })
        node.new (reader_remaining I.remaining input.new) (L.kept log.new.log) (O.contents output.new.writer) result }
{
    serve_frames(alloc, node, input, output, log, end, err)
}
