//! What the program leaves, also if it is killed, as events of its process.
//!
//! The laws of killed programs run the code of the program, over a log and an output that stop after any numbers of
//! calls, as `killed_rounds_are_events` of `processes` runs its loop. A program that is killed just before some call to
//! its log or its output leaves what it leaves over a log and an output that stop after the calls before.
ghost use Rattle.std.specs.Prelude.{◌≡◌, IsTrue};
ghost use Rattle.casd.specs.Kills.{LeavesRewriting, LeavesRun, LeavesStart, RunsAreEvents};

use crate::fault::Fault;
use crate::opening::{start_with, write_anew};
use crate::program::start_and_serve;
use node::Node;
use node_store::{LogEnd, RewritableLog, StoppingLog, StoppingWriter, StoredLog};
use processes::{
    rewrites_are_events, sessions_are_events, starts_are_events, stopped_sessions_are_events,
    stopped_starts_are_events, unexchanged_sessions_are_events,
};
use std::alloc::Global;
use std::io::{Read, Write};

/// A law: a program that is killed in its start, at any call to its log, is a process that stops: before it starts, or
/// after. It has written nothing, and what the log keeps is what a stop may leave.
pub fn killed_starts_are_events<L: StoredLog, E: Write>(
    alloc: Global,
    log: &mut StoppingLog<L>,
    node: &mut Node,
    err: &mut E,
) -> Result<LogEnd, Fault>
    requires { IsTrue (L.sound log.old.log) }
    ensures { LeavesStart node.old (L.written log.old.log) (L.kept log.old.log) node.new (L.kept log.new.log) result }
{
    starts_are_events();
    stopped_starts_are_events();
    start_with(alloc, log, node, err)
}

/// A law: a program that is killed while it writes its log anew, at any call to its log, is a process that stops: its
/// log is exchanged or not.
pub fn killed_rewritings_are_events<L: RewritableLog, E: Write>(
    alloc: Global,
    log: &mut StoppingLog<L>,
    node: &Node,
    end: LogEnd,
    err: &mut E,
) -> Result<LogEnd, Fault>
    requires synced { L.kept log.old.log ≡ L.written log.old.log }
    requires sound { IsTrue (L.sound log.old.log) }
    ensures { LeavesRewriting node.now end.chain.state (L.kept log.old.log) (L.kept log.new.log) result }
{
    rewrites_are_events();
    write_anew(alloc, log, node, end, err)
}

/// A law: a program that is killed at any call to its log or its output, from its start on, is a process that stops.
/// The output has a front of the bytes that the process writes, and what the log keeps is what a stop may leave.
pub fn killed_runs_are_events<L: StoredLog, I: Read + Drop, O: Write, E: Write>(
    alloc: Global,
    node: &mut Node,
    log: &mut StoppingLog<L>,
    input: I,
    output: &mut StoppingWriter<O>,
    err: &mut E,
) -> Result<(), Fault>
    requires { IsTrue (L.sound log.old.log) }
    ensures { LeavesRun node.old (L.written log.old.log) (L.kept log.old.log) (I.remaining input)
        (O.contents output.old.writer) node.new (L.kept log.new.log) (O.contents output.new.writer) result }
{
    starts_are_events();
    stopped_starts_are_events();
    sessions_are_events();
    stopped_sessions_are_events();
    unexchanged_sessions_are_events();
    start_and_serve(alloc, node, log, input, output, err)
}

/// A law: what the clause of `run_words` says of a run is a list of events of the process.
pub fn runs_are_events()
    ensures { RunsAreEvents }
{
    starts_are_events();
    stopped_starts_are_events();
    sessions_are_events();
    stopped_sessions_are_events();
    unexchanged_sessions_are_events();
}
