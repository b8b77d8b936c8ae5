//! A run of three processes: a write, a stop and a start again, and a read.
ghost use Rattle.std.specs.Prelude.{IfOk};
ghost use Rattle.example_runs.specs.Reached.{IsReached};

use crate::error::RunError;
use crate::process_run::ProcessRun;
use bytes::Bytes;
use std::alloc::Global;

// The cluster file: each object is on all three nodes, any two of which are a quorum.
const TEXT: &[u8] = b"nodes 0 1 2\nn 3\nk 1\ndelta 1\nmover 1\nlater\nticks 2\n";

/// Example: three processes start with empty logs. A client of node 1 writes a value, and the network carries all
/// frames until none is left. Process 1 stops, and starts again from its log. A client of node 2 reads the value, and
/// the network carries all frames again. Whatever the nodes do, this is a run of processes.
///
/// Fails only if memory is refused, or if a node fails.
pub fn three_nodes_write_and_read(alloc: Global) -> Result<ProcessRun, RunError>
    ensures { IfOk result IsReached }
{
    let mut run = ProcessRun::new(alloc, Bytes::from_static(TEXT), 3)?;
    run.start(0)?;
    run.start(1)?;
    run.start(2)?;
    let write = [
        Bytes::from_static(b"SET"),
        Bytes::from_static(b"photo"),
        Bytes::from_static(b"hello"),
    ];
    run.ask(1, 7, &write)?;
    let place = run.carry_all(0)?;
    run.stop(1)?;
    run.start(1)?;
    let read = [Bytes::from_static(b"GET"), Bytes::from_static(b"photo")];
    run.ask(2, 8, &read)?;
    run.carry_all(place)?;
    Ok(run)
}
