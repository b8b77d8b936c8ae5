//! Whole calls.
ghost use Rattle.std.specs.Prelude.{true};
ghost use Rattle.player.specs.WholeCalls.{Reads, WritesValue, Moves, Resumes, ContinuesCall};

use crate::cluster_commands::layout_id;
use crate::report::Report;
use bytes::Bytes;
use cluster::Cluster;
use driver::{First, finish};
use printing::Outcome;
use std::alloc::Global;
use tag::CallId;

/// Makes a whole read. A refusal after its first step names the call, which stays open.
pub fn read(alloc: Global, cluster: &mut Cluster, name: &str, turns: u64) -> Report
    ensures { Reads cluster.old name.entry.now turns cluster.new result }
{
    Report::of_whole(driver::read(alloc, cluster, name, &mut First, turns))
}

/// Makes a whole write. A refusal after its first step names the call, which stays open.
pub fn write(alloc: Global, cluster: &mut Cluster, name: &str, value: Bytes, turns: u64) -> Report
    ensures { WritesValue cluster.old name.entry.now value turns cluster.new result }
{
    Report::of_whole(driver::write(alloc, cluster, name, value, &mut First, turns))
}

/// Makes a whole move. A refusal after its first step names the call, which stays open.
pub fn move_to(alloc: Global, cluster: &mut Cluster, name: &str, layout: u64, turns: u64) -> Report
    ensures { Moves cluster.old name.entry.now layout turns cluster.new result }
{
    let id = layout_id(layout);
    Report::of_whole(driver::move_to(alloc, cluster, name, id, &mut First, turns))
}

/// Continues a call that is there.
pub fn resume(alloc: Global, cluster: &mut Cluster, name: &str, call: CallId, turns: u64) -> Report
    ensures { Resumes cluster.old name.entry.now call turns cluster.new result }
{
    match cluster.want(name, call) {
        Ok(_) => carried_on(alloc, cluster, name, call, turns),
        Err(refusal) => Report::refused(refusal),
    }
}

// Continues the call. Its first turn resends the requests that the call waits for, or restarts a call that lacks
// pieces.
fn carried_on(alloc: Global, cluster: &mut Cluster, name: &str, call: CallId, turns: u64) -> Report
    ensures { ContinuesCall name.entry.now call true turns cluster.old cluster.new result }
{
    match finish(alloc, cluster, name, call, true, &mut First, turns) {
        Ok(receipt) => Report::Answered(receipt),
        Err(refusal) => Report::Did(Outcome::CallRefused { call, refusal }),
    }
}
