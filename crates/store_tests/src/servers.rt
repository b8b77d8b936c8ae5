//! The clusters of the tests: four servers, before a store is opened.

use cluster::Cluster;
use layout::Layout;
use std::alloc::Global;
use std::process::Abort;

/// Four servers with the object `a`, but if they are bare.
#[derive(Clone, Copy)]
pub(crate) enum Servers {
    Bare,
    /// The banks keep every piece.
    KeepAll,
    /// The banks keep so many finalized versions besides the newest.
    Collect { delta: u32 },
    /// There is a layout more, of three servers with k 1.
    TwoLayouts,
    /// Two servers in place of four, with a layout of each alone, and the object `b` before `a`.
    Single,
}

pub(crate) fn cluster_of(rt: &impl Abort, alloc: Global, servers: Servers) -> Cluster {
    match servers {
        Servers::Bare => Cluster::new(alloc, 4),
        Servers::KeepAll => four_servers(rt, alloc, None),
        Servers::Collect { delta } => four_servers(rt, alloc, Some(delta)),
        Servers::TwoLayouts => two_layouts(rt, alloc),
        Servers::Single => single_servers(rt, alloc),
    }
}

fn add_layout(rt: &impl Abort, cluster: &mut Cluster, k: u8, members: &[u8]) -> u32 {
    let layout = Layout::new(k, members).expect(rt, "a layout");
    cluster.add_layout(layout).expect(rt, "room for a layout")
}

/// Four servers, one layout of all with k 2, and the object `a`, whose banks keep `delta` finalized versions besides
/// the newest, or all: two steps.
pub(crate) fn four_servers(rt: &impl Abort, alloc: Global, delta: Option<u32>) -> Cluster {
    let mut cluster = Cluster::new(alloc, 4);
    let layout = add_layout(rt, &mut cluster, 2, &[0, 1, 2, 3]);
    let created = cluster.create_with("a", layout, delta);
    created.expect(rt, "an object");
    cluster
}

fn two_layouts(rt: &impl Abort, alloc: Global) -> Cluster {
    let mut cluster = four_servers(rt, alloc, None);
    add_layout(rt, &mut cluster, 1, &[1, 2, 3]);
    cluster
}

// Four steps.
fn single_servers(rt: &impl Abort, alloc: Global) -> Cluster {
    let mut cluster = Cluster::new(alloc, 2);
    let layout = add_layout(rt, &mut cluster, 1, &[0]);
    add_layout(rt, &mut cluster, 1, &[1]);
    cluster.create("b", layout).expect(rt, "an object");
    cluster.create("a", layout).expect(rt, "another object");
    cluster
}
