//! How many members fall on each node.
use cluster_file::ClusterNodes;

const NAMES: u32 = 2_000;

// The numbers of members on nodes 0 to 19, as `bench/placement 20 2000` computes them with Python's `hashlib`.
const MEMBERS: [u32; 20] = [
    400, 416, 390, 385, 423, 416, 408, 387, 426, 410, 389, 417, 413, 407, 393, 391, 384, 378, 372,
    395,
];

// Counts the members of a name's layout.
fn count(nodes: &ClusterNodes, name: &[u8], counts: &mut [u32; 256]) {
    let layout = nodes.place(name);
    for i in 0..layout.n() {
        let server = usize::from(layout.member(i));
        counts[server] = counts[server].wrapping_add(1);
    }
}

#[test]
fn spreads_members_over_nodes(rt: HostRuntime) {
    let numbers = [
        0, 1, 2, 3, 4, 5, 6, 7, 8, 9, 10, 11, 12, 13, 14, 15, 16, 17, 18, 19,
    ];
    let nodes = ClusterNodes::new(2, 4, &numbers).expect(&rt, "twenty nodes");
    let mut counts = [0; 256];
    for name in 0..NAMES {
        count(&nodes, &name.to_be_bytes(), &mut counts);
    }
    assert!(rt; counts[..20] == MEMBERS[..]);
}
