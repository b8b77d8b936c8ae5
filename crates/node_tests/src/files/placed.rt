//! Layouts of names, computed by Python's `hashlib`, and the nodes that are refused.
use cluster_file::ClusterNodes;
use layout::Layout;
use std::process::Abort;
use tag::Refusal;

struct Row {
    story: &'static str,
    k: u8,
    n: u8,
    nodes: &'static [u8],
    name: &'static [u8],
    members: &'static [u8],
}

static ROWS: [Row; 10] = [
    Row {
        story: "a name of text",
        k: 2,
        n: 4,
        nodes: &[0, 1, 2, 3, 4, 5],
        name: b"photo",
        members: &[3, 5, 2, 0],
    },
    Row {
        story: "another name",
        k: 2,
        n: 4,
        nodes: &[0, 1, 2, 3, 4, 5],
        name: b"photos",
        members: &[3, 5, 0, 1],
    },
    Row {
        story: "the empty name",
        k: 4,
        n: 4,
        nodes: &[0, 1, 2, 3, 4, 5],
        name: b"",
        members: &[5, 4, 2, 0],
    },
    Row {
        story: "a name that is no text",
        k: 2,
        n: 4,
        nodes: &[0, 1, 2, 3, 4, 5],
        name: b"\xff\x00\x80\n",
        members: &[1, 4, 5, 2],
    },
    Row {
        story: "a name that is longer than a block of the hash",
        k: 2,
        n: 4,
        nodes: &[0, 1, 2, 3, 4, 5],
        name: b"a name that is longer than the sixty-four bytes of one block of the hash",
        members: &[3, 1, 4, 2],
    },
    Row {
        story: "one member",
        k: 1,
        n: 1,
        nodes: &[0, 1, 2, 3, 4, 5],
        name: b"photo",
        members: &[3],
    },
    Row {
        story: "all nodes are members, and are listed backwards",
        k: 1,
        n: 6,
        nodes: &[5, 4, 3, 2, 1, 0],
        name: b"photo",
        members: &[3, 5, 2, 0, 1, 4],
    },
    Row {
        story: "two nodes that are no members have left",
        k: 2,
        n: 4,
        nodes: &[0, 2, 3, 5],
        name: b"photo",
        members: &[3, 5, 2, 0],
    },
    Row {
        story: "a member has left",
        k: 2,
        n: 4,
        nodes: &[0, 1, 2, 4, 5],
        name: b"photo",
        members: &[5, 2, 0, 1],
    },
    Row {
        story: "nodes with great numbers",
        k: 3,
        n: 3,
        nodes: &[255, 254, 128, 7, 0],
        name: b"photo",
        members: &[255, 7, 128],
    },
];

fn assert_placed(rt: &impl Abort, row: &Row) {
    let nodes = ClusterNodes::new(row.k, row.n, row.nodes).expect(rt, row.story);
    let expected = Layout::new(row.k, row.members).expect(rt, row.story);
    assert!(rt; nodes.place(row.name) == expected, "{}", row.story);
}

#[test]
fn places_names(rt: HostRuntime) {
    for row in &ROWS {
        assert_placed(&rt, row);
    }
}

// The numbers from 1, as many as a layout may have and one more.
fn numbers() -> [u8; 256] {
    let mut numbers = [0; 256];
    let mut number = 0u8;
    for place in numbers.iter_mut() {
        number = number.wrapping_add(1);
        *place = number;
    }
    numbers
}

fn has_ends(layout: &Layout) -> bool {
    layout.k() == 100 && layout.n() == 255 && layout.member(0) == 137 && layout.member(254) == 126
}

#[test]
fn places_a_name_on_all_of_255_nodes(rt: HostRuntime) {
    let numbers = numbers();
    let most = numbers.get(..255).expect(&rt, "as many numbers");
    let nodes = ClusterNodes::new(100, 255, most).expect(&rt, "as many nodes as there may be");
    assert!(rt; has_ends(&nodes.place(b"photo")));
}

fn assert_refuses(rt: &impl Abort, story: &str, k: u8, n: u8, nodes: &[u8]) {
    let refusal = ClusterNodes::new(k, n, nodes).err();
    assert!(rt; refusal == Some(Refusal::BadLayout), "{story}");
}

#[test]
fn refuses_unlawful_nodes(rt: HostRuntime) {
    assert_refuses(&rt, "a k of zero", 0, 2, &[0, 1, 2]);
    assert_refuses(&rt, "a k above n", 3, 2, &[0, 1, 2]);
    assert_refuses(&rt, "an n above the number of nodes", 2, 4, &[0, 1, 2]);
    assert_refuses(&rt, "a node that is named twice", 2, 2, &[0, 1, 0]);
    assert_refuses(&rt, "more nodes than there may be", 2, 4, &numbers());
}
