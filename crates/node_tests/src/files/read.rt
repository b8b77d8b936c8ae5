//! Texts that are read.
use crate::checks::assert_prints;
use cluster_file::{ClusterFile, read_cluster_file};
use std::alloc::Global;
use std::process::Abort;

/// A file with comments, empty lines, spaces and tabs, and no line feed at its end.
const BY_HAND: &[u8] = b"# the nodes in Berlin, M\xfcnchen and Wien

  nodes 0 1 2 \t3 4 5# not 6
n\t4
k 2
   # nothing is dropped
delta none
mover 3
later 9 255
ticks 50";

pub(crate) fn read<R: Abort>(rt: &R, alloc: Global, text: &[u8]) -> ClusterFile {
    read_cluster_file(alloc, text).expect(rt, "a file")
}

/// A text, and what its file says.
struct Row {
    text: &'static [u8],
    nodes: &'static [u8],
    n: u8,
    k: u8,
    delta: Option<u32>,
    mover: u8,
    later: &'static [u8],
    ticks: u32,
}

static ROWS: [Row; 3] = [
    Row {
        text: BY_HAND,
        nodes: &[0, 1, 2, 3, 4, 5],
        n: 4,
        k: 2,
        delta: None,
        mover: 3,
        later: &[9, 255],
        ticks: 50,
    },
    Row {
        text: b"nodes 7\r\nn 1\r\nk 1\r\ndelta 4294967295\r\nmover 7\r\nlater\r\nticks 4294967295\r\n",
        nodes: &[7],
        n: 1,
        k: 1,
        delta: Some(4_294_967_295),
        mover: 7,
        later: &[],
        ticks: 4_294_967_295,
    },
    Row {
        text: b"nodes 1 2 3\nn 3\nk 2\ndelta 2\nmover 6\nlater 4 6\nticks 50\n",
        nodes: &[1, 2, 3],
        n: 3,
        k: 2,
        delta: Some(2),
        mover: 6,
        later: &[4, 6],
        ticks: 50,
    },
];

fn says_nodes(file: &ClusterFile, row: &Row) -> bool {
    file.nodes() == row.nodes && file.later() == row.later && file.mover() == row.mover
}

fn says_numbers(file: &ClusterFile, row: &Row) -> bool {
    file.n() == row.n && file.k() == row.k && file.delta() == row.delta && file.ticks() == row.ticks
}

/// A text by hand, one with lines that end with CR LF, and one whose mover joined later.
#[test]
fn settings_of_texts(rt: HostRuntime) {
    for row in &ROWS {
        let file = read(&rt, rt.alloc(), row.text);
        assert!(rt;
            says_nodes(&file, row) && says_numbers(&file, row),
            "{file:?}"
        );
    }
}

#[test]
fn nodes_of_both_lists(rt: HostRuntime) {
    let file = read(&rt, rt.alloc(), BY_HAND);
    assert!(rt; file.has_node(5) && file.has_node(255) && !file.has_node(6));
}

/// The layout was computed with Python's `hashlib`.
#[test]
fn the_layout_of_a_name(rt: HostRuntime) {
    let layout = read(&rt, rt.alloc(), BY_HAND).placement().place(b"photo");
    assert_prints(
        &rt,
        rt.alloc(),
        &layout,
        "Layout { k: 2, members: [3, 5, 2, 0] }",
    );
}
