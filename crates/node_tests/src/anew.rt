//! A log that is written anew.
use crate::alone::{Step, handle, new_node, node_of, play, recover, start, started_node};
use crate::checks::{assert_strings, strings};
use node::Node;
use std::alloc::Global;
use std::process::Abort;

static TWO_WRITES: [Step; 2] = [
    Step {
        words: "client 1|SET|photo|hello",
        answers: OK,
        outputs: None,
    },
    Step {
        words: "client 1|SET|photo|bye",
        answers: OK,
        outputs: None,
    },
];

const OK: &str = "[Frame { strings: [b\"client 1\", b\"+OK\\r\\n\"] }]";

static A_READ: [Step; 1] = [Step {
    words: "client 1|GET|photo",
    answers: "[Frame { strings: [b\"client 1\", b\"$3\\r\\n\", b\"bye\", b\"\\r\\n\"] }]",
    outputs: None,
}];

// Two versions were written; a node that starts from the log written anew reads the second one.
#[test]
fn gives_the_value_back(rt: HostRuntime) {
    write_twice(&rt, rt.alloc());
}

fn write_twice(rt: &impl Abort, alloc: Global) {
    let mut node = started_node(rt, alloc);
    play(rt, alloc, &mut node, &TWO_WRITES);
    read_anew(rt, alloc, &node);
}

fn read_anew(rt: &impl Abort, alloc: Global, node: &Node) {
    let mut again = new_node(rt, alloc);
    recover_anew(rt, node, &mut again);
    assert!(rt; again.needed_bytes() == node.needed_bytes());
    assert!(rt; again.has_more_epochs());
    start(rt, &mut again);
    play(rt, alloc, &mut again, &A_READ);
}

// The new node carries out the node's log written anew.
fn recover_anew(rt: &impl Abort, node: &Node, again: &mut Node) {
    let log = node.entries_anew().expect(rt, "memory");
    for entry in log.expect(rt, "no move is open") {
        recover(rt, again, entry);
    }
}

static A_MOVE: [Step; 1] = [Step {
    words: "client 1|MOVE|photo|1|1",
    answers: OK,
    outputs: None,
}];

// The node moves objects, and moved one. A node that starts from the log written anew reads the value, and moves the
// object again.
#[test]
fn stands_behind_a_move(rt: HostRuntime) {
    move_once(&rt, rt.alloc());
}

fn move_once(rt: &impl Abort, alloc: Global) {
    let mut node = started_node(rt, alloc);
    play(rt, alloc, &mut node, &TWO_WRITES);
    play(rt, alloc, &mut node, &A_MOVE);
    move_again(rt, alloc, &node);
}

fn move_again(rt: &impl Abort, alloc: Global, node: &Node) {
    let mut again = new_node(rt, alloc);
    recover_anew(rt, node, &mut again);
    assert_heard(rt, alloc, &again);
    start(rt, &mut again);
    for steps in [&A_READ, &A_MOVE, &A_READ] {
        play(rt, alloc, &mut again, steps);
    }
}

// The node's log written anew says which layout position 1 has, behind the entries of the cluster and of the one start.
fn assert_heard(rt: &impl Abort, alloc: Global, node: &Node) {
    let log = node.entries_anew().expect(rt, "memory");
    match log.expect(rt, "no move is open").as_slice() {
        [_, _, heard, ..] => {
            let wanted = strings(rt, alloc, &[b"hear", b"1", b"photo", b"\x01\x01"]);
            assert_strings(rt, heard.strings(), &wanted);
        }
        _ => assert!(rt; false),
    }
}

// The node began a move to a node that does not run.
#[test]
fn waits_for_a_move(rt: HostRuntime) {
    begin_move(&rt, rt.alloc());
}

fn begin_move(rt: &impl Abort, alloc: Global) {
    let text = b"nodes 1\nn 1\nk 1\ndelta 8\nmover 1\nlater 2\nticks 2\n";
    let mut node = node_of(rt, alloc, text, 1);
    start(rt, &mut node);
    handle(rt, alloc, &mut node, "client 1|MOVE|photo|1|2");
    assert_waits(rt, &node);
}

fn assert_waits(rt: &impl Abort, node: &Node) {
    assert!(rt; matches!(node.entries_anew(), Ok(None)));
}
