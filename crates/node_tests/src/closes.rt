//! Banks that a node closes once it has moved an object.
use crate::alone::{Step, handle, new_node, play, recover, start, started_node};
use node::Node;
use node_effects::Output;
use node_log::Entry;
use std::alloc::Global;
use std::process::Abort;

const OK: &str = "[Frame { strings: [b\"client 1\", b\"+OK\\r\\n\"] }]";

static A_WRITE: [Step; 1] = [Step {
    words: "client 1|SET|photo|hello",
    answers: OK,
    outputs: None,
}];

const A_MOVE: &str = "client 1|MOVE|photo|1|1";

// The node stores one fragment, and not that of position 0 too.
static FIVE_BYTES_AND_A_READ: [Step; 2] = [
    Step {
        words: "client 1|INFO|memory",
        answers: "[Frame { strings: [b\"client 1\", b\"$35\\r\\n\", b\"# Memory\\r\\nused_memory_dataset:5\\r\\n\
            \\r\\n\", b\"\\r\\n\"] }]",
        outputs: Some(0),
    },
    Step {
        words: "client 1|GET|photo",
        answers: "[Frame { strings: [b\"client 1\", b\"$5\\r\\n\", b\"hello\", b\"\\r\\n\"] }]",
        outputs: Some(0),
    },
];

#[test]
fn a_move_frees_the_fragment(rt: HostRuntime) {
    move_and_read(&rt, rt.alloc());
}

fn move_and_read(rt: &impl Abort, alloc: Global) {
    let mut node = started_node(rt, alloc);
    play(rt, alloc, &mut node, &A_WRITE);
    handle(rt, alloc, &mut node, A_MOVE);
    play(rt, alloc, &mut node, &FIVE_BYTES_AND_A_READ);
}

#[test]
fn a_restart_keeps_it_closed(rt: HostRuntime) {
    restart(&rt, rt.alloc());
}

fn restart(rt: &impl Abort, alloc: Global) {
    let mut node = new_node(rt, alloc);
    recover_a_move(rt, alloc, &mut node);
    start(rt, &mut node);
    play(rt, alloc, &mut node, &FIVE_BYTES_AND_A_READ);
}

// The node carries out the entries of a new log, of a write, and of a move.
fn recover_a_move(rt: &impl Abort, alloc: Global, node: &mut Node) {
    let mut before = new_node(rt, alloc);
    recover_all(rt, node, start(rt, &mut before));
    for words in ["client 1|SET|photo|hello", A_MOVE] {
        let effects = handle(rt, alloc, &mut before, words);
        recover_outputs(rt, node, effects.outputs);
    }
}

fn recover_all(rt: &impl Abort, node: &mut Node, entries: Vec<Entry>) {
    for entry in entries {
        recover(rt, node, entry);
    }
}

fn recover_outputs(rt: &impl Abort, node: &mut Node, outputs: Vec<Output>) {
    for output in outputs {
        match output {
            Output::Log(entry) => recover(rt, node, entry),
            Output::Send(_) => (),
        }
    }
}

#[test]
fn a_rewritten_log_keeps_it_closed(rt: HostRuntime) {
    rewrite(&rt, rt.alloc());
}

fn rewrite(rt: &impl Abort, alloc: Global) {
    let mut node = started_node(rt, alloc);
    play(rt, alloc, &mut node, &A_WRITE);
    handle(rt, alloc, &mut node, A_MOVE);
    read_anew(rt, alloc, &node);
}

fn read_anew(rt: &impl Abort, alloc: Global, node: &Node) {
    let mut again = new_node(rt, alloc);
    let log = node.entries_anew().expect(rt, "memory");
    recover_all(rt, &mut again, log.expect(rt, "no move is open"));
    start(rt, &mut again);
    play(rt, alloc, &mut again, &FIVE_BYTES_AND_A_READ);
}
