//! Commands of clients, and what is read again from the log.
use crate::alone::{Step, handle, new_node, play, play_alone, recover, start};
use node::Node;
use node_effects::Output;
use node_log::Entry;
use std::alloc::Global;
use std::process::Abort;

static A_WRITE_AND_A_READ: [Step; 2] = [
    Step {
        words: "client 1|SET|photo|hello",
        answers: "[Frame { strings: [b\"client 1\", b\"+OK\\r\\n\"] }]",
        outputs: Some(2),
    },
    Step {
        words: "client 2|GET|photo",
        answers: "[Frame { strings: [b\"client 2\", b\"$5\\r\\n\", b\"hello\", b\"\\r\\n\"] }]",
        outputs: Some(0),
    },
];

#[test]
fn a_write_and_a_read(rt: HostRuntime) {
    play_alone(&rt, rt.alloc(), &A_WRITE_AND_A_READ);
}

// What is told of a value: of one, and of none.
static READS: [Step; 7] = [
    Step {
        words: "client 1|GET|photo",
        answers: "[Frame { strings: [b\"client 1\", b\"$-1\\r\\n\"] }]",
        outputs: None,
    },
    Step {
        words: "client 1|STRLEN|photo",
        answers: "[Frame { strings: [b\"client 1\", b\":0\\r\\n\"] }]",
        outputs: None,
    },
    Step {
        words: "client 1|EXISTS|photo",
        answers: "[Frame { strings: [b\"client 1\", b\":0\\r\\n\"] }]",
        outputs: None,
    },
    Step {
        words: "client 1|SETNX|photo|hello",
        answers: "[Frame { strings: [b\"client 1\", b\"-ERR a write does not depend on the value before it \
            in this store; nothing was changed\\r\\n\"] }]",
        outputs: Some(0),
    },
    Step {
        words: "client 1|SET|photo|hello",
        answers: "[Frame { strings: [b\"client 1\", b\"+OK\\r\\n\"] }]",
        outputs: Some(2),
    },
    Step {
        words: "client 1|STRLEN|photo",
        answers: "[Frame { strings: [b\"client 1\", b\":5\\r\\n\"] }]",
        outputs: Some(0),
    },
    Step {
        words: "client 1|EXISTS|photo",
        answers: "[Frame { strings: [b\"client 1\", b\":1\\r\\n\"] }]",
        outputs: Some(0),
    },
];

#[test]
fn reads(rt: HostRuntime) {
    play_alone(&rt, rt.alloc(), &READS);
}

static PLAIN_COMMANDS: [Step; 5] = [
    Step {
        words: "client 7|PING",
        answers: "[Frame { strings: [b\"client 7\", b\"+PONG\\r\\n\"] }]",
        outputs: None,
    },
    Step {
        words: "client 7|CLIENT|ID",
        answers: "[Frame { strings: [b\"client 7\", b\":7\\r\\n\"] }]",
        outputs: None,
    },
    Step {
        words: "client 7|COMMAND|COUNT",
        answers: "[Frame { strings: [b\"client 7\", b\":18\\r\\n\"] }]",
        outputs: None,
    },
    Step {
        words: "client 7|SELECT|0",
        answers: "[Frame { strings: [b\"client 7\", b\"+OK\\r\\n\"] }]",
        outputs: None,
    },
    Step {
        words: "tick",
        answers: "[]",
        outputs: None,
    },
];

#[test]
fn plain_commands(rt: HostRuntime) {
    play_alone(&rt, rt.alloc(), &PLAIN_COMMANDS);
}

static A_MOVE: [Step; 2] = [
    Step {
        words: "client 1|MOVE|photo|1|1",
        answers: "[Frame { strings: [b\"client 1\", b\"+OK\\r\\n\"] }]",
        outputs: None,
    },
    Step {
        words: "client 1|MOVE|photo|1|2",
        answers: "[Frame { strings: [b\"client 1\", b\"-ERR node 2 is not in the cluster file\\r\\n\"] }]",
        outputs: None,
    },
];

#[test]
fn a_move(rt: HostRuntime) {
    play_alone(&rt, rt.alloc(), &A_MOVE);
}

static A_READ: [Step; 1] = [Step {
    words: "client 1|GET|photo",
    answers: "[Frame { strings: [b\"client 1\", b\"$5\\r\\n\", b\"hello\", b\"\\r\\n\"] }]",
    outputs: None,
}];

#[test]
fn a_restart(rt: HostRuntime) {
    restart(&rt, rt.alloc());
}

fn restart(rt: &impl Abort, alloc: Global) {
    let mut node = new_node(rt, alloc);
    recover_a_write(rt, alloc, &mut node);
    start(rt, &mut node);
    play(rt, alloc, &mut node, &A_READ);
}

const A_WRITE: &str = "client 1|SET|photo|hello";

// The node carries out the entries of a new log, and those of a write.
fn recover_a_write(rt: &impl Abort, alloc: Global, node: &mut Node) {
    let mut before = new_node(rt, alloc);
    recover_all(rt, node, start(rt, &mut before));
    let written = handle(rt, alloc, &mut before, A_WRITE);
    recover_outputs(rt, node, written.outputs);
}

fn recover_all(rt: &impl Abort, node: &mut Node, entries: Vec<Entry>) {
    for entry in entries {
        recover(rt, node, entry);
    }
}

fn recover_outputs(rt: &impl Abort, node: &mut Node, outputs: Vec<Output>) {
    for output in outputs {
        recover_output(rt, node, output);
    }
}

// An entry is carried out again.
fn recover_output(rt: &impl Abort, node: &mut Node, output: Output) {
    match output {
        Output::Log(entry) => recover(rt, node, entry),
        Output::Send(_) => (),
    }
}
