//! Seven nodes of one cluster, of which some are silent: a test carries the frames between them.
use crate::alone::{frame, node_of, start};
use crate::checks::assert_prints;
use crate::pair::{readdressed, strings_of};
use frames::Frame;
use node::Node;
use node_effects::{Machine, Output};
use std::alloc::Global;
use std::collections::VecDeque;
use std::process::Abort;

// More frames than any step here sends.
const ENOUGH: u32 = 10_000;

static FILE: &[u8] = b"nodes 1 2 3\nn 3\nk 1\ndelta 1\nmover 4\nlater 4 5 6 7\nticks 50\n";

// The addresses of the nodes.
static ADDRESSES: [&str; 7] = [
    "node 1", "node 2", "node 3", "node 4", "node 5", "node 6", "node 7",
];

/// A step of a test: a frame comes to one node, so often, and after each time all frames are carried, those too that
/// are sent meanwhile.
struct Step {
    /// The place of the node, from 0.
    node: usize,
    /// The strings of the frame, with `|` between them.
    words: &'static str,
    times: u32,
    /// Frames to the nodes from the first of these places up to the second are lost.
    silent: (usize, usize),
    /// The answers that came last, as they are printed for debugging.
    answers: &'static str,
}

// A frame that is under way to the node at a place.
#[derive(Drop)]
struct Sent {
    to: usize,
    frame: Frame,
}

#[derive(Drop)]
struct Nodes {
    nodes: Vec<Node>,
    mail: VecDeque<Sent>,
    silent: (usize, usize),
    answers: Vec<Frame>,
}

// Plays these steps at seven nodes that have started with empty logs.
fn play(rt: &impl Abort, alloc: Global, steps: &[Step]) {
    let mut nodes = seven_nodes(rt, alloc);
    for step in steps {
        nodes.play(rt, alloc, step);
    }
}

fn seven_nodes(rt: &impl Abort, alloc: Global) -> Nodes {
    let mut nodes = Vec::new(alloc);
    for number in 1..8u8 {
        let mut node = node_of(rt, alloc, FILE, number);
        start(rt, &mut node);
        nodes.push(node).expect(rt, "memory");
    }
    Nodes {
        nodes,
        mail: VecDeque::new(alloc),
        silent: ALL_HEAR,
        answers: Vec::new(alloc),
    }
}

// The place of the node of this address, if it is one.
fn place_of(address: &[u8]) -> Option<usize> {
    ADDRESSES
        .iter()
        .position(|other| other.as_bytes() == address)
}

impl Nodes {
    fn play(&mut self, rt: &impl Abort, alloc: Global, step: &Step) {
        self.silent = step.silent;
        for _ in 0..step.times {
            self.give(rt, alloc, step.node, frame(rt, alloc, step.words));
            self.run(rt, alloc);
        }
        assert_prints(rt, alloc, &self.answers, step.answers);
    }

    // Carries all frames, in the order in which they were sent.
    fn run(&mut self, rt: &impl Abort, alloc: Global) {
        for _ in 0..ENOUGH {
            let Some(sent) = self.mail.pop_front() else {
                return;
            };
            let Sent { to, frame } = sent;
            self.give(rt, alloc, to, frame);
        }
    }

    // A frame comes to the node at a place.
    fn give(&mut self, rt: &impl Abort, alloc: Global, to: usize, frame: Frame) {
        let node = self.nodes.get_mut(to).expect(rt, "one of the nodes");
        let effects = node.handle(frame).expect(rt, "effects");
        for output in &effects.outputs {
            self.carry(rt, alloc, to, output);
        }
        self.note(effects.answers);
    }

    // A frame goes to another node, unless that is silent.
    fn carry(&mut self, rt: &impl Abort, alloc: Global, from: usize, output: &Output) {
        let [address, ..] = strings_of(output) else {
            return;
        };
        let to = place_of(address.as_slice()).expect(rt, "one of the nodes");
        if self.is_silent(to) {
            return;
        }
        let sender = ADDRESSES.get(from).copied().expect(rt, "one of the nodes");
        let frame = readdressed(rt, alloc, output, sender);
        self.mail.push_back(Sent { to, frame }).expect(rt, "memory");
    }

    // Whether frames to the node at a place are lost.
    fn is_silent(&self, to: usize) -> bool {
        let (first, end) = self.silent;
        first <= to && to < end
    }

    fn note(&mut self, answers: Vec<Frame>) {
        if !answers.is_empty() {
            self.answers = answers;
        }
    }
}

const OK: &str = "[Frame { strings: [b\"client 1\", b\"+OK\\r\\n\"] }]";

const HELLO: &str = "[Frame { strings: [b\"client 2\", b\"$5\\r\\n\", b\"hello\", b\"\\r\\n\"] }]";

// No node is silent, the nodes of the first layout are, or node 7 is.
const ALL_HEAR: (usize, usize) = (0, 0);

const FIRST_NODES: (usize, usize) = (0, 3);

const NODE_7: (usize, usize) = (6, 7);

const A_WRITE: Step = Step {
    node: 3,
    words: "client 1|SET|a|hello",
    times: 1,
    silent: ALL_HEAR,
    answers: OK,
};

// Node 7 has not heard of the move, and the nodes of the first layout are silent. At age 8 its read asks all nodes, and
// those that know the start send it; at age 16 the read goes on there.
static MEMBERS_ARE_SILENT: [Step; 5] = [
    A_WRITE,
    Step {
        node: 3,
        words: "client 1|MOVE|a|1|4|5|6",
        times: 1,
        silent: NODE_7,
        answers: OK,
    },
    Step {
        node: 6,
        words: "client 2|GET|a",
        times: 1,
        silent: FIRST_NODES,
        answers: OK,
    },
    Step {
        node: 6,
        words: "tick",
        times: 15,
        silent: FIRST_NODES,
        answers: OK,
    },
    Step {
        node: 6,
        words: "tick",
        times: 1,
        silent: FIRST_NODES,
        answers: HELLO,
    },
];

#[test]
fn the_members_are_silent(rt: HostRuntime) {
    play(&rt, rt.alloc(), &MEMBERS_ARE_SILENT);
}

// The read with which the move ends asks all nodes. So node 7 has heard of the start, and its read needs none of the
// nodes of the first layout; and node 1, which has heard of it too, keeps no fragment any more.
static ALL_HEAR_OF_A_MOVE: [Step; 4] = [
    A_WRITE,
    Step {
        node: 3,
        words: "client 1|MOVE|a|1|4|5|6",
        times: 1,
        silent: ALL_HEAR,
        answers: OK,
    },
    Step {
        node: 6,
        words: "client 2|GET|a",
        times: 1,
        silent: FIRST_NODES,
        answers: HELLO,
    },
    Step {
        node: 0,
        words: "client 3|INFO|memory",
        times: 1,
        silent: ALL_HEAR,
        answers: "[Frame { strings: [b\"client 3\", b\"$35\\r\\n\", b\"# Memory\\r\\nused_memory_dataset:0\\r\\n\
            \\r\\n\", b\"\\r\\n\"] }]",
    },
];

#[test]
fn all_hear_of_a_move(rt: HostRuntime) {
    play(&rt, rt.alloc(), &ALL_HEAR_OF_A_MOVE);
}
