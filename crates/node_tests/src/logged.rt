//! Node 2 of a cluster, requests of node 1 to it about one object, and its log.
use crate::alone::{handle, node_of, recover, start};
use crate::checks::shared_layout;
use bank::Request;
use bytes::Bytes;
use cluster_file::{ClusterNodes, read_cluster_file};
use frames::Frame;
use layout::Layout;
use letter::{Letter, NamedLetter, SharedLayout, Start};
use mail::{Body, Message};
use node::Node;
use node_effects::{Machine, Output};
use node_log::Entry;
use node_messages::{NodeMessage, frame_of};
use std::alloc::Global;
use std::process::Abort;

static FILE: &[u8] = b"nodes 1 2 3\nn 3\nk 1\ndelta 1\nmover 1\nlater 4\nticks 2\n";

/// Node 2, and the entries of its log.
#[derive(Drop)]
pub(crate) struct Logged {
    pub(crate) node: Node,
    pub(crate) log: Vec<Entry>,
    /// What the node wanted done last: the first string of each entry and of each frame, in their order.
    pub(crate) wanted: Vec<Bytes>,
}

/// Returns the node, which has carried out these entries of a log, and then has started.
pub(crate) fn started(rt: &impl Abort, alloc: Global, log: Vec<Entry>) -> Logged {
    let mut node = node_of(rt, alloc, FILE, 2);
    for entry in log {
        recover(rt, &mut node, entry);
    }
    let log = start(rt, &mut node);
    Logged {
        node,
        log,
        wanted: Vec::new(alloc),
    }
}

impl Logged {
    /// Node 1 asks this about position 0, and tells this start, unless it is 0.
    pub(crate) fn ask(&mut self, rt: &impl Abort, alloc: Global, request: Request, start: u32) {
        self.take(rt, alloc, letter(rt, alloc, request, start));
    }

    /// A request for the greatest tag comes, which is for another member, and tells this start.
    pub(crate) fn hear(&mut self, rt: &impl Abort, alloc: Global, start: u32) {
        let mut it = letter(rt, alloc, Request::Query, start);
        it.message.member = if it.message.member == 0 { 1 } else { 0 };
        self.take(rt, alloc, it);
    }

    fn take(&mut self, rt: &impl Abort, alloc: Global, letter: Letter) {
        let frame = frame_from_node_1(rt, alloc, letter);
        let effects = self.node.handle(frame).expect(rt, "effects");
        self.wanted.clear();
        for output in effects.outputs {
            self.note(rt, output);
        }
    }

    fn note(&mut self, rt: &impl Abort, output: Output) {
        match output {
            Output::Send(frame) => self.want(rt, frame.strings()),
            Output::Log(entry) => {
                self.want(rt, entry.strings());
                self.log.push(entry).expect(rt, "memory");
            }
        }
    }

    fn want(&mut self, rt: &impl Abort, strings: &[Bytes]) {
        if let [first, ..] = strings {
            let shared = first.clone().expect(rt, "one more owner");
            self.wanted.push(shared).expect(rt, "memory");
        }
    }
}

// The layout of position 0 of the object, of which the nodes 1, 2 and 3 are the members.
fn first_layout(rt: &impl Abort) -> Layout {
    let nodes = ClusterNodes::new(1, 3, &[1, 2, 3]).expect(rt, "nodes");
    nodes.place(b"photo")
}

// The number that node 2 has as a member of a layout of three nodes.
fn member_in(first: &Layout) -> u8 {
    for member in 0..first.n() {
        if first.member(member) == 2 {
            return member;
        }
    }
    0
}

// The layout of each position after the first.
fn next_layout(rt: &impl Abort, alloc: Global) -> SharedLayout {
    shared_layout(rt, alloc, 1, &[4])
}

// A request to node 2 about position 0, which tells this start, unless it is 0.
fn letter(rt: &impl Abort, alloc: Global, request: Request, start: u32) -> Letter {
    let first = first_layout(rt);
    let next = next_in(rt, alloc, &request);
    let message = Message {
        call: 9,
        phase: 3,
        position: 0,
        member: member_in(&first),
        body: Body::Request(request),
    };
    Letter {
        layout: SharedLayout::new(alloc, first).expect(rt, "memory"),
        next,
        start: told(rt, alloc, start),
        asks_piece: false,
        told: None,
        message,
    }
}

// The layout of the next position, if the request says that there is one.
fn next_in(rt: &impl Abort, alloc: Global, request: &Request) -> Option<SharedLayout> {
    match request {
        Request::Spread(_) => Some(next_layout(rt, alloc)),
        _ => None,
    }
}

// The start at this position, which a letter tells unless it is 0.
fn told(rt: &impl Abort, alloc: Global, position: u32) -> Option<Start> {
    if position == 0 {
        return None;
    }
    let layout = next_layout(rt, alloc);
    Some(Start { position, layout })
}

// The frame in which the letter comes from node 1.
fn frame_from_node_1(rt: &impl Abort, alloc: Global, letter: Letter) -> Frame {
    let message = NodeMessage {
        digest: digest(rt, alloc),
        named: NamedLetter {
            name: Bytes::from_static(b"photo"),
            letter,
        },
    };
    let written = frame_of(alloc, &message).expect(rt, "a frame");
    addressed(rt, alloc, written)
}

fn digest(rt: &impl Abort, alloc: Global) -> [u8; 16] {
    let file = read_cluster_file(alloc, FILE).expect(rt, "a cluster file");
    file.digest()
}

fn addressed(rt: &impl Abort, alloc: Global, written: Frame) -> Frame {
    let mut strings = Vec::new(alloc);
    strings
        .push(Bytes::from_static(b"node 1"))
        .expect(rt, "memory");
    for string in written.into_strings() {
        strings.push(string).expect(rt, "memory");
    }
    Frame::new(strings).expect(rt, "a frame")
}
