//! Three nodes in one process, whose program passes their frames in memory.
use bytes::Bytes;
use frames::{Frame, Gathered, read_frame, write_frame};
use node_core::{NodeCore, Step, open, step_at};
use node_store::{Batch, GivenBytes};
use std::alloc::Global;
use std::process::Abort;

pub(crate) const FILE: &[u8] = b"nodes 1 2 3\nn 3\nk 2\ndelta 1\nmover 1\nlater\nticks 2\n";

pub(crate) const SET: &[u8] =
    b"*4\r\n$8\r\nclient 1\r\n$3\r\nSET\r\n$5\r\nphoto\r\n$5\r\nhello\r\n";

pub(crate) const GET: &[u8] = b"*3\r\n$8\r\nclient 1\r\n$3\r\nGET\r\n$5\r\nphoto\r\n";

// The answers to them, as frames.
pub(crate) const OK: &[u8] = b"*2\r\n$8\r\nclient 1\r\n$5\r\n+OK\r\n\r\n";

pub(crate) const READ: &[u8] =
    b"*4\r\n$8\r\nclient 1\r\n$4\r\n$5\r\n\r\n$5\r\nhello\r\n$2\r\n\r\n\r\n";

const ADDRESSES: [&str; 3] = ["node 1", "node 2", "node 3"];

// More frames than a node sends in one round here.
const MOST_FRAMES: u32 = 256;

// A node: its core, its log, and the frames that have come for it.
#[derive(Drop)]
pub(crate) struct Member {
    pub(crate) core: NodeCore,
    pub(crate) log: Vec<u8>,
    inbox: Vec<u8>,
}

// Three nodes, and what their clients were told.
#[derive(Drop)]
pub(crate) struct Cluster {
    pub(crate) members: [Member; 3],
    pub(crate) told: Vec<u8>,
}

pub(crate) fn push_all(rt: &impl Abort, bytes: &mut Vec<u8>, more: &Gathered) {
    let (parts, last) = more.parts();
    for part in parts {
        bytes.extend_from_slice(part).expect(rt, "memory");
    }
    bytes.extend_from_slice(last).expect(rt, "memory");
}

// The node of this number, which starts from these bytes of its log.
pub(crate) fn new_member(rt: &impl Abort, alloc: Global, number: u8, found: &[u8]) -> Member {
    let opened = open(alloc, FILE, number, found).expect(rt, "a core");
    let mut log = Vec::new(alloc);
    log.extend_from_slice(found).expect(rt, "memory");
    log.truncate(opened.length as usize);
    push_all(rt, &mut log, &opened.entries);
    Member {
        core: opened.into_core(),
        log,
        inbox: Vec::new(alloc),
    }
}

pub(crate) fn new_cluster(rt: &impl Abort, alloc: Global) -> Cluster {
    Cluster {
        members: [
            new_member(rt, alloc, 1, b""),
            new_member(rt, alloc, 2, b""),
            new_member(rt, alloc, 3, b""),
        ],
        told: Vec::new(alloc),
    }
}

impl Cluster {
    // A frame with these bytes comes to the first node.
    pub(crate) fn tell(&mut self, rt: &impl Abort, bytes: &[u8]) {
        if let Some(member) = self.members.get_mut(0) {
            member.inbox.extend_from_slice(bytes).expect(rt, "memory");
        }
    }

    // Each node handles what has come for it, so many times.
    pub(crate) fn play(&mut self, rt: &impl Abort, alloc: Global, times: u32) {
        for _ in 0..times {
            for place in 0..3usize {
                let sent = self.round(rt, alloc, place);
                self.deliver(rt, alloc, place, &sent);
            }
        }
    }

    // A node handles what has come for it. Returns what it sends.
    fn round(&mut self, rt: &impl Abort, alloc: Global, place: usize) -> Vec<u8> {
        let mut sent = Vec::new(alloc);
        if let Some(member) = self.members.get_mut(place) {
            let round = member
                .core
                .handle_frames(&member.inbox)
                .expect(rt, "a round");
            assert!(rt; round.rest.is_empty());
            carry_out(rt, &round.batch, &mut member.log, &mut sent);
            drop(round);
            member.inbox.clear();
        }
        sent
    }

    // The frames that a node sent go where they are addressed.
    fn deliver(&mut self, rt: &impl Abort, alloc: Global, from: usize, sent: &[u8]) {
        let mut reader = GivenBytes::new(sent);
        for _ in 0..MOST_FRAMES {
            let Some(it) = read_frame(alloc, &mut reader).expect(rt, "a frame") else {
                return;
            };
            self.pass(rt, alloc, from, &it);
        }
        assert!(rt; false, "a round sends fewer frames");
    }

    fn pass(&mut self, rt: &impl Abort, alloc: Global, from: usize, it: &Frame) {
        let Some(address) = it.strings().first() else {
            return;
        };
        for (member, own) in self.members.iter_mut().zip(&ADDRESSES) {
            if address.as_slice() == own.as_bytes() {
                let came = readdressed(rt, alloc, it, ADDRESSES.get(from).copied().unwrap_or(""));
                write_frame(&mut member.inbox, &came).expect(rt, "memory");
            }
        }
        if address.as_slice() == b"client 1".as_slice() {
            write_frame(&mut self.told, it).expect(rt, "memory");
        }
    }
}

// The program carries out what is to be done for a batch, step by step.
fn carry_out(rt: &impl Abort, batch: &Batch, log: &mut Vec<u8>, sent: &mut Vec<u8>) {
    for place in 0..4usize {
        match step_at(batch, place) {
            Some(Step::Send(bytes)) => push_all(rt, sent, bytes),
            Some(Step::Append(bytes)) => push_all(rt, log, bytes),
            Some(Step::Sync) | None => {}
        }
    }
}

// The frame as it comes from the node of this address.
fn readdressed(rt: &impl Abort, alloc: Global, it: &Frame, from: &'static str) -> Frame {
    let mut strings = Vec::new(alloc);
    let address = Bytes::from_static(from.as_bytes());
    strings.push(address).expect(rt, "memory");
    for string in it.strings().iter().skip(1) {
        let shared: Bytes = string.clone().expect(rt, "one more owner");
        strings.push(shared).expect(rt, "memory");
    }
    Frame::new(strings).expect(rt, "a frame")
}
