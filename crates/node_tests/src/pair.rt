//! Two nodes of a cluster of three, of which the second one replies to the first one's requests.
use crate::alone::{frame, handle, node_of, push_words, start};
use bytes::Bytes;
use frames::Frame;
use node::Node;
use node_effects::{Effects, Machine, Output};
use node_messages::{NodeMessage, read_message};
use std::alloc::Global;
use std::process::Abort;

/// Two nodes of a cluster of three.
#[derive(Drop)]
pub(crate) struct Pair {
    pub(crate) first: Node,
    pub(crate) second: Node,
    /// What the first node wants done.
    pub(crate) last: Effects,
}

// A node of a cluster of three, which has started with an empty log.
fn started(rt: &impl Abort, alloc: Global, number: u8) -> Node {
    let text = b"nodes 1 2 3\nn 3\nk 1\ndelta 1\nmover 1\nlater\nticks 2\n";
    let mut node = node_of(rt, alloc, text, number);
    start(rt, &mut node);
    node
}

/// Returns two nodes, of which a client has asked the first one this.
pub(crate) fn asked_pair(rt: &impl Abort, alloc: Global, words: &'static str) -> Pair {
    let mut first = started(rt, alloc, 1);
    let last = handle(rt, alloc, &mut first, words);
    Pair {
        first,
        second: started(rt, alloc, 2),
        last,
    }
}

/// Returns a frame to the node of this address, as it comes there from the node of another address.
pub(crate) fn carried(
    rt: &impl Abort,
    alloc: Global,
    effects: &Effects,
    to: &[u8],
    from: &'static str,
) -> Frame {
    for output in &effects.outputs {
        if is_sent(output, to) {
            return readdressed(rt, alloc, output, from);
        }
    }
    frame(rt, alloc, "tick")
}

fn is_sent(output: &Output, to: &[u8]) -> bool {
    match strings_of(output) {
        [address, ..] => address.as_slice() == to,
        [] => false,
    }
}

/// Returns the strings of a frame that is to be sent.
pub(crate) fn strings_of(output: &Output) -> &[Bytes] {
    match output {
        Output::Send(frame) => frame.strings(),
        Output::Log(_) => &[],
    }
}

/// Returns the frame with another address.
pub(crate) fn readdressed(
    rt: &impl Abort,
    alloc: Global,
    output: &Output,
    from: &'static str,
) -> Frame {
    let mut strings = Vec::new(alloc);
    push_words(rt, &mut strings, from);
    push_rest(rt, &mut strings, strings_of(output));
    Frame::new(strings).expect(rt, "a frame")
}

// Appends these strings, but not the first one.
fn push_rest(rt: &impl Abort, strings: &mut Vec<Bytes>, sent: &[Bytes]) {
    for string in sent.iter().skip(1) {
        let shared = string.clone().expect(rt, "one more owner");
        strings.push(shared).expect(rt, "memory");
    }
}

// The position of the start that a message tells which is to be sent, if it tells one.
fn start_in(rt: &impl Abort, alloc: Global, output: &Output) -> Option<u32> {
    let message = message_in(rt, alloc, strings_of(output));
    match &message.named.letter.start {
        Some(start) => Some(start.position),
        None => None,
    }
}

/// Returns the message of a frame with these strings, of which the first one is an address.
pub(crate) fn message_in(rt: &impl Abort, alloc: Global, strings: &[Bytes]) -> NodeMessage {
    let mut rest = Vec::new(alloc);
    push_rest(rt, &mut rest, strings);
    let frame = Frame::new(rest).expect(rt, "a frame");
    read_message(alloc, &frame).expect(rt, "a message")
}

impl Pair {
    /// The second node replies to the first one's request.
    pub(crate) fn reply(&mut self, rt: &impl Abort, alloc: Global) {
        let request = carried(rt, alloc, &self.last, b"node 2", "node 1");
        let served = self.second.handle(request).expect(rt, "effects");
        let reply = carried(rt, alloc, &served, b"node 1", "node 2");
        self.last = self.first.handle(reply).expect(rt, "effects");
    }

    /// A client asks the first node this.
    pub(crate) fn ask(&mut self, rt: &impl Abort, alloc: Global, words: &'static str) {
        self.last = handle(rt, alloc, &mut self.first, words);
    }

    /// Something comes to the first node, which wants nothing done for it; its last requests are still under way.
    pub(crate) fn ask_meanwhile(&mut self, rt: &impl Abort, alloc: Global, words: &'static str) {
        let effects = handle(rt, alloc, &mut self.first, words);
        assert!(rt; effects.answers.is_empty() && effects.outputs.is_empty());
    }

    /// Whether the first node has a request for the second one.
    pub(crate) fn has_request(&self) -> bool {
        self.last
            .outputs
            .iter()
            .any(|output| is_sent(output, b"node 2"))
    }

    /// The position of the start that the first node's request tells the second one, if it tells one.
    pub(crate) fn told_start(&self, rt: &impl Abort, alloc: Global) -> Option<u32> {
        for output in &self.last.outputs {
            if is_sent(output, b"node 2") {
                return start_in(rt, alloc, output);
            }
        }
        None
    }

    /// The second node replies until the first one tells clients something, or has no more requests, and at most so
    /// often. Returns how often it replied.
    pub(crate) fn reply_often(&mut self, rt: &impl Abort, alloc: Global, most: u32) -> u32 {
        for count in 0..most {
            if !self.last.answers.is_empty() || !self.has_request() {
                return count;
            }
            self.reply(rt, alloc);
        }
        most
    }
}
