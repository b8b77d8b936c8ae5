//! A node that is alone in its cluster.
use crate::checks::assert_prints;
use bytes::Bytes;
use cluster_file::read_cluster_file;
use frames::Frame;
use node::Node;
use node_effects::{Effects, Machine};
use node_log::Entry;
use std::alloc::Global;
use std::process::Abort;

/// A frame that comes to a node, and what the node does.
pub(crate) struct Step {
    /// The strings of the frame, with `|` between them.
    pub(crate) words: &'static str,
    /// The answers, as they are printed for debugging.
    pub(crate) answers: &'static str,
    /// How many outputs there are, if that is compared.
    pub(crate) outputs: Option<usize>,
}

/// Plays these steps.
pub(crate) fn play(rt: &impl Abort, alloc: Global, node: &mut Node, steps: &[Step]) {
    for step in steps {
        let effects = handle(rt, alloc, node, step.words);
        assert_step(rt, alloc, &effects, step);
    }
}

fn assert_step(rt: &impl Abort, alloc: Global, effects: &Effects, step: &Step) {
    assert_prints(rt, alloc, &effects.answers, step.answers);
    let count = effects.outputs.len();
    assert!(rt; step.outputs.unwrap_or(count) == count);
}

/// Returns what a node wants done once this frame came.
pub(crate) fn handle(
    rt: &impl Abort,
    alloc: Global,
    node: &mut Node,
    words: &'static str,
) -> Effects {
    let frame = frame(rt, alloc, words);
    node.handle(frame).expect(rt, "effects")
}

/// Returns the frame of the strings between which there is a `|`.
pub(crate) fn frame(rt: &impl Abort, alloc: Global, words: &'static str) -> Frame {
    let mut strings = Vec::new(alloc);
    push_words(rt, &mut strings, words);
    Frame::new(strings).expect(rt, "a frame")
}

pub(crate) fn push_words(rt: &impl Abort, strings: &mut Vec<Bytes>, words: &'static str) {
    for word in words.split('|') {
        let string = Bytes::from_static(word.as_bytes());
        strings.push(string).expect(rt, "memory");
    }
}

/// Returns a node of the cluster that this text describes. It has no log.
pub(crate) fn node_of(rt: &impl Abort, alloc: Global, text: &[u8], number: u8) -> Node {
    let file = read_cluster_file(alloc, text).expect(rt, "a cluster file");
    Node::new(alloc, file, number)
}

/// The node starts. Returns the entries that its log gets first.
pub(crate) fn start(rt: &impl Abort, node: &mut Node) -> Vec<Entry> {
    node.start().expect(rt, "a start")
}

/// Returns a node that is alone, and has no log.
pub(crate) fn new_node(rt: &impl Abort, alloc: Global) -> Node {
    let text = b"nodes 1\nn 1\nk 1\ndelta 8\nmover 1\nlater\nticks 2\n";
    node_of(rt, alloc, text, 1)
}

/// Returns a node that is alone, and started with an empty log.
pub(crate) fn started_node(rt: &impl Abort, alloc: Global) -> Node {
    let mut node = new_node(rt, alloc);
    start(rt, &mut node);
    node
}

/// The node carries out an entry of its log.
pub(crate) fn recover(rt: &impl Abort, node: &mut Node, entry: Entry) {
    node.recover(entry).expect(rt, "an entry of the log");
}

/// Plays these steps at a node that is alone, and started with an empty log.
pub(crate) fn play_alone(rt: &impl Abort, alloc: Global, steps: &[Step]) {
    let mut node = started_node(rt, alloc);
    play(rt, alloc, &mut node, steps);
}
