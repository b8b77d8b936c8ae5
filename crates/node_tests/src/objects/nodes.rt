//! Nodes of one object, and the letters between them.
use crate::checks::{assert_prints, layout};
use bytes::Bytes;
use layout::Layout;
use letter::Letter;
use local_object::{Ended, LocalObject};
use mail::Body;
use std::alloc::Global;
use std::collections::VecDeque;
use std::process::Abort;

// More letters than any call here takes.
const ENOUGH: u32 = 10_000;

/// What a node does with a call.
#[derive(Clone, Copy)]
pub(crate) enum Act {
    Read,
    Write(&'static [u8]),
    /// Begins a move to the layout with this k and these members.
    Move(u8, &'static [u8]),
    /// Sends the letters again that were not answered.
    Resend,
    /// Has the call go on at the object's start.
    ReadOn,
}

/// A step of a test: one node acts, and then all letters are handled, those too that are sent meanwhile.
pub(crate) struct Step {
    pub(crate) node: u8,
    pub(crate) id: u64,
    pub(crate) act: Act,
    /// Letters to this node are lost.
    pub(crate) down: Option<u8>,
    /// The call that was answered last, as it is printed for debugging.
    pub(crate) ended: &'static str,
}

/// A letter that is under way.
#[derive(Drop)]
struct Sent {
    from: u8,
    to: u8,
    letter: Letter,
}

/// The nodes 0 to 4, and letters that are under way.
#[derive(Drop)]
struct Nodes {
    nodes: Vec<LocalObject>,
    mail: VecDeque<Sent>,
    // Letters to this node are lost.
    down: Option<u8>,
    // The call that was answered last.
    ended: Option<Ended>,
}

/// Plays these steps at five nodes. The object has the members 0, 1 and 2 first; but node 4 takes 3, 0 and 1 for them.
pub(crate) fn play(rt: &impl Abort, alloc: Global, steps: &[Step]) {
    let mut nodes = five_nodes(rt, alloc);
    for step in steps {
        nodes.play(rt, alloc, step);
    }
}

pub(crate) fn is_request(letter: &Letter) -> bool {
    match &letter.message.body {
        Body::Request(_) => true,
        Body::Reply { kind: _, reply: _ } => false,
    }
}

fn five_nodes(rt: &impl Abort, alloc: Global) -> Nodes {
    let mut nodes = Nodes {
        nodes: Vec::new(alloc),
        mail: VecDeque::new(alloc),
        down: None,
        ended: None,
    };
    for node in 0..4u8 {
        nodes.add(rt, alloc, node, &[0, 1, 2]);
    }
    nodes.add(rt, alloc, 4, &[3, 0, 1]);
    nodes
}

impl Nodes {
    fn add(&mut self, rt: &impl Abort, alloc: Global, node: u8, first: &[u8]) {
        let object = LocalObject::new(alloc, node, None, layout(rt, 2, first));
        self.nodes
            .push(object.expect(rt, "memory"))
            .expect(rt, "memory");
    }

    fn node(&mut self, rt: &impl Abort, node: u8) -> &mut LocalObject {
        self.nodes
            .get_mut(usize::from(node))
            .expect(rt, "one of the nodes")
    }

    fn play(&mut self, rt: &impl Abort, alloc: Global, step: &Step) {
        let letters = self.act(rt, step);
        self.ask(rt, step.node, letters);
        self.down = step.down;
        self.run(rt);
        assert_prints(rt, alloc, &self.ended, step.ended);
    }

    fn act(&mut self, rt: &impl Abort, step: &Step) -> Vec<Letter> {
        let node = self.node(rt, step.node);
        let letters = match step.act {
            Act::Read => node.begin_read(step.id),
            Act::Write(text) => node.begin_write(step.id, Bytes::from_static(text)),
            Act::Move(k, members) => node.begin_move(step.id, layout(rt, k, members)),
            Act::Resend => node.resend(step.id),
            Act::ReadOn => node.read_on(step.id),
        };
        letters.expect(rt, "letters")
    }

    // The node sends requests, each to the member that it names.
    fn ask(&mut self, rt: &impl Abort, from: u8, letters: Vec<Letter>) {
        for letter in letters {
            let to = member(rt, &letter);
            self.send(rt, from, to, letter);
        }
    }

    fn send(&mut self, rt: &impl Abort, from: u8, to: u8, letter: Letter) {
        let sent = Sent { from, to, letter };
        self.mail.push_back(sent).expect(rt, "memory");
    }

    // Handles all letters in the order in which they were sent.
    fn run(&mut self, rt: &impl Abort) {
        for _ in 0..ENOUGH {
            let Some(sent) = self.mail.pop_front() else {
                return;
            };
            self.handle(rt, sent);
        }
    }

    fn handle(&mut self, rt: &impl Abort, sent: Sent) {
        let Sent { from, to, letter } = sent;
        if self.down == Some(to) {
            return;
        }
        if is_request(&letter) {
            self.serve(rt, from, to, letter);
        } else {
            self.take(rt, to, letter);
        }
    }

    // The node serves a request, or sends it back.
    fn serve(&mut self, rt: &impl Abort, from: u8, node: u8, letter: Letter) {
        let reply = self.node(rt, node).serve(letter).expect(rt, "memory");
        if let Some(reply) = reply {
            self.send(rt, node, from, reply);
        }
    }

    // A call of the node takes the reply.
    fn take(&mut self, rt: &impl Abort, node: u8, letter: Letter) {
        let progress = self.node(rt, node).take(letter).expect(rt, "memory");
        self.note(progress.ended);
        self.ask(rt, node, progress.letters);
    }

    fn note(&mut self, ended: Option<Ended>) {
        if ended.is_some() {
            self.ended = ended;
        }
    }
}

// The node to which a request is sent.
fn member(rt: &impl Abort, letter: &Letter) -> u8 {
    assert!(rt; letter.message.member < letter.layout.layout().n());
    letter.layout.layout().member(letter.message.member)
}
