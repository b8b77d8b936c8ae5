//! A node that is alone, and its letters to itself.
use super::nodes::is_request;
use crate::checks::assert_prints;
use bytes::Bytes;
use cluster_file::ClusterNodes;
use letter::Letter;
use local_object::Ended;
use node_keeper::Objects;
use std::alloc::Global;
use std::collections::VecDeque;
use std::process::Abort;
use tag::Refusal;

// More letters than any call here takes.
const ENOUGH: u32 = 1_000;

/// What the node does with a call.
#[derive(Clone, Copy)]
pub(crate) enum Act {
    Read,
    Write(&'static [u8]),
    /// Begins a move to the first layout of the name.
    Move,
}

/// A step of a test: the node begins a call of the object of a name, and then all letters are handled.
pub(crate) struct Step {
    pub(crate) name: &'static [u8],
    pub(crate) id: u64,
    pub(crate) act: Act,
    /// The call that was answered last, as it is printed for debugging.
    pub(crate) ended: &'static str,
}

/// Returns the node 3, which is alone in its cluster.
pub(crate) fn lone_node(rt: &impl Abort, alloc: Global) -> Objects {
    let nodes = ClusterNodes::new(1, 1, &[3]).expect(rt, "nodes");
    Objects::new(alloc, 3, None, nodes)
}

/// The node, and letters that are under way.
#[derive(Drop)]
struct Lone {
    objects: Objects,
    mail: VecDeque<Letter>,
    // The call that was answered last.
    ended: Option<Ended>,
}

/// Plays these steps at node 3, which is alone. Returns its number, how many objects its map has, and how many
/// bytes it stores.
pub(crate) fn play(rt: &impl Abort, alloc: Global, steps: &[Step]) -> (u8, usize, u64) {
    let mut lone = Lone {
        objects: lone_node(rt, alloc),
        mail: VecDeque::new(alloc),
        ended: None,
    };
    for step in steps {
        lone.play(rt, step);
        assert_prints(rt, alloc, &lone.ended, step.ended);
    }
    numbers(&lone.objects)
}

fn numbers(objects: &Objects) -> (u8, usize, u64) {
    (objects.number(), objects.count(), objects.bytes_stored())
}

impl Lone {
    fn play(&mut self, rt: &impl Abort, step: &Step) {
        let name = Bytes::from_static(step.name);
        let letters = self.act(&name, step).expect(rt, "letters");
        self.send(rt, letters);
        let is_move = matches!(step.act, Act::Move);
        assert!(rt; self.objects.is_open_move(&name, step.id) == is_move);
        self.run(rt, &name);
    }

    fn act(&mut self, name: &Bytes, step: &Step) -> Result<Vec<Letter>, Refusal> {
        match step.act {
            Act::Read => self.objects.begin_read(name, step.id),
            Act::Write(text) => {
                let value = Bytes::from_static(text);
                self.objects.begin_write(name, step.id, value)
            }
            Act::Move => {
                let layout = self.objects.first_layout(name);
                self.objects.begin_move(name, step.id, layout)
            }
        }
    }

    fn send(&mut self, rt: &impl Abort, letters: Vec<Letter>) {
        for letter in letters {
            self.mail.push_back(letter).expect(rt, "memory");
        }
    }

    // Handles all letters, those too that are sent meanwhile.
    fn run(&mut self, rt: &impl Abort, name: &Bytes) {
        for _ in 0..ENOUGH {
            let Some(letter) = self.mail.pop_front() else {
                return;
            };
            self.handle(rt, name, letter);
        }
    }

    fn handle(&mut self, rt: &impl Abort, name: &Bytes, letter: Letter) {
        if is_request(&letter) {
            self.serve(rt, name, letter);
        } else {
            self.take(rt, name, letter);
        }
    }

    fn serve(&mut self, rt: &impl Abort, name: &Bytes, letter: Letter) {
        let reply = self.objects.serve(name, letter).expect(rt, "memory");
        self.mail
            .push_back(reply.expect(rt, "a reply"))
            .expect(rt, "memory");
    }

    fn take(&mut self, rt: &impl Abort, name: &Bytes, letter: Letter) {
        let progress = self.objects.take(name, letter).expect(rt, "memory");
        self.note(progress.ended);
        self.send(rt, progress.letters);
    }

    fn note(&mut self, ended: Option<Ended>) {
        if ended.is_some() {
            self.ended = ended;
        }
    }
}
