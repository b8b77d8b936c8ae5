//! Whole calls, and questions.
use super::lone_node::{Act, Step, lone_node, play};
use bytes::Bytes;
use letter::Letter;
use node_keeper::Objects;
use std::alloc::Global;
use std::process::Abort;
use tag::Refusal;

static A_WRITE_A_MOVE_AND_A_READ: [Step; 3] = [
    Step {
        name: b"photo",
        id: 1,
        act: Act::Write(b"snow"),
        ended: "Some(Ended { id: 1, kind: Write, value: Some(b\"snow\") })",
    },
    Step {
        name: b"photo",
        id: 2,
        act: Act::Move,
        ended: "Some(Ended { id: 2, kind: Move, value: None })",
    },
    Step {
        name: b"photo",
        id: 3,
        act: Act::Read,
        ended: "Some(Ended { id: 3, kind: Read, value: Some(b\"snow\") })",
    },
];

static TWO_NAMES: [Step; 2] = [
    Step {
        name: b"one",
        id: 1,
        act: Act::Write(b"1"),
        ended: "Some(Ended { id: 1, kind: Write, value: Some(b\"1\") })",
    },
    Step {
        name: b"other",
        id: 2,
        act: Act::Read,
        ended: "Some(Ended { id: 2, kind: Read, value: Some(b\"\") })",
    },
];

// After these steps, node 3 has this number, has so many objects in its map, and stores so many bytes.
fn assert_plays(rt: &impl Abort, alloc: Global, steps: &[Step], expected: (u8, usize, u64)) {
    assert!(rt; play(rt, alloc, steps) == expected);
}

#[test]
fn a_write_a_move_and_a_read(rt: HostRuntime) {
    assert_plays(&rt, rt.alloc(), &A_WRITE_A_MOVE_AND_A_READ, (3, 1, 8));
}

#[test]
fn two_names(rt: HostRuntime) {
    assert_plays(&rt, rt.alloc(), &TWO_NAMES, (3, 1, 1));
}

#[test]
fn questions(rt: HostRuntime) {
    ask_and_give_up(&rt, &mut lone_node(&rt, rt.alloc()));
}

fn ask_and_give_up(rt: &impl Abort, objects: &mut Objects) {
    ask(rt, objects);
    give_up(rt, objects);
}

fn ask(rt: &impl Abort, objects: &mut Objects) {
    let photo = Bytes::from_static(b"photo");
    let _sent = objects.begin_read(&photo, 1).expect(rt, "a read");
    let again = objects.ask_again(&photo, 1).expect(rt, "memory");
    let letter = again.first().expect(rt, "a letter");
    assert!(rt; answers(objects, &photo, letter) == [Ok(true), Ok(true), Ok(false)]);
}

// Whether the object of a new name agrees with a letter and knows all of it, and whether the letter changes the object
// of this name.
fn answers(objects: &Objects, name: &Bytes, letter: &Letter) -> [Result<bool, Refusal>; 3] {
    let new = Bytes::from_static(b"new");
    [
        objects.agrees_with(&new, letter),
        objects.knows_all_of(&new, letter),
        objects.is_changed_by(name, letter),
    ]
}

fn give_up(rt: &impl Abort, objects: &mut Objects) {
    let photo = Bytes::from_static(b"photo");
    assert!(rt; objects.give_up(&photo, 1));
    assert!(rt; !objects.give_up(&photo, 1) && objects.count() == 0);
}
