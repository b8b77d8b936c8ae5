//! Whole calls.
use super::nodes::{Act, Step, play};

static A_WRITE_AND_A_READ: [Step; 2] = [
    Step {
        node: 0,
        id: 1,
        act: Act::Write(b"photo"),
        down: None,
        ended: WRITTEN,
    },
    Step {
        node: 3,
        id: 2,
        act: Act::Read,
        down: None,
        ended: "Some(Ended { id: 2, kind: Read, value: Some(b\"photo\") })",
    },
];

static NOTHING_WAS_WRITTEN: [Step; 1] = [Step {
    node: 1,
    id: 7,
    act: Act::Read,
    down: None,
    ended: "Some(Ended { id: 7, kind: Read, value: Some(b\"\") })",
}];

// The write with which most tests begin.
const WRITTEN: &str = "Some(Ended { id: 1, kind: Write, value: Some(b\"photo\") })";

const MOVED: &str = "Some(Ended { id: 2, kind: Move, value: None })";

// A read of node 1, to which no letters come at first, is not answered until its letters are sent again.
static A_MOVE: [Step; 4] = [
    Step {
        node: 0,
        id: 1,
        act: Act::Write(b"photo"),
        down: None,
        ended: WRITTEN,
    },
    Step {
        node: 0,
        id: 2,
        act: Act::Move(1, &[2, 3]),
        down: None,
        ended: MOVED,
    },
    Step {
        node: 1,
        id: 3,
        act: Act::Read,
        down: Some(1),
        ended: MOVED,
    },
    Step {
        node: 1,
        id: 3,
        act: Act::Resend,
        down: None,
        ended: "Some(Ended { id: 3, kind: Read, value: Some(b\"photo\") })",
    },
];

const READ_AT_NODE_3: &str = "Some(Ended { id: 3, kind: Read, value: Some(b\"photo\") })";

// After the move, there is no quorum of the first members. Node 0's reply tells node 3 the start. Node 4 asks nodes
// that are not the members for which it takes them, and its requests come back with the start.
static STARTS: [Step; 6] = [
    Step {
        node: 0,
        id: 1,
        act: Act::Write(b"photo"),
        down: None,
        ended: WRITTEN,
    },
    Step {
        node: 0,
        id: 2,
        act: Act::Move(1, &[2, 3]),
        down: None,
        ended: MOVED,
    },
    Step {
        node: 3,
        id: 3,
        act: Act::Read,
        down: Some(1),
        ended: MOVED,
    },
    Step {
        node: 3,
        id: 3,
        act: Act::ReadOn,
        down: Some(1),
        ended: READ_AT_NODE_3,
    },
    Step {
        node: 4,
        id: 4,
        act: Act::Read,
        down: Some(1),
        ended: READ_AT_NODE_3,
    },
    Step {
        node: 4,
        id: 4,
        act: Act::ReadOn,
        down: Some(1),
        ended: "Some(Ended { id: 4, kind: Read, value: Some(b\"photo\") })",
    },
];

static LOST_LETTERS: [Step; 2] = [
    Step {
        node: 0,
        id: 1,
        act: Act::Write(b"photo"),
        down: Some(2),
        ended: "None",
    },
    Step {
        node: 0,
        id: 1,
        act: Act::Resend,
        down: None,
        ended: WRITTEN,
    },
];

#[test]
fn a_write_and_a_read(rt: HostRuntime) {
    play(&rt, rt.alloc(), &A_WRITE_AND_A_READ);
}

#[test]
fn nothing_was_written(rt: HostRuntime) {
    play(&rt, rt.alloc(), &NOTHING_WAS_WRITTEN);
}

#[test]
fn a_move(rt: HostRuntime) {
    play(&rt, rt.alloc(), &A_MOVE);
}

#[test]
fn starts(rt: HostRuntime) {
    play(&rt, rt.alloc(), &STARTS);
}

#[test]
fn lost_letters(rt: HostRuntime) {
    play(&rt, rt.alloc(), &LOST_LETTERS);
}
