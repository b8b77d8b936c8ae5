//! Names that are deleted.
use crate::alone::{Step, node_of, play, start};
use crate::checks::{assert_prints, strings};
use crate::pair::{Pair, asked_pair};
use client_commands::Deletion;
use node::Node;
use std::alloc::Global;
use std::process::Abort;

const OK: &str = "[Frame { strings: [b\"client 1\", b\"+OK\\r\\n\"] }]";

const NIL: &str = "[Frame { strings: [b\"client 1\", b\"$-1\\r\\n\"] }]";

const ONE: &str = "[Frame { strings: [b\"client 1\", b\":1\\r\\n\"] }]";

const TWO: &str = "[Frame { strings: [b\"client 1\", b\":2\\r\\n\"] }]";

const NOTHING: &str = "[]";

// A DEL of these names, of which nothing is done yet.
fn deletion_of(rt: &impl Abort, alloc: Global, names: &[&[u8]]) -> Deletion {
    Deletion::new(strings(rt, alloc, names))
}

// What is left of a DEL of two names, write after write: with the bound 1, and without a bound.
static LEFT_WITH_1: [&str; 4] = [
    "Some(Deletion { names: [b\"a\", b\"b\"], done: 0, made: 1 })",
    "Some(Deletion { names: [b\"a\", b\"b\"], done: 1, made: 0 })",
    "Some(Deletion { names: [b\"a\", b\"b\"], done: 1, made: 1 })",
    "None",
];

static LEFT_WITHOUT: [&str; 2] = [
    "Some(Deletion { names: [b\"a\", b\"b\"], done: 1, made: 0 })",
    "None",
];

#[test]
fn writes_of_two_names(rt: HostRuntime) {
    assert_left(&rt, rt.alloc(), Some(1), &LEFT_WITH_1);
    assert_left(&rt, rt.alloc(), None, &LEFT_WITHOUT);
}

fn assert_left(rt: &impl Abort, alloc: Global, delta: Option<u32>, wanted: &[&str]) {
    let mut left = Some(deletion_of(rt, alloc, &[b"a", b"b"]));
    for wanted in wanted {
        left = after_write(left, delta);
        assert_prints(rt, alloc, &left, wanted);
    }
}

// What is left of it, if it is there, when its next write has ended.
fn after_write(deletion: Option<Deletion>, delta: Option<u32>) -> Option<Deletion> {
    match deletion {
        Some(deletion) => deletion.left(delta),
        None => None,
    }
}

#[test]
fn the_name_of_a_write(rt: HostRuntime) {
    let deletion = deletion_of(&rt, rt.alloc(), &[b"a", b"b"]);
    assert_name(&rt, rt.alloc(), &deletion, "Ok(b\"a\")");
    let rest = deletion.left(None).expect(&rt, "a name is left");
    assert_name(&rt, rt.alloc(), &rest, "Ok(b\"b\")");
}

// The next write is of this name, and the DEL has two.
fn assert_name(rt: &impl Abort, alloc: Global, deletion: &Deletion, wanted: &str) {
    assert_prints(rt, alloc, &deletion.name(), wanted);
    assert!(rt; deletion.count() == 2);
}

// A node that is alone writes the empty value twice to each name, each time with two entries of its log.
static ALONE: [Step; 7] = [
    Step {
        words: "client 1|SET|a|hello",
        answers: OK,
        outputs: Some(2),
    },
    Step {
        words: "client 1|SET|b|bye",
        answers: OK,
        outputs: Some(2),
    },
    Step {
        words: "client 1|DEL|a|b",
        answers: TWO,
        outputs: Some(8),
    },
    Step {
        words: "client 1|GET|a",
        answers: NIL,
        outputs: Some(0),
    },
    Step {
        words: "client 1|GET|b",
        answers: NIL,
        outputs: Some(0),
    },
    Step {
        words: "client 1|DEL|a",
        answers: ONE,
        outputs: Some(4),
    },
    Step {
        words: "client 1|DBSIZE",
        answers: TWO,
        outputs: Some(0),
    },
];

// The same without a bound: one write for each name.
static UNBOUNDED: [Step; 2] = [
    Step {
        words: "client 1|SET|a|hello",
        answers: OK,
        outputs: Some(2),
    },
    Step {
        words: "client 1|DEL|a|b",
        answers: TWO,
        outputs: Some(4),
    },
];

fn lone(rt: &impl Abort, alloc: Global, text: &[u8]) -> Node {
    let mut node = node_of(rt, alloc, text, 1);
    start(rt, &mut node);
    node
}

#[test]
fn a_node_alone(rt: HostRuntime) {
    let alloc = rt.alloc();
    let mut node = lone(
        &rt,
        alloc,
        b"nodes 1\nn 1\nk 1\ndelta 1\nmover 1\nlater\nticks 2\n",
    );
    play(&rt, alloc, &mut node, &ALONE);
    let mut node = lone(
        &rt,
        alloc,
        b"nodes 1\nn 1\nk 1\ndelta none\nmover 1\nlater\nticks 2\n",
    );
    play(&rt, alloc, &mut node, &UNBOUNDED);
}

// How many replies a write of a name takes.
fn replies_of_a_write(rt: &impl Abort, alloc: Global) -> u32 {
    let mut pair = asked_pair(rt, alloc, "client 1|SET|a|hello");
    let count = pair.reply_often(rt, alloc, 100);
    assert_answers(rt, alloc, &pair, OK);
    count
}

fn assert_answers(rt: &impl Abort, alloc: Global, pair: &Pair, wanted: &str) {
    assert_prints(rt, alloc, &pair.last.answers, wanted);
}

const TWO_AND_PONG: &str = "[Frame { strings: [b\"client 1\", b\":2\\r\\n\"] }, \
    Frame { strings: [b\"client 1\", b\"+PONG\\r\\n\"] }]";

// Nothing is answered before the fourth write ends, and a command that came meanwhile is answered after it.
#[test]
fn four_writes(rt: HostRuntime) {
    delete_two(&rt, rt.alloc());
}

fn delete_two(rt: &impl Abort, alloc: Global) {
    let one = replies_of_a_write(rt, alloc);
    let mut pair = asked_pair(rt, alloc, "client 1|DEL|a|b");
    let before = pair.reply_often(rt, alloc, 1);
    pair.ask_meanwhile(rt, alloc, "client 1|PING");
    let after = pair.reply_often(rt, alloc, 100);
    assert!(rt; u64::from(before) + u64::from(after) == 4 * u64::from(one));
    assert_answers(rt, alloc, &pair, TWO_AND_PONG);
    assert!(rt; !pair.has_request());
}

const ERROR_AND_PONG: &str =
    "[Frame { strings: [b\"client 1\", b\"-ERR no quorum answered in time\\r\\n\"] }, \
    Frame { strings: [b\"client 1\", b\"+PONG\\r\\n\"] }]";

// The second write of the first name is given up: the client gets the error once, and nothing more is begun.
#[test]
fn no_quorum(rt: HostRuntime) {
    lose_quorum(&rt, rt.alloc());
}

fn lose_quorum(rt: &impl Abort, alloc: Global) {
    let one = replies_of_a_write(rt, alloc);
    let mut pair = asked_pair(rt, alloc, "client 1|DEL|a|b");
    pair.reply_often(rt, alloc, one);
    assert!(rt; pair.has_request());
    for (words, wanted) in [
        ("client 1|PING", NOTHING),
        ("tick", NOTHING),
        ("tick", NOTHING),
        ("tick", ERROR_AND_PONG),
        ("tick", NOTHING),
    ] {
        pair.ask(rt, alloc, words);
        assert_answers(rt, alloc, &pair, wanted);
    }
    assert!(rt; !pair.has_request());
}

// The client's connection ends while its first write is open: this write goes on, and nothing more is begun.
#[test]
fn a_client_that_leaves(rt: HostRuntime) {
    leave(&rt, rt.alloc());
}

fn leave(rt: &impl Abort, alloc: Global) {
    let one = replies_of_a_write(rt, alloc);
    let mut pair = asked_pair(rt, alloc, "client 1|DEL|a|b");
    pair.ask_meanwhile(rt, alloc, "client 1");
    assert!(rt; pair.reply_often(rt, alloc, 100) == one);
    assert_answers(rt, alloc, &pair, NOTHING);
}
