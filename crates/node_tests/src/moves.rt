//! Moves of objects, and the reads with which they end.
use crate::checks::assert_prints;
use crate::pair::{Pair, asked_pair};
use std::alloc::Global;
use std::process::Abort;

const A_MOVE: &str = "client 1|MOVE|a|1|1|2";

const NOTHING: &str = "[]";

const OK_AND_PONG: &str = "[Frame { strings: [b\"client 1\", b\"+OK\\r\\n\"] }, \
    Frame { strings: [b\"client 1\", b\"+PONG\\r\\n\"] }]";

fn assert_answers(rt: &impl Abort, alloc: Global, pair: &Pair, wanted: &str) {
    assert_prints(rt, alloc, &pair.last.answers, wanted);
}

// The second node replies until a request tells it the start 1, so that the move has ended. Meanwhile nobody is told
// anything.
fn reply_until_moved(rt: &impl Abort, alloc: Global, pair: &mut Pair) {
    for _ in 0..100 {
        assert_answers(rt, alloc, pair, NOTHING);
        if pair.told_start(rt, alloc) == Some(1) {
            return;
        }
        pair.reply(rt, alloc);
    }
    assert!(rt; false);
}

// A move has ended, of which the first node's client asks, and the read has begun with which it is answered.
fn moved_pair(rt: &impl Abort, alloc: Global) -> Pair {
    let mut pair = asked_pair(rt, alloc, A_MOVE);
    assert!(rt; pair.told_start(rt, alloc) == None);
    reply_until_moved(rt, alloc, &mut pair);
    pair
}

// The client is answered when the second node has replied to a request that tells it the start, and a command that came
// meanwhile is answered after that.
#[test]
fn the_read_of_a_move(rt: HostRuntime) {
    read_after_move(&rt, rt.alloc());
}

fn read_after_move(rt: &impl Abort, alloc: Global) {
    let mut pair = moved_pair(rt, alloc);
    pair.ask_meanwhile(rt, alloc, "client 1|PING");
    assert!(rt; pair.reply_often(rt, alloc, 100) > 0);
    assert_answers(rt, alloc, &pair, OK_AND_PONG);
    assert!(rt; !pair.has_request());
}

const ERROR: &str =
    "[Frame { strings: [b\"client 1\", b\"-ERR no quorum answered in time\\r\\n\"] }]";

// The read is given up: the client gets the error once, and nothing more is begun.
#[test]
fn no_quorum_for_the_read(rt: HostRuntime) {
    lose_quorum(&rt, rt.alloc());
}

fn lose_quorum(rt: &impl Abort, alloc: Global) {
    let mut pair = moved_pair(rt, alloc);
    for (words, wanted) in [
        ("tick", NOTHING),
        ("tick", NOTHING),
        ("tick", ERROR),
        ("tick", NOTHING),
    ] {
        pair.ask(rt, alloc, words);
        assert_answers(rt, alloc, &pair, wanted);
    }
    assert!(rt; !pair.has_request());
}

// The client's connection ends while the move is open: the move goes on, and nothing is read.
#[test]
fn a_client_that_leaves(rt: HostRuntime) {
    leave(&rt, rt.alloc());
}

fn leave(rt: &impl Abort, alloc: Global) {
    let mut pair = asked_pair(rt, alloc, A_MOVE);
    pair.ask_meanwhile(rt, alloc, "client 1");
    assert!(rt; pair.reply_often(rt, alloc, 100) > 0);
    assert_answers(rt, alloc, &pair, NOTHING);
    assert!(rt; pair.told_start(rt, alloc) == None);
}
