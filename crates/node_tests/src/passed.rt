//! Banks of positions before an object's start: a node that hears of the start closes them.
use crate::alone::handle;
use crate::checks::assert_prints;
use crate::logged::{Logged, started};
use bank::{Request, Status};
use bytes::Bytes;
use frames::Frame;
use node_log::Entry;
use node_messages::read_message;
use piece::Piece;
use std::alloc::Global;
use std::process::Abort;
use tag::Tag;

const TAG: Tag = Tag { number: 1, call: 7 };

// What a node tells that stores five bytes, or none.
const FIVE: &str = "[Frame { strings: [b\"client 1\", b\"$35\\r\\n\", b\"# Memory\\r\\n\
    used_memory_dataset:5\\r\\n\\r\\n\", b\"\\r\\n\"] }]";

const NONE: &str = "[Frame { strings: [b\"client 1\", b\"$35\\r\\n\", b\"# Memory\\r\\n\
    used_memory_dataset:0\\r\\n\\r\\n\", b\"\\r\\n\"] }]";

// Node 2 has the fragment of a finished write.
fn written(rt: &impl Abort, alloc: Global) -> Logged {
    let mut it = started(rt, alloc, Vec::new(alloc));
    let piece = Piece {
        point: 0,
        len: 5,
        bytes: Bytes::from_static(b"hello"),
    };
    it.ask(rt, alloc, Request::PreWrite(TAG, piece), 0);
    it.ask(rt, alloc, Request::Finalize(TAG), 0);
    it
}

// The node wanted this done for the last request, and now tells this of what it stores.
fn assert_did(rt: &impl Abort, alloc: Global, it: &mut Logged, wanted: &str, stores: &str) {
    assert_prints(rt, alloc, &it.wanted, wanted);
    let effects = handle(rt, alloc, &mut it.node, "client 1|INFO|memory");
    assert_prints(rt, alloc, &effects.answers, stores);
}

const SERVED: &str = "[b\"serve\", b\"node 1\"]";

// The pointer is final. The node hears of the start from a request, and closes its bank when it has replied, and not
// before.
#[test]
fn a_node_closes_its_bank(rt: HostRuntime) {
    close(&rt, rt.alloc());
}

fn close(rt: &impl Abort, alloc: Global) {
    let mut it = written(rt, alloc);
    it.ask(rt, alloc, Request::Spread(Status::Final), 0);
    assert_did(rt, alloc, &mut it, SERVED, FIVE);
    it.ask(rt, alloc, Request::Query, 1);
    let wanted = "[b\"serve\", b\"node 1\", b\"close\"]";
    assert_did(rt, alloc, &mut it, wanted, NONE);
}

// The pointer is unset. The node raises it, and then closes the bank. The log has the letter with which the node asks
// itself for this.
#[test]
fn a_node_raises_its_pointer(rt: HostRuntime) {
    raise(&rt, rt.alloc());
}

fn raise(rt: &impl Abort, alloc: Global) {
    let mut it = written(rt, alloc);
    it.ask(rt, alloc, Request::Query, 1);
    let wanted = "[b\"serve\", b\"node 1\", b\"serve\", b\"close\"]";
    assert_did(rt, alloc, &mut it, wanted, NONE);
    assert_logs(rt, alloc, &it.log);
}

// The letter has no call and no phase.
const RAISED: &str = "Letter { \
    layout: SharedLayout { shared: Layout { k: 1, members: [3, 2, 1] } }, \
    next: Some(SharedLayout { shared: Layout { k: 1, members: [4] } }), \
    start: Some(Start { position: 1, \
    layout: SharedLayout { shared: Layout { k: 1, members: [4] } } }), \
    asks_piece: false, told: None, \
    message: Message { call: 0, phase: 0, position: 0, member: 1, body: Request(Spread(Final)) } }";

// The last two entries say that the pointer was raised, and the bank closed.
fn assert_logs(rt: &impl Abort, alloc: Global, log: &[Entry]) {
    let [.., raised, closed] = log else {
        assert!(rt; false);
        return;
    };
    assert_letter(rt, alloc, raised);
    let wanted = "[b\"close\", b\"0\", b\"photo\"]";
    assert_prints(rt, alloc, &closed.strings(), wanted);
}

fn assert_letter(rt: &impl Abort, alloc: Global, entry: &Entry) {
    let mut strings = Vec::new(alloc);
    for string in entry.strings().iter().skip(1) {
        let shared = string.clone().expect(rt, "one more owner");
        strings.push(shared).expect(rt, "memory");
    }
    let frame = Frame::new(strings).expect(rt, "a frame");
    let message = read_message(alloc, &frame).expect(rt, "a message");
    assert_prints(rt, alloc, &message.named.letter, RAISED);
}

// A node that serves nothing for a letter, since it is not the member that this names, closes its bank too.
#[test]
fn a_node_that_only_hears(rt: HostRuntime) {
    hear(&rt, rt.alloc());
}

fn hear(rt: &impl Abort, alloc: Global) {
    let mut it = written(rt, alloc);
    it.hear(rt, alloc, 1);
    assert_did(rt, alloc, &mut it, "[b\"serve\", b\"close\"]", NONE);
}

// The start is two positions later, and the node has not heard of the next one. So it keeps its bank until it hears of
// that position.
#[test]
fn a_node_that_cannot_raise_its_pointer(rt: HostRuntime) {
    wait_for_position(&rt, rt.alloc());
}

fn wait_for_position(rt: &impl Abort, alloc: Global) {
    let mut it = written(rt, alloc);
    it.ask(rt, alloc, Request::Query, 2);
    assert_did(rt, alloc, &mut it, SERVED, FIVE);
    it.ask(rt, alloc, Request::Spread(Status::Pending), 0);
    let wanted = "[b\"serve\", b\"node 1\", b\"serve\", b\"close\"]";
    assert_did(rt, alloc, &mut it, wanted, NONE);
}

// Node 2 has raised its pointer, and closed its bank.
fn closed(rt: &impl Abort, alloc: Global) -> Logged {
    let mut it = written(rt, alloc);
    it.ask(rt, alloc, Request::Query, 1);
    it
}

// A node that starts again from the log has closed the bank: it declines a fetch, and answers all else.
#[test]
fn a_closed_bank_stays_closed(rt: HostRuntime) {
    let before = closed(&rt, rt.alloc());
    assert_starts_closed(&rt, rt.alloc(), before.log);
}

fn assert_starts_closed(rt: &impl Abort, alloc: Global, log: Vec<Entry>) {
    let mut it = started(rt, alloc, log);
    it.ask(rt, alloc, Request::Fetch(TAG), 1);
    assert_did(rt, alloc, &mut it, "[]", NONE);
    it.ask(rt, alloc, Request::Query, 1);
    assert_did(rt, alloc, &mut it, "[b\"node 1\"]", NONE);
}

// The same of a log that was written anew.
#[test]
fn a_closed_bank_in_a_log_written_anew(rt: HostRuntime) {
    rewrite(&rt, rt.alloc());
}

fn rewrite(rt: &impl Abort, alloc: Global) {
    let before = closed(rt, alloc);
    let log = before.node.entries_anew().expect(rt, "memory");
    assert_starts_closed(rt, alloc, log.expect(rt, "no move is open"));
}

// The node stops before the last entry of its log is synced, or the last two: once it has started again, it closes the
// bank at the next letter.
#[test]
fn a_stop_before_the_bank_is_closed(rt: HostRuntime) {
    stop(&rt, rt.alloc(), 1, "[b\"node 1\", b\"close\"]");
    stop(&rt, rt.alloc(), 2, "[b\"node 1\", b\"serve\", b\"close\"]");
}

fn stop(rt: &impl Abort, alloc: Global, lost: u32, wanted: &str) {
    let mut log = closed(rt, alloc).log;
    for _ in 0..lost {
        assert!(rt; log.pop().is_some());
    }
    let mut it = started(rt, alloc, log);
    assert_did(rt, alloc, &mut it, "[]", FIVE);
    it.ask(rt, alloc, Request::Query, 1);
    assert_did(rt, alloc, &mut it, wanted, NONE);
}
