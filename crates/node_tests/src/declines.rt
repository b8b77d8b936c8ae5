//! A request for a fragment that comes to a node after it has closed its bank.
use crate::alone::handle;
use crate::checks::assert_prints;
use crate::pair::{Pair, asked_pair, carried, message_in};
use bank::Request;
use frames::Frame;
use mail::Body;
use node_effects::{Effects, Machine};
use std::alloc::Global;
use std::process::Abort;

const OK: &str = "[Frame { strings: [b\"client 1\", b\"+OK\\r\\n\"] }]";

// One bank is closed, and has declined one request, which was no dropped frame.
const ONE_IS_DECLINED: &str =
    "[Frame { strings: [b\"client 1\", b\"$307\\r\\n\", b\"# Node\\r\\nprogram:casd\\r\\n\
    node:1\\r\\nmover:1\\r\\ncluster:e3d8349187efaec3d6636ec0f349964c\\r\\nepoch:1\\r\\nobjects:1\\r\\n\
    bytes_stored:5\\r\\nclosed_banks:1\\r\\nclients:1\\r\\ncalls_open:0\\r\\ncommands_answered:2\\r\\n\
    calls_given_up:0\\r\\nframes_dropped:0\\r\\nframes_of_other_clusters:0\\r\\nfetches_declined:1\\r\\n\
    bytes_of_the_log:0\\r\\nnodes: 1 2 3\\r\\nlater:\\r\\n\\r\\n\", b\"\\r\\n\"] }]";

// The second node's read asks the first node for its fragment, but the request comes there only when the object has
// moved away.
#[test]
fn a_late_fetch_is_declined(rt: HostRuntime) {
    decline(&rt, rt.alloc());
}

fn decline(rt: &impl Abort, alloc: Global) {
    let mut pair = asked_pair(rt, alloc, "client 1|SET|a|hello");
    answer_ok(rt, alloc, &mut pair);
    let late = late_fetch(rt, alloc, &mut pair);
    pair.ask(rt, alloc, "client 1|MOVE|a|1|1");
    answer_ok(rt, alloc, &mut pair);
    let effects = pair.first.handle(late).expect(rt, "effects");
    assert!(rt; effects.answers.is_empty() && effects.outputs.is_empty());
    pair.ask(rt, alloc, "client 1|INFO|node");
    assert_prints(rt, alloc, &pair.last.answers, ONE_IS_DECLINED);
}

// The second node replies until the first node's client gets `OK`.
fn answer_ok(rt: &impl Abort, alloc: Global, pair: &mut Pair) {
    pair.reply_often(rt, alloc, 100);
    assert_prints(rt, alloc, &pair.last.answers, OK);
}

// A client of the second node reads, and the first node replies until the second one fetches. Returns this request.
fn late_fetch(rt: &impl Abort, alloc: Global, pair: &mut Pair) -> Frame {
    let mut asked = handle(rt, alloc, &mut pair.second, "client 2|GET|a");
    for _ in 0..100 {
        let request = carried(rt, alloc, &asked, b"node 1", "node 2");
        if is_fetch(rt, alloc, &request) {
            return request;
        }
        asked = replied(rt, alloc, pair, request);
    }
    assert!(rt; false);
    carried(rt, alloc, &asked, b"node 1", "node 2")
}

// What the second node wants done when the first one has replied to its request.
fn replied(rt: &impl Abort, alloc: Global, pair: &mut Pair, request: Frame) -> Effects {
    let served = pair.first.handle(request).expect(rt, "effects");
    let reply = carried(rt, alloc, &served, b"node 2", "node 1");
    pair.second.handle(reply).expect(rt, "effects")
}

fn is_fetch(rt: &impl Abort, alloc: Global, request: &Frame) -> bool {
    match &message_in(rt, alloc, request.strings())
        .named
        .letter
        .message
        .body
    {
        Body::Request(Request::Fetch(_)) => true,
        _ => false,
    }
}
