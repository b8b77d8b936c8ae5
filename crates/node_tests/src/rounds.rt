//! What is to be done for frames that lie in memory.
use crate::alone::started_node;
use node_store::{LogEnd, gather_round};
use std::alloc::Global;
use std::process::Abort;

// A command of a client, and the first bytes of another frame.
const INPUT: &[u8] = b"*4\r\n$8\r\nclient 1\r\n$3\r\nSET\r\n$1\r\na\r\n$1\r\nb\r\n*1\r\n$4\r\nti";

#[test]
fn half_a_frame_is_left(rt: HostRuntime) {
    assert_left(&rt, rt.alloc());
}

fn assert_left(rt: &impl Abort, alloc: Global) {
    let mut node = started_node(rt, alloc);
    let end = LogEnd::new();
    let round = gather_round(alloc, &mut node, INPUT, end).expect(rt, "a round");
    assert_eq!(rt; round.rest, b"*1\r\n$4\r\nti".as_slice());
    assert!(rt; !round.batch.log.is_empty() && !round.batch.output.is_empty());
    let again = gather_round(alloc, &mut node, round.rest, end).expect(rt, "a round");
    assert!(rt; again.rest.len() == 10 && again.batch.log.is_empty());
}
