//! The order in which a node wants entries logged and frames sent.
use crate::pair::{Pair, asked_pair};
use node_effects::Output;
use std::alloc::Global;
use std::process::Abort;

// How many frames stand before the first entry. None if there is no entry.
fn sent_before_entry(outputs: &[Output]) -> Option<usize> {
    outputs
        .iter()
        .position(|output| matches!(output, Output::Log(_)))
}

#[test]
fn requests_stand_before_the_entry_of_the_node_itself(rt: HostRuntime) {
    assert_order(&rt, rt.alloc());
}

fn assert_order(rt: &impl Abort, alloc: Global) {
    let mut pair = asked_pair(rt, alloc, "client 1|SET|photo|hello");
    let phases = pair.phases_before_the_entry(rt, alloc);
    assert!(rt; phases > 0 && phases < 8);
}

impl Pair {
    // How many phases of a write go by before the first node logs an entry.
    fn phases_before_the_entry(&mut self, rt: &impl Abort, alloc: Global) -> u32 {
        for phase in 0..8u32 {
            if let Some(count) = sent_before_entry(&self.last.outputs) {
                assert!(rt; count == 2);
                return phase;
            }
            self.reply(rt, alloc);
        }
        8
    }
}
