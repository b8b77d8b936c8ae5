//! What the banks of an object keep that collect.

use bank::Bank;
use cluster::Cluster;
use register::Register;
use std::process::Abort;

/// The bytes of a fragment of a value of two bytes, for k 2.
const FRAGMENT: u64 = 1;

// How many pieces a bank keeps of finalized tags, or of those that are only pre-written.
fn kept_pieces(bank: &Bank, finalized: bool) -> u64 {
    let mut count = 0u64;
    for place in 0..bank.count() {
        let (_, row) = bank.kept(place);
        if row.piece().is_some() && row.is_finalized() == finalized {
            count = count.saturating_add(1);
        }
    }
    count
}

// The most bytes of the object's bank of this server, which keeps the pieces of at most so many finalized tags.
fn most_bytes(rt: &impl Abort, register: &Register, server: u8, most: u64) -> u64 {
    let bank = register.bank_view(0, server).expect(rt, "a bank");
    assert!(rt; kept_pieces(bank, true) <= most);
    let pieces = most.saturating_add(kept_pieces(bank, false));
    pieces.saturating_mul(FRAGMENT)
}

/// No bank keeps the pieces of more than `delta` + 1 finalized tags, and all together store no more than the fragments
/// of so many and of what is only pre-written.
pub(crate) fn keeps_few(rt: &impl Abort, cluster: &Cluster, delta: u32) {
    let register = cluster.register("a").expect(rt, "the object");
    let most = u64::from(delta).saturating_add(1);
    let mut bound = 0u64;
    for server in 0..4u8 {
        bound = bound.saturating_add(most_bytes(rt, register, server, most));
    }
    assert!(rt; cluster.stored_all() <= bound);
}
