//! What tests do to an object and to a cluster.

use bytes::Bytes;
use cluster::Cluster;
use driver::Chooser;
use layout::Layout;
use register::{Receipt, Register};
use std::alloc::Global;
use std::process::Abort;
use tag::{Refusal, Stamp};

// More turns than any call here takes.
pub(crate) const ENOUGH_TURNS: u64 = 100_000;

// An object alone, made by step 1.
pub(crate) fn object(rt: &impl Abort, alloc: Global, k: u8, members: &[u8]) -> Register {
    let layout = Layout::new(k, members).expect(rt, "a layout");
    Register::new(alloc, layout, None, 1).expect(rt, "an object")
}

// A read of an object begins as the step of this number.
pub(crate) fn read_at(rt: &impl Abort, object: &mut Register, now: Stamp) -> Result<u64, Refusal> {
    assert!(rt; object.last() < now);
    object.call_read(now)
}

// So many servers, one layout of these members, and the object a.
pub(crate) fn one_object(
    rt: &impl Abort,
    alloc: Global,
    servers: u8,
    k: u8,
    members: &[u8],
) -> Cluster {
    let mut cluster = Cluster::new(alloc, servers);
    let layout = Layout::new(k, members).expect(rt, "a layout");
    cluster.add_layout(layout).expect(rt, "a layout's number");
    cluster.create("a", 0).expect(rt, "an object");
    cluster
}

// A whole write, by its messages as they are chosen.
pub(crate) fn write<C: Chooser>(
    rt: &impl Abort,
    alloc: Global,
    cluster: &mut Cluster,
    name: &str,
    text: &'static [u8],
    chooser: &mut C,
) -> Receipt {
    let value = Bytes::from_static(text);
    driver::write(alloc, cluster, name, value, chooser, ENOUGH_TURNS).expect(rt, "a write")
}

// A whole read, by its messages as they are chosen.
pub(crate) fn read<C: Chooser>(
    rt: &impl Abort,
    alloc: Global,
    cluster: &mut Cluster,
    name: &str,
    chooser: &mut C,
) -> Receipt {
    driver::read(alloc, cluster, name, chooser, ENOUGH_TURNS).expect(rt, "a read")
}

// Compares the steps of a call and of its answer.
pub(crate) fn assert_steps(rt: &impl Abort, receipt: &Receipt, called: Stamp, answered: Stamp) {
    assert!(rt; receipt.called == called && receipt.answered == answered);
}

// Compares the value of a call.
pub(crate) fn assert_value(rt: &impl Abort, value: Option<&Bytes>, text: &[u8]) {
    match value {
        Some(value) => assert!(rt; value.as_slice() == text),
        None => panic!(rt; "no value"),
    }
}
