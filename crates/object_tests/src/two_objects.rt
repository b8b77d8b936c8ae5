//! A cluster of two objects.
use crate::acts::{assert_value, one_object, read, write};
use cluster::{Accounts, Cluster};
use driver::First;
use register::Receipt;
use std::alloc::Global;
use std::process::Abort;

/// A value written to each of two objects.
fn two_written(rt: &impl Abort, alloc: Global) -> Cluster {
    let mut cluster = one_object(rt, alloc, 3, 1, &[0, 1, 2]);
    cluster.create("b", 0).expect(rt, "an object");
    write_to(rt, alloc, &mut cluster, "a", b"AB", 0);
    write_to(rt, alloc, &mut cluster, "b", b"C", 1);
    cluster
}

/// Writes as the first call of the object at this place.
fn write_to(
    rt: &impl Abort,
    alloc: Global,
    cluster: &mut Cluster,
    name: &str,
    text: &'static [u8],
    place: u32,
) {
    let written = write(rt, alloc, cluster, name, text, &mut First);
    assert!(rt; written.object == place && written.call == 1);
}

/// Three bytes at each of three servers, as they are asked for.
fn assert_stored(rt: &impl Abort, cluster: &Cluster) {
    assert!(rt; cluster.stored_all() == 9 && cluster.mailed() == 0 && cluster.servers() == 3);
    for server in 0..cluster.servers() {
        assert!(rt; cluster.stored(server) == 3);
    }
}

/// Two bytes of the one object and one of the other at each of three servers, and none at a fourth.
fn assert_stored_apart(rt: &impl Abort, cluster: &Cluster) {
    let one = cluster.register("a").expect(rt, "an object");
    let other = cluster.register("b").expect(rt, "an object");
    for server in 0..3u8 {
        assert!(rt; one.stored(server) == 2 && other.stored(server) == 1);
    }
    assert!(rt; one.stored(3) == 0 && other.stored(3) == 0);
}

/// Three bytes at each of three servers, as the law tells them.
fn assert_told(rt: &impl Abort, told: &Accounts) {
    assert!(rt; told.servers.as_slice() == [3, 3, 3].as_slice());
    assert!(rt; told.stored == 9 && told.mailed == 0);
}

fn entries_count(rt: &impl Abort, cluster: &Cluster, name: &str) -> usize {
    cluster.entries(name).expect(rt, "entries").len()
}

#[test]
fn reads_one_of_two_objects(rt: HostRuntime) {
    let mut cluster = two_written(&rt, rt.alloc());
    let answered = read(&rt, rt.alloc(), &mut cluster, "b", &mut First);
    assert_read(&rt, &cluster, answered);
    assert_kept(&rt, &cluster);
}

/// The third call of the cluster, which was made last, read the value of the second object.
fn assert_read(rt: &impl Abort, cluster: &Cluster, answered: Receipt) {
    assert!(rt; cluster.calls() == 3 && cluster.counter() == answered.answered);
    assert_value(rt, answered.value.as_ref(), b"C");
}

/// The second object has two entries, and both objects have their bytes.
fn assert_kept(rt: &impl Abort, cluster: &Cluster) {
    assert!(rt; entries_count(rt, cluster, "b") == 2);
    assert_stored(rt, cluster);
    assert_stored_apart(rt, cluster);
    cluster.soundness();
    assert_told(rt, &cluster.atomic());
}
