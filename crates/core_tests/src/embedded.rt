//! Writes and reads by nodes that another program embeds, and what such a node refuses.
use crate::members::{
    Cluster, FILE, GET, Member, OK, READ, SET, new_cluster, new_member, push_all,
};
use node_core::{CoreError, open};
use std::alloc::Global;
use std::process::Abort;

fn assert_told(rt: &impl Abort, cluster: &Cluster, wanted: &[u8]) {
    assert_eq!(rt; cluster.told.as_slice(), wanted);
}

// A client writes a value at the first node, whose core is dropped, and opened again from its log; then a client reads
// the value there.
#[test]
fn keeps_a_value(rt: HostRuntime) {
    write_and_read(&rt, rt.alloc());
}

fn write_and_read(rt: &impl Abort, alloc: Global) {
    let mut cluster = new_cluster(rt, alloc);
    cluster.tell(rt, SET);
    cluster.play(rt, alloc, 8);
    assert_told(rt, &cluster, OK);
    read_again(rt, alloc, &mut cluster);
}

fn read_again(rt: &impl Abort, alloc: Global, cluster: &mut Cluster) {
    if let Some(first) = cluster.members.get_mut(0) {
        let again = new_member(rt, alloc, 1, &first.log);
        *first = again;
    }
    cluster.told.clear();
    cluster.tell(rt, GET);
    cluster.play(rt, alloc, 8);
    assert_told(rt, cluster, READ);
}

// The log of a core is written anew; a core that is opened from it gives the value back.
#[test]
fn writes_its_log_anew(rt: HostRuntime) {
    rewrite_and_read(&rt, rt.alloc());
}

fn rewrite_and_read(rt: &impl Abort, alloc: Global) {
    let mut cluster = new_cluster(rt, alloc);
    cluster.tell(rt, SET);
    cluster.play(rt, alloc, 8);
    if let Some(first) = cluster.members.get_mut(0) {
        rewrite(rt, first);
    }
    read_again(rt, alloc, &mut cluster);
}

fn rewrite(rt: &impl Abort, member: &mut Member) {
    assert!(rt; !member.core.should_rewrite());
    let anew = member.core.log_anew().expect(rt, "memory");
    let anew = anew.expect(rt, "no move is open");
    assert!(rt; member.core.log_length() == anew.len() as u64);
    assert!(rt; member.core.keep_log() && !member.core.keep_log());
    assert!(rt; member.core.log_length() == member.log.len() as u64);
    let again = member.core.log_anew().expect(rt, "memory");
    member.log.clear();
    push_all(rt, &mut member.log, &again.expect(rt, "no move is open"));
}

// A log whose last entry is cut short is cut behind the others. Another log, or another file, is refused.
#[test]
fn opens_what_it_may(rt: HostRuntime) {
    open_cut_short(&rt, rt.alloc());
    assert_refused(&rt, rt.alloc());
}

fn open_cut_short(rt: &impl Abort, alloc: Global) {
    let first = new_member(rt, alloc, 1, b"");
    let end = first.log.len().saturating_sub(1);
    let found = first.log.get(..end).unwrap_or(&[]);
    let opened = open(alloc, FILE, 1, found).expect(rt, "a core");
    assert!(rt; opened.cut > 0);
    assert_eq!(rt; opened.length.checked_add(opened.cut), Some(end as u64));
}

fn assert_refused(rt: &impl Abort, alloc: Global) {
    let first = new_member(rt, alloc, 1, b"");
    assert!(rt; matches!(open(alloc, FILE, 2, &first.log), Err(CoreError::BadLog(_))));
    assert!(rt; matches!(open(alloc, FILE, 9, b""), Err(CoreError::NoNode(9))));
    assert!(rt; matches!(open(alloc, b"nodes", 1, b""), Err(CoreError::BadFile(_))));
}

// A core at which something comes that is no frame has stopped.
#[test]
fn stops_for_good(rt: HostRuntime) {
    assert_stops(&rt, rt.alloc());
}

fn assert_stops(rt: &impl Abort, alloc: Global) {
    let mut first = new_member(rt, alloc, 1, b"");
    assert!(rt;
        matches!(
            first.core.handle_frames(b"no frame"),
            Err(CoreError::Ended(_))
        )
    );
    assert!(rt; first.core.is_stopped());
    assert!(rt; matches!(first.core.handle_frames(b""), Err(CoreError::Stopped)));
    assert!(rt; matches!(first.core.log_anew(), Err(CoreError::Stopped)));
}
