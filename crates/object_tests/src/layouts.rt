//! Layouts, with quorums counted by hand, and members of layouts.
use crate::same::assert_row;
use layout::{Layout, MemberSet};
use tag::Refusal;

// Each server once.
fn servers() -> [u8; 256] {
    let mut servers = [0; 256];
    let mut server = 0u8;
    for place in servers.iter_mut() {
        *place = server;
        server = server.wrapping_add(1);
    }
    servers
}

// Whether the first `n` servers have this quorum.
fn has_quorum(servers: &[u8; 256], n: usize, k: u8, quorum: u8) -> bool {
    match servers.get(..n) {
        Some(members) => is_quorum(k, members, quorum),
        None => false,
    }
}

fn is_quorum(k: u8, members: &[u8], quorum: u8) -> bool {
    match Layout::new(k, members) {
        Ok(layout) => layout.quorum() == quorum,
        Err(_) => false,
    }
}

// The number of members, k, and the quorum.
static QUORUMS: [(usize, u8, u8); 9] = [
    (3, 1, 2),
    (4, 2, 3),
    (5, 3, 4),
    (2, 2, 2),
    (1, 1, 1),
    (33, 2, 18),
    (255, 1, 128),
    (255, 100, 178),
    (255, 255, 255),
];

// The sizes are half of n + k, rounded up, counted by hand.
#[test]
fn gives_quorums(rt: HostRuntime) {
    let servers = servers();
    for place in 0..QUORUMS.len() {
        let (n, k, quorum) = QUORUMS[place];
        assert_row(&rt, place, has_quorum(&servers, n, k, quorum));
    }
}

fn is_layout(layout: &Layout) -> bool {
    layout.k() == 2
        && layout.n() == 3
        && layout.member(1) == 9
        && layout.point_of(8) == Some(2)
        && layout.point_of(0) == None
}

#[test]
fn names_members_by_their_points(rt: HostRuntime) {
    let layout = Layout::new(2, &[7, 9, 8]).expect(&rt, "a layout");
    assert!(rt; layout.n() == 3 && is_layout(&layout));
    let copy = layout.clone().expect(&rt, "a copy");
    assert!(rt; copy == layout);
}

fn is_refused(k: u8, members: &[u8]) -> bool {
    match Layout::new(k, members).err() {
        Some(refusal) => matches!(refusal, Refusal::BadLayout),
        None => false,
    }
}

#[test]
fn refuses_bad_layouts(rt: HostRuntime) {
    assert!(rt; is_refused(1, &[0, 0]) && is_refused(0, &[0, 1]) && is_refused(3, &[0, 1]));
    assert!(rt; is_refused(1, &servers()));
}

#[test]
fn counts_each_member_once(rt: HostRuntime) {
    let mut members = MemberSet::default();
    assert!(rt; members.insert(254) && !members.insert(254));
    assert!(rt; members.has(254) && !members.has(0) && members.count() == 1);
}
