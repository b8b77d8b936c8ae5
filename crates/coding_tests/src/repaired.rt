//! Fragments from k others.

ghost use Rattle.std.specs.Prelude.{◌≡◌, ◌≤◌, length};
ghost use Rattle.encoder.specs.Fragment.{fragment_len};

use crate::by_hand::{BAD, Bad, ONE, THREE, TWO, ZERO};
use crate::decoded::is_bad_pieces;
use crate::same::{are_all, assert_row};
use decoder::repair_into;

/// Returns whether `repair_into` gives this fragment of these.
pub(crate) fn repairs(
    k: u8,
    len: usize,
    points: &[u8],
    fragments: &[&[u8]],
    point: u8,
    out: &mut [u8],
    fragment: &[u8],
) -> bool
    requires threshold { 1 ≤ k }
    requires room { length out.old ≡ fragment_len k len }
{
    match repair_into(k, points, fragments, point, len, out) {
        Ok(()) => *out == *fragment,
        Err(_) => false,
    }
}

/// A fragment of `hello` and its point, and the two others that give it back.
struct Lost {
    point: u8,
    fragment: &'static [u8],
    points: &'static [u8],
    fragments: &'static [&'static [u8]],
}

static LOST: [Lost; 5] = [
    Lost {
        point: 0,
        fragment: ZERO,
        points: &[1, 2],
        fragments: &[ONE, TWO],
    },
    Lost {
        point: 1,
        fragment: ONE,
        points: &[3, 0],
        fragments: &[THREE, ZERO],
    },
    Lost {
        point: 2,
        fragment: TWO,
        points: &[1, 3],
        fragments: &[ONE, THREE],
    },
    Lost {
        point: 3,
        fragment: THREE,
        points: &[0, 2],
        fragments: &[ZERO, TWO],
    },
    Lost {
        point: 2,
        fragment: TWO,
        points: &[2, 1],
        fragments: &[TWO, ONE],
    },
];

fn is_repaired(lost: &Lost) -> bool {
    let mut out = [0xAA; 3];
    repairs(
        2,
        5,
        lost.points,
        lost.fragments,
        lost.point,
        &mut out,
        lost.fragment,
    )
}

#[test]
fn repairs_each_fragment_from_two_others(rt: HostRuntime) {
    for place in 0..LOST.len() {
        assert_row(&rt, place, is_repaired(&LOST[place]));
    }
}

/// Returns whether `repair_into` refuses the row's fragments, and leaves the bytes as they were.
fn refuses(row: &Bad) -> bool {
    let mut room = [0xAA; 5];
    if row.k < 1 {
        return false;
    }
    match room.get_mut(..row.len.div_ceil(row.k as usize)) {
        Some(out) => leaves(row, out),
        None => false,
    }
}

fn leaves(row: &Bad, out: &mut [u8]) -> bool
    requires threshold { 1 ≤ row.now.k }
    requires room { length out.old ≡ fragment_len row.now.k row.now.len }
{
    match repair_into(row.k, row.points, row.fragments, 3, row.len, out) {
        Ok(()) => false,
        Err(refusal) => is_bad_pieces(refusal) && are_all(out, 0xAA),
    }
}

#[test]
fn repairs_nothing_from_bad_pieces(rt: HostRuntime) {
    for place in 0..BAD.len() {
        assert_row(&rt, place, refuses(&BAD[place]));
    }
}
