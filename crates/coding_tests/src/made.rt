//! What the encoder makes gives the value back, and its other fragments.

ghost use Rattle.std.specs.Prelude.{◌≡◌, ◌<◌, ◌≤◌};

use crate::decoded::{decodes, decodes_into};
use crate::repaired::repairs;
use crate::same::{assert_row, filled};
use bytes::Bytes;
use encoder::{Coded, encode};
use piece::Piece;
use std::alloc::Global;
use std::process::Abort;

fn value_of_len(rt: &impl Abort, alloc: Global, len: usize) -> Bytes {
    Bytes::from_vec(filled(rt, alloc, len)).expect(rt, "so many bytes")
}

/// Returns the points of all pieces, the last one first.
fn last_points() -> [u8; 255] {
    let mut points = [0; 255];
    let mut next = 255u8;
    for point in points.iter_mut() {
        next = next.wrapping_sub(1);
        *point = next;
    }
    points
}

/// Returns the fragments of the last `k` of the 255 pieces, the last one first.
fn last_fragments<'a>(rt: &impl Abort, alloc: Global, k: u8, coded: &'a Coded) -> Vec<&'a [u8]>
    requires { coded.now.n ≡ 255 }
{
    let mut fragments = Vec::new(alloc);
    for i in 0..k {
        fragments
            .push(coded.piece_at(254 - i).bytes.as_slice())
            .expect(rt, "room for a fragment");
    }
    fragments
}

/// Returns the last `k` of the 255 pieces, the last one first.
fn last_pieces(rt: &impl Abort, alloc: Global, k: u8, coded: &Coded) -> Vec<Piece>
    requires { coded.now.n ≡ 255 }
{
    let mut pieces = Vec::new(alloc);
    for i in 0..k {
        let piece = coded.piece_at(254 - i).clone().expect(rt, "a piece");
        pieces.push(piece).expect(rt, "room for a piece");
    }
    pieces
}

/// Returns whether `decode_into` gives this value of these last fragments.
fn gives_back(rt: &impl Abort, alloc: Global, k: u8, fragments: &[&[u8]], value: &[u8]) -> bool {
    let points = last_points();
    let mut out = vec![in alloc; 0xAA; value.len()].expect(rt, "so many bytes");
    decodes_into(k, &points[..k as usize], fragments, &mut out, value)
}

/// Returns whether `repair_into` gives the fragment at this point of these last ones.
fn gives_fragment(
    rt: &impl Abort,
    alloc: Global,
    k: u8,
    fragments: &[&[u8]],
    coded: &Coded,
    point: u8,
) -> bool
    requires threshold { 1 ≤ k }
    requires count { coded.now.n ≡ 255 }
    requires place { point < 255 }
{
    let points = last_points();
    let len = coded.value().len();
    let mut out = vec![in alloc; 0xAA; len.div_ceil(k as usize)].expect(rt, "so many bytes");
    let fragment = coded.piece_at(point).bytes.as_slice();
    repairs(
        k,
        len,
        &points[..k as usize],
        fragments,
        point,
        &mut out,
        fragment,
    )
}

fn gives_all(rt: &impl Abort, alloc: Global, k: u8, coded: &Coded, value: &[u8]) -> bool
    requires threshold { 1 ≤ k }
    requires count { coded.now.n ≡ 255 }
{
    let fragments = last_fragments(rt, alloc, k, coded);
    gives_back(rt, alloc, k, &fragments, value)
        && gives_fragment(rt, alloc, k, &fragments, coded, 0)
        && gives_fragment(rt, alloc, k, &fragments, coded, 7)
        && gives_fragment(rt, alloc, k, &fragments, coded, 254)
}

/// Returns whether the last `k` of the 255 pieces give back this value and some of the fragments.
pub(crate) fn keeps(rt: &impl Abort, alloc: Global, k: u8, value: &[u8], coded: &Coded) -> bool {
    assert!(rt; k >= 1 && coded.n() == 255);
    decodes(alloc, k, last_pieces(rt, alloc, k, coded), value)
        && gives_all(rt, alloc, k, coded, value)
}

fn is_given_back(rt: &impl Abort, alloc: Global, k: u8, len: usize) -> bool {
    let value = value_of_len(rt, alloc, len);
    let coded = encode(alloc, k, 255, value_of_len(rt, alloc, len)).expect(rt, "fragments");
    keeps(rt, alloc, k, value.as_slice(), &coded)
}

// Lengths that loops over lanes, passes of six blocks, blocks of 32 bytes and a last block that is not whole could get
// wrong, in each room on the stack, and values that go in stripes of each width.
static LENGTHS: [(u8, usize); 21] = [
    (1, 100),
    (2, 64),
    (3, 100),
    (4, 256),
    (5, 1),
    (5, 100),
    (7, 1),
    (7, 500),
    (8, 0),
    (8, 511),
    (16, 1000),
    (16, 1040),
    (17, 2209),
    (17, 5000),
    (64, 4096),
    (65, 3001),
    (255, 254),
    (255, 9000),
    (7, 300_001),
    (65, 270_000),
    (129, 262_146),
];

#[test]
fn gives_back_what_the_encoder_made(rt: HostRuntime) {
    for place in 0..LENGTHS.len() {
        let (k, len) = LENGTHS[place];
        assert_row(&rt, place, is_given_back(&rt, rt.alloc(), k, len));
    }
}
