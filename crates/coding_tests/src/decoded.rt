//! Values that fragments give back, and fragments that give none.
use crate::by_hand::{BAD, Bad, ISA_L, ONE, Row, SMALL, TWO, ZERO};
use crate::same::{are_all, assert_row, len_of};
use bytes::Bytes;
use decoder::{Decoded, decode, decode_into};
use piece::Piece;
use std::alloc::Global;
use std::process::Abort;
use tag::Refusal;

fn piece_of(point: u8, len: u32, fragment: &'static [u8]) -> Piece {
    Piece {
        point,
        len,
        bytes: Bytes::from_static(fragment),
    }
}

fn fragment_at(fragments: &[&'static [u8]], i: usize) -> &'static [u8] {
    match fragments.get(i) {
        Some(fragment) => fragment,
        None => b"",
    }
}

/// Returns the pieces with these points and fragments, of a value of `len` bytes.
fn pieces_of(
    rt: &impl Abort,
    alloc: Global,
    len: u32,
    points: &[u8],
    fragments: &[&'static [u8]],
) -> Vec<Piece> {
    let mut pieces = Vec::new(alloc);
    for i in 0..points.len() {
        pieces
            .push(piece_of(points[i], len, fragment_at(fragments, i)))
            .expect(rt, "room for a piece");
    }
    pieces
}

fn is_decoded(decoded: &Decoded, k: u8, value: &[u8]) -> bool {
    decoded.k() == k && decoded.pieces().len() == k as usize && decoded.value().as_slice() == value
}

/// Returns whether `decode` gives this value of these pieces, and keeps them and k.
pub(crate) fn decodes(alloc: Global, k: u8, pieces: Vec<Piece>, value: &[u8]) -> bool {
    match decode(alloc, k, len_of(value.len()), pieces) {
        Ok(decoded) => is_decoded(&decoded, k, value),
        Err(_) => false,
    }
}

/// Returns whether `decode_into` gives this value of these fragments.
pub(crate) fn decodes_into(
    k: u8,
    points: &[u8],
    fragments: &[&[u8]],
    out: &mut [u8],
    value: &[u8],
) -> bool {
    match decode_into(k, points, fragments, out) {
        Ok(()) => *out == *value,
        Err(_) => false,
    }
}

fn gives_back(rt: &impl Abort, alloc: Global, row: &Row) -> bool {
    let len = len_of(row.value.len());
    let pieces = pieces_of(rt, alloc, len, row.points, row.fragments);
    decodes(alloc, row.k, pieces, row.value)
}

fn gives_back_into(row: &Row) -> bool {
    let mut room = [0xAA; 64];
    match room.get_mut(..row.value.len()) {
        Some(out) => decodes_into(row.k, row.points, row.fragments, out, row.value),
        None => false,
    }
}

fn assert_table(rt: &impl Abort, alloc: Global, table: &[Row]) {
    for place in 0..table.len() {
        let row = &table[place];
        assert_row(
            rt,
            place,
            gives_back(rt, alloc, row) && gives_back_into(row),
        );
    }
}

#[test]
fn gives_back_small_values(rt: HostRuntime) {
    assert_table(&rt, rt.alloc(), &SMALL);
}

#[test]
fn decodes_what_isa_l_coded(rt: HostRuntime) {
    assert_table(&rt, rt.alloc(), &ISA_L);
}

pub(crate) fn is_bad_pieces(refusal: Refusal) -> bool {
    matches!(refusal, Refusal::BadPieces)
}

/// Returns whether `decode` refuses the row's fragments, as those of a value of `of` bytes.
fn refuses(rt: &impl Abort, alloc: Global, row: &Bad, of: u32) -> bool {
    let pieces = pieces_of(rt, alloc, of, row.points, row.fragments);
    match decode(alloc, row.k, len_of(row.len), pieces).err() {
        Some(refusal) => is_bad_pieces(refusal),
        None => false,
    }
}

/// Returns whether `decode_into` refuses the row's fragments, and leaves the bytes as they were.
fn refuses_into(row: &Bad) -> bool {
    let mut room = [0xAA; 5];
    match room.get_mut(..row.len) {
        Some(out) => leaves(row, out),
        None => false,
    }
}

fn leaves(row: &Bad, out: &mut [u8]) -> bool {
    match decode_into(row.k, row.points, row.fragments, out) {
        Ok(()) => false,
        Err(refusal) => is_bad_pieces(refusal) && are_all(out, 0xAA),
    }
}

#[test]
fn refuses_bad_pieces(rt: HostRuntime) {
    for place in 0..BAD.len() {
        let row = &BAD[place];
        let holds = refuses(&rt, rt.alloc(), row, len_of(row.len)) && refuses_into(row);
        assert_row(&rt, place, holds);
    }
}

/// What only `decode` can be asked.
static BAD_TO_DECODE: [(Bad, u32); 3] = [
    // Pieces of a value of another length.
    (
        Bad {
            k: 2,
            len: 5,
            points: &[0, 1],
            fragments: &[ZERO, ONE],
        },
        6,
    ),
    // No blocks, and a value above the limit.
    (
        Bad {
            k: 0,
            len: 0,
            points: &[],
            fragments: &[],
        },
        0,
    ),
    (
        Bad {
            k: 1,
            len: 16_777_217,
            points: &[0],
            fragments: &[b"A"],
        },
        16_777_217,
    ),
];

#[test]
fn refuses_other_pieces(rt: HostRuntime) {
    for place in 0..BAD_TO_DECODE.len() {
        let (row, of) = &BAD_TO_DECODE[place];
        assert_row(&rt, place, refuses(&rt, rt.alloc(), row, *of));
    }
}

/// What only `decode_into` can be asked: no blocks, and more fragments than points.
static BAD_TO_DECODE_INTO: [Bad; 2] = [
    Bad {
        k: 0,
        len: 0,
        points: &[],
        fragments: &[],
    },
    Bad {
        k: 2,
        len: 5,
        points: &[0, 1],
        fragments: &[ZERO, ONE, TWO],
    },
];

#[test]
fn leaves_the_bytes_where_it_refuses(rt: HostRuntime) {
    for place in 0..BAD_TO_DECODE_INTO.len() {
        assert_row(&rt, place, refuses_into(&BAD_TO_DECODE_INTO[place]));
    }
}
