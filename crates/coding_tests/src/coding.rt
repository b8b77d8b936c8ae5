//! Coding a value by the pool, and the pieces that are expected.

use bytes::Bytes;
use coding_pool::{Gate, encode_all};
use encoder::Coded;
use piece::Piece;
use std::alloc::Global;
use std::process::Abort;
use std::sync::Wait;
use std::thread::Threads;

/// Returns the pieces of a value, made by so many workers.
pub(crate) fn code<G: Gate, R: Threads + Wait + Abort + Sync>(
    rt: &R,
    alloc: Global,
    workers: usize,
    gate: &G,
    k: u8,
    n: u8,
    value: &'static [u8],
) -> Coded {
    let coded = encode_all(rt, alloc, workers, gate, k, n, Bytes::from_static(value));
    coded.expect(rt, "the value is coded")
}

fn is_piece(rt: &impl Abort, piece: &Piece, point: u8, fragment: Option<&&[u8]>) {
    assert!(rt; piece.point == point);
    assert!(rt; fragment == Some(&piece.bytes.as_slice()));
}

/// Each piece is at its point, and these are the fragments in the order of the points.
pub(crate) fn has_fragments<R: Abort>(rt: &R, coded: &Coded, fragments: &[&[u8]]) {
    assert!(rt; usize::from(coded.n()) == fragments.len());
    for point in 0..coded.n() {
        is_piece(
            rt,
            coded.piece_at(point),
            point,
            fragments.get(usize::from(point)),
        );
    }
}
