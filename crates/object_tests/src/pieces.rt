//! The piece that the tests of banks and mails write.
use bank::HeldPiece;
use bytes::Bytes;
use piece::Piece;
use std::alloc::Global;
use std::process::Abort;

/// The fragment of `hello` at point 1 for two blocks, 68656c and 6c6f00: their sum.
const FRAGMENT: &[u8] = b"\x04\x0a\x6c";

/// Returns the piece of this fragment.
pub(crate) fn piece() -> Piece {
    Piece {
        point: 1,
        len: 5,
        bytes: Bytes::from_static(FRAGMENT),
    }
}

/// Returns whether this is the same piece.
pub(crate) fn is_piece(piece: &Piece) -> bool {
    piece.point == 1 && piece.len == 5 && piece.bytes.as_slice() == FRAGMENT
}

/// Returns the same piece, as an answer holds it.
pub(crate) fn held(rt: &impl Abort, alloc: Global) -> HeldPiece {
    HeldPiece::new(alloc, piece()).expect(rt, "a piece")
}
