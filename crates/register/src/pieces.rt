//! Comparison of encoded values, and of decoded values with the pieces that a phase took.

ghost use Rattle.std.specs.Prelude.{◌≡◌, option_copied};
ghost use Rattle.std.specs.List.{list_all};
ghost use Rattle.decoder.specs.Decoded.{IsDecoded};
ghost use Rattle.register.specs.Coding.{bytes_eq, is_coded_for, same_piece, is_recorded, is_decoded_from, piece_by};

use bank::Answer;
use bytes::Bytes;
use decoder::Decoded;
use encoder::Coded;
use kernels::same;
use layout::Layout;
use mail::Taken;
use piece::Piece;

// Whether two slices hold the same bytes.
fn are_same(a: &[u8], b: &[u8]) -> bool
    ensures { result ≡ bytes_eq a.now b.now }
{
    a.len() == b.len() && same(a, b)
}

/// Returns whether `coded` is this value, encoded for this layout.
pub(crate) fn is_coded_for(layout: &Layout, value: &Bytes, coded: &Coded) -> bool
    ensures { result ≡ is_coded_for layout.now value.now coded.now }
{
    are_same(coded.value().as_slice(), value.as_slice())
        && coded.k() == layout.k()
        && coded.n() == layout.n()
}

// Whether the two pieces are the same.
fn is_same(a: &Piece, b: &Piece) -> bool
    ensures { result ≡ same_piece a.now b.now }
{
    a.point == b.point && a.len == b.len && are_same(a.bytes.as_slice(), b.bytes.as_slice())
}

// Whether one of the recorded replies carries this piece.
fn is_recorded(replies: &[Taken], piece: &Piece) -> bool
    ensures { result ≡ is_recorded replies.now piece.now }
{
    for taken in replies {
        if let Answer::Piece(Some(other)) = &taken.reply.answer
            && is_same(piece, other.piece())
        {
            return true;
        }
    }
    false
}

/// Returns whether the value was decoded from k pieces, each carried by one of the recorded replies.
pub(crate) fn is_decoded_from(k: u8, replies: &[Taken], decoded: &Decoded) -> bool
    ensures value { result ≡ is_decoded_from k replies.now decoded.now }
    ensures decoded { IsDecoded decoded.now }
{
    let pieces = decoded.pieces();
    decoded.k() == k && are_recorded(replies, pieces)
}

// Whether each of these pieces is carried by one of the recorded replies.
fn are_recorded(replies: &[Taken], pieces: &[Piece]) -> bool
    ensures { result ≡ list_all (is_recorded replies.now) pieces.now }
{
    for piece in pieces {
        if !is_recorded(replies, piece) {
            return false;
        }
    }
    true
}

/// Returns the piece that the member's reply carries, if there is one.
pub(crate) fn piece_by(replies: &[Taken], member: u8) -> Option<&Piece>
    ensures { option_copied result ≡ piece_by replies.now member }
{
    for taken in replies {
        if taken.member == member {
            return match &taken.reply.answer {
                Answer::Piece(Some(held)) => Some(held.piece()),
                _ => None,
            };
        }
    }
    None
}
