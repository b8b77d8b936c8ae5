ghost use Rattle.std.specs.Prelude.{◌≡◌, ◌≢◌, ◌⊎◌, IfErr, IfOk};
ghost use Rattle.tag.specs.Refusal.{number_of};
ghost use Rattle.decoder.specs.Pieces.{AreLawful, HaveNoValue};
ghost use Rattle.coding_exports.specs.Answer.{WritesDecoded};
ghost use Rattle.coding_exports.specs.Pieces.{pieces_from, pieces_given};

use crate::room::write;
use bytes::Bytes;
use decoder::decode;
use piece::Piece;
use std::alloc::{AllocError, Global};
use tag::Refusal;

/// Decodes the fragments at these points, which stand one after another, each of `len.div_ceil(k)` bytes, as often as
/// `times` says and at least once, and writes the value to `room` if it has its length. It asks for the memory of a
/// copy of the fragments first, and answers 1, for `NoMemory`, wherever memory is refused.
#[unsafe(no_mangle)]
pub extern "C" fn coding_exports_decode(
    alloc: Global,
    k: u8,
    len: u32,
    points: &[u8],
    fragments: &[u8],
    times: u32,
    room: &mut [u8],
) -> u8
    ensures answers { (result ≡ 0) ⊎ (result ≡ number_of Refusal.NoMemory)
        ⊎ (result ≡ number_of Refusal.BadPieces) }
    ensures decoded { result ≡ 0 →
        WritesDecoded k len (pieces_given k len points.now fragments.now) room.old room.new }
    ensures bad_pieces { result ≡ number_of Refusal.BadPieces →
        (¬ AreLawful k len (pieces_given k len points.now fragments.now))
        ⊎ HaveNoValue k len (pieces_given k len points.now fragments.now) }
    ensures unchanged { result ≢ 0 → room.new ≡ room.old }
{
    if k == 0 {
        return Refusal::BadPieces.number();
    }
    let fragment_len = (len as usize).div_ceil(k as usize);
    let Ok(pieces) = pieces(alloc, len, fragment_len, points, fragments) else {
        return Refusal::NoMemory.number();
    };
    for _ in 1..times {
        if let Err(refusal) = decode_again(alloc, k, len, &pieces) {
            return refusal.number();
        }
    }
    match decode(alloc, k, len, pieces) {
        Ok(decoded) => {
            write(decoded.value().as_slice(), room);
            0
        }
        Err(refusal) => refusal.number(),
    }
}

/// Decodes copies of the pieces, which share their bytes, and gives back what that took.
fn decode_again(alloc: Global, k: u8, len: u32, pieces: &[Piece]) -> Result<(), Refusal>
    ensures { IfErr result (λ r. (r ≡ Refusal.NoMemory) ⊎ ((r ≡ Refusal.BadPieces)
        × ((¬ AreLawful k len pieces.now) ⊎ HaveNoValue k len pieces.now))) }
{
    let mut copies = Vec::with_capacity(alloc, pieces.len())?;
    for piece in pieces {
        copies.push(piece.clone()?)?;
    }
    decode(alloc, k, len, copies)?;
    Ok(())
}

/// Returns the pieces at these points of a value of `len` bytes, whose fragments stand one after another.
fn pieces(
    alloc: Global,
    len: u32,
    fragment_len: usize,
    points: &[u8],
    fragments: &[u8],
) -> Result<Vec<Piece>, AllocError>
    ensures { IfOk result (λ pieces. pieces.items ≡ pieces_from len fragment_len points.now fragments.now) }
{
    let mut pieces = Vec::with_capacity(alloc, points.len())?;
    let mut rest = fragments;
    for &point in points {
        let (bytes, behind) = rest.split_at(fragment_len.min(rest.len()));
        pieces.push(Piece {
            point,
            len,
            bytes: Bytes::copy_from_slice(alloc, bytes)?,
        })?;
        rest = behind;
    }
    Ok(pieces)
}
