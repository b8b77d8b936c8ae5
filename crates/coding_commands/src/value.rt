//! Decoding the value of pieces.
ghost use Rattle.std.specs.Prelude.{◌≡◌, ◌↔◌, ◌⊎◌, IfErr, IfOk};
ghost use Rattle.decoder.specs.Pieces.{AreLawful, HaveNoValue};
ghost use Rattle.coding_commands.specs.Answer.{IsDecodedValue};

use decoder::{Decoded, decode};
use piece::Piece;
use std::alloc::Global;
use tag::Refusal;

/// Returns the value of `len` bytes, which is cut into `k` blocks, that has these pieces. Is refused with `BadPieces`
/// also if `k` or `len` is above its limit, however large it is.
pub(crate) fn value_of(
    alloc: Global,
    k: u64,
    len: u64,
    pieces: Vec<Piece>,
) -> Result<Decoded, Refusal>
    ensures value { IfOk result (λ d. IsDecodedValue k len pieces.items d.value) }
    ensures bad_pieces { (result ≡ Err Refusal.BadPieces)
        ↔ ((¬ AreLawful k len pieces.items) ⊎ HaveNoValue k len pieces.items) }
    ensures refused { IfErr result (λ r. (r ≡ Refusal.BadPieces) ⊎ (r ≡ Refusal.NoMemory)) }
{
    let (Ok(k), Ok(len)) = (u8::try_from(k), u32::try_from(len)) else {
        return Err(Refusal::BadPieces);
    };
    decode(alloc, k, len, pieces)
}
