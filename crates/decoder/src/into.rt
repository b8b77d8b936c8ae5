ghost use Rattle.std.specs.Prelude.{◌≡◌, ◌↔◌, ◌⊎◌, ℕ, List, length, IfErr, IsOk, OnErr, OnOk};
ghost use Rattle.kernels.specs.Dot.{bytes_of};
ghost use Rattle.decoder.specs.Parts.{AreLawfulParts, pieces_at};
ghost use Rattle.decoder.specs.Pieces.{ArePiecesOf, HaveNoValue, IsInterpolated};

use crate::lawful::are_lawful_parts;
use crate::rooms::write_value;
use tag::Refusal;

/// Decodes a value into `out`, whose length is that of the value. Piece i has point i and fragment i, which has
/// `out.len().div_ceil(k)` bytes. It allocates no memory.
///
/// Is refused with `BadPieces` unless there are as many fragments as points, and these are `k` pieces at distinct
/// points of a value of that length, within the limits, or if no such value has these fragments. Then `out` is
/// unchanged.
pub fn decode_into(k: u8, points: &[u8], fragments: &[&[u8]], out: &mut [u8]) -> Result<(), Refusal>
    ensures bad_pieces { (result ≡ Err Refusal.BadPieces) ↔
        ((¬ AreLawfulParts k (length out.old) points.now (bytes_of fragments.now))
        ⊎ HaveNoValue k (length out.old) (pieces_at (length out.old) points.now (bytes_of fragments.now))) }
    ensures refused { IfErr result (λ e. e ≡ Refusal.BadPieces) }
    ensures unchanged { OnErr result (out.new ≡ out.old) }

    ensures lawful { OnOk result (AreLawfulParts k (length out.old) points.now (bytes_of fragments.now)) }
    ensures interpolated { OnOk result (IsInterpolated k (length out.old)
        (pieces_at (length out.old) points.now (bytes_of fragments.now)) out.new) }
    ensures only { OnOk result ((v : List ℕ) → IsInterpolated k (length out.old)
        (pieces_at (length out.old) points.now (bytes_of fragments.now)) v → v ≡ out.new) }

    // Any k pieces of a value give it back.
    ensures round_trip { (v : List ℕ) → length v ≡ length out.old → length fragments.now ≡ length points.now
        → ArePiecesOf v k (pieces_at (length out.old) points.now (bytes_of fragments.now))
        → IsOk result × (out.new ≡ v) }
{
    if !are_lawful_parts(k, out.len(), points, fragments) {
        return Err(Refusal::BadPieces);
    }
    write_value(k, points, fragments, out)
}
