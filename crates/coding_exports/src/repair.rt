ghost use Rattle.std.specs.Prelude.{◌≡◌, ◌≢◌, ◌≤◌, ◌↔◌, ◌⊎◌, ℕ, List, length};
ghost use Rattle.tag.specs.Refusal.{number_of};
ghost use Rattle.kernels.specs.Dot.{bytes_of};
ghost use Rattle.encoder.specs.Fragment.{fragment, fragment_len};
ghost use Rattle.decoder.specs.Pieces.{ArePiecesOf, HaveNoValue, IsInterpolated};
ghost use Rattle.decoder.specs.Parts.{AreLawfulParts, pieces_at};
ghost use Rattle.coding_exports.specs.declared.answer.TheConstants.{BAD_BUFFER};

use crate::answer::BAD_BUFFER;
use decoder::decode_into;
use encoder::fragment_into;
use tag::Refusal;

/// Writes the value that has these fragments to `value`, as `coding_decode` does, and the fragment of that value at
/// `point` to `out`. Answers `BAD_BUFFER` if `k` is above 0 and `out` has another length than a fragment, and otherwise
/// what `coding_decode` answers. If the answer is not 0, both buffers are unchanged.
#[unsafe(no_mangle)]
pub extern "C" fn coding_repair(
    k: u8,
    points: &[u8],
    fragments: &[&[u8]],
    point: u8,
    value: &mut [u8],
    out: &mut [u8],
) -> u8
    ensures answers { (result ≡ 0) ⊎ (result ≡ BAD_BUFFER) ⊎ (result ≡ number_of Refusal.BadPieces) }
    ensures bad_buffer { (result ≡ BAD_BUFFER) ↔
        ((1 ≤ k) × (length out.old ≢ fragment_len k (length value.old))) }
    ensures bad_pieces { (result ≡ number_of Refusal.BadPieces) ↔ ((result ≢ BAD_BUFFER)
        × ((¬ AreLawfulParts k (length value.old) points.now (bytes_of fragments.now))
        ⊎ HaveNoValue k (length value.old) (pieces_at (length value.old) points.now (bytes_of fragments.now)))) }
    ensures unchanged { result ≢ 0 → (value.new ≡ value.old) × (out.new ≡ out.old) }
    ensures decoded { result ≡ 0 → IsInterpolated k (length value.old)
        (pieces_at (length value.old) points.now (bytes_of fragments.now)) value.new }
    ensures repaired { result ≡ 0 → out.new ≡ fragment value.new k point }

    // Any k pieces of a value give each fragment of it.
    ensures from_any { (v : List ℕ) → length v ≡ length value.old → length fragments.now ≡ length points.now
        → ArePiecesOf v k (pieces_at (length value.old) points.now (bytes_of fragments.now))
        → length out.old ≡ fragment_len k (length v)
        → (result ≡ 0) × (out.new ≡ fragment v k point) }
{
    if k == 0 {
        return Refusal::BadPieces.number();
    }
    if out.len() != value.len().div_ceil(k as usize) {
        return BAD_BUFFER;
    }
    match decode_into(k, points, fragments, value) {
        Ok(()) => {
            fragment_into(k, point, value, out);
            0
        }
        Err(refusal) => refusal.number(),
    }
}
