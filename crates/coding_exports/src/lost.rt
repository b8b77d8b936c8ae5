ghost use Rattle.std.specs.Prelude.{◌≡◌, ◌≢◌, ◌≤◌, ◌↔◌, ◌⊎◌, ℕ, List, length};
ghost use Rattle.tag.specs.Refusal.{number_of};
ghost use Rattle.kernels.specs.Dot.{bytes_of};
ghost use Rattle.encoder.specs.Fragment.{fragment, fragment_len};
ghost use Rattle.decoder.specs.Pieces.{ArePiecesOf, HaveNoValue, HaveValue, IsInterpolated};
ghost use Rattle.decoder.specs.Parts.{AreLawfulParts, pieces_at};
ghost use Rattle.coding_exports.specs.declared.answer.TheConstants.{BAD_BUFFER};

use crate::answer::BAD_BUFFER;
use decoder::repair_into;
use tag::Refusal;

/// Writes the fragment at `point` to `out` as `coding_repair` does, of the value of `value_len` bytes, without
/// computing the value itself. This takes about a k-th of the work, and no buffer for the value. It answers as
/// `coding_repair` does; if the answer is not 0, `out` is unchanged.
#[unsafe(no_mangle)]
pub extern "C" fn coding_repair_fragment(
    k: u8,
    points: &[u8],
    fragments: &[&[u8]],
    point: u8,
    value_len: usize,
    out: &mut [u8],
) -> u8
    ensures answers { (result ≡ 0) ⊎ (result ≡ BAD_BUFFER) ⊎ (result ≡ number_of Refusal.BadPieces) }
    ensures bad_buffer { (result ≡ BAD_BUFFER) ↔ ((1 ≤ k) × (length out.old ≢ fragment_len k value_len)) }
    ensures bad_pieces { (result ≡ number_of Refusal.BadPieces) ↔ ((result ≢ BAD_BUFFER)
        × ((¬ AreLawfulParts k value_len points.now (bytes_of fragments.now))
        ⊎ HaveNoValue k value_len (pieces_at value_len points.now (bytes_of fragments.now)))) }
    ensures unchanged { result ≢ 0 → out.new ≡ out.old }

    // There is a value with these fragments, and `out` has its fragment.
    ensures value { result ≡ 0 → HaveValue k value_len (pieces_at value_len points.now (bytes_of fragments.now)) }
    ensures repaired { result ≡ 0 → (v : List ℕ)
        → IsInterpolated k value_len (pieces_at value_len points.now (bytes_of fragments.now)) v
        → out.new ≡ fragment v k point }

    // Any k pieces of a value give each fragment of it.
    ensures from_any { (v : List ℕ) → length v ≡ value_len → length fragments.now ≡ length points.now
        → ArePiecesOf v k (pieces_at value_len points.now (bytes_of fragments.now))
        → length out.old ≡ fragment_len k value_len
        → (result ≡ 0) × (out.new ≡ fragment v k point) }
{
    if k == 0 {
        return Refusal::BadPieces.number();
    }
    if out.len() != value_len.div_ceil(k as usize) {
        return BAD_BUFFER;
    }
    match repair_into(k, points, fragments, point, value_len, out) {
        Ok(()) => 0,
        Err(refusal) => refusal.number(),
    }
}
