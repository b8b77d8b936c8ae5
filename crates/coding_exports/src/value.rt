ghost use Rattle.std.specs.Prelude.{◌≡◌, ◌≢◌, ◌↔◌, ◌⊎◌, ℕ, List, length};
ghost use Rattle.tag.specs.Refusal.{number_of};
ghost use Rattle.kernels.specs.Dot.{bytes_of};
ghost use Rattle.decoder.specs.Parts.{AreLawfulParts, pieces_at};
ghost use Rattle.decoder.specs.Pieces.{ArePiecesOf, HaveNoValue, IsInterpolated};

use decoder::decode_into;
use tag::Refusal;

/// Decodes into `value`, whose length is that of the value. Fragment i is the one at point i. Answers `BadPieces`
/// unless there are as many fragments as points, and these are `k` fragments at distinct points of a value of that
/// length, within the limits, or if no such value has these fragments. Then `value` is unchanged.
#[unsafe(no_mangle)]
pub extern "C" fn coding_decode(k: u8, points: &[u8], fragments: &[&[u8]], value: &mut [u8]) -> u8
    ensures answers { (result ≡ 0) ⊎ (result ≡ number_of Refusal.BadPieces) }
    ensures bad_pieces { (result ≡ number_of Refusal.BadPieces) ↔
        ((¬ AreLawfulParts k (length value.old) points.now (bytes_of fragments.now))
        ⊎ HaveNoValue k (length value.old) (pieces_at (length value.old) points.now (bytes_of fragments.now))) }
    ensures unchanged { result ≢ 0 → value.new ≡ value.old }
    ensures lawful { result ≡ 0 → AreLawfulParts k (length value.old) points.now (bytes_of fragments.now) }
    ensures decoded { result ≡ 0 → IsInterpolated k (length value.old)
        (pieces_at (length value.old) points.now (bytes_of fragments.now)) value.new }

    // Any k pieces of a value give it back.
    ensures round_trip { (v : List ℕ) → length v ≡ length value.old → length fragments.now ≡ length points.now
        → ArePiecesOf v k (pieces_at (length value.old) points.now (bytes_of fragments.now))
        → (result ≡ 0) × (value.new ≡ v) }
{
    match decode_into(k, points, fragments, value) {
        Ok(()) => 0,
        Err(refusal) => refusal.number(),
    }
}
