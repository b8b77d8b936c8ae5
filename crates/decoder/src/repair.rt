//! A lost fragment of a value from k others, without the value.

ghost use Rattle.std.specs.Prelude.{◌≡◌, ◌*◌, ◌≤◌, ◌↔◌, ◌⊎◌, ℕ, List, length, IfErr, IsOk, OnErr, OnOk};
ghost use Rattle.kernels.specs.Dot.{bytes_of};
ghost use Rattle.encoder.specs.Fragment.{fragment, fragment_len};
ghost use Rattle.decoder.specs.Parts.{AreLawfulParts, pieces_at};
ghost use Rattle.decoder.specs.Pieces.{AreOfBytes, ArePiecesOf, HaveNoValue, HaveValue, IsInterpolated};

use crate::lawful::are_lawful_parts;
use crate::rooms::MOST_COEFFICIENTS;
use crate::value::have_value;
use crate::weights::write_sum;
use kernels::Tables;
use tag::{MOST_MEMBERS, Refusal};

/// Writes the fragment at `point` to `out`, of the value of `len` bytes that has these fragments at these points. The
/// work is about a k-th of that of `decode_into`. It allocates no memory.
///
/// Is refused with `BadPieces` as `decode_into` is for that value. Then `out` is unchanged.
pub fn repair_into(
    k: u8,
    points: &[u8],
    fragments: &[&[u8]],
    point: u8,
    len: usize,
    out: &mut [u8],
) -> Result<(), Refusal>
    requires threshold { 1 ≤ k }
    requires room { length out.old ≡ fragment_len k len }
    ensures bad_pieces { (result ≡ Err Refusal.BadPieces) ↔
        ((¬ AreLawfulParts k len points.now (bytes_of fragments.now))
        ⊎ HaveNoValue k len (pieces_at len points.now (bytes_of fragments.now))) }
    ensures refused { IfErr result (λ e. e ≡ Refusal.BadPieces) }
    ensures unchanged { OnErr result (out.new ≡ out.old) }

    ensures lawful { OnOk result (AreLawfulParts k len points.now (bytes_of fragments.now)) }
    ensures value { OnOk result (HaveValue k len (pieces_at len points.now (bytes_of fragments.now))) }
    ensures repaired { OnOk result ((v : List ℕ) →
        IsInterpolated k len (pieces_at len points.now (bytes_of fragments.now)) v → out.new ≡ fragment v k point) }

    // Any k pieces of a value give each fragment of it.
    ensures from_any { (v : List ℕ) → length v ≡ len → length fragments.now ≡ length points.now
        → ArePiecesOf v k (pieces_at len points.now (bytes_of fragments.now))
        → IsOk result × (out.new ≡ fragment v k point) }
{
    if !are_lawful_parts(k, len, points, fragments) {
        return Err(Refusal::BadPieces);
    }
    write_fragment(k, points, fragments, point, len, out)
}

/// Writes the fragment at `point` of the value of which these are lawful pieces, in the least of the rooms on the stack
/// that serve k.
fn write_fragment(
    k: u8,
    points: &[u8],
    fragments: &[&[u8]],
    point: u8,
    len: usize,
    out: &mut [u8],
) -> Result<(), Refusal>
    requires lawful { AreLawfulParts k len points.now (bytes_of fragments.now) }
    requires bytes { AreOfBytes (pieces_at len points.now (bytes_of fragments.now)) }
    requires room { length out.old ≡ fragment_len k len }
    ensures value { OnOk result (HaveValue k len (pieces_at len points.now (bytes_of fragments.now))) }
    ensures repaired { OnOk result ((v : List ℕ) →
        IsInterpolated k len (pieces_at len points.now (bytes_of fragments.now)) v → out.new ≡ fragment v k point) }
    ensures refused { IfErr result (λ e. e ≡ Refusal.BadPieces) }
    ensures none { OnErr result (HaveNoValue k len (pieces_at len points.now (bytes_of fragments.now))) }
    ensures unchanged { OnErr result (out.new ≡ out.old) }
{
    match k {
        0..=4 => write_in::<16, 4>(k, points, fragments, point, len, out),
        5..=8 => write_in::<64, 8>(k, points, fragments, point, len, out),
        9..=16 => write_in::<256, 16>(k, points, fragments, point, len, out),
        17..=64 => write_in::<4096, 64>(k, points, fragments, point, len, out),
        65..=255 => {
            write_in::<MOST_COEFFICIENTS, MOST_MEMBERS>(k, points, fragments, point, len, out)
        }
    }
}

/// `write_fragment` with room for `C` coefficients and `T` tables.
#[inline(never)]
fn write_in<const C: usize, const T: usize>(
    k: u8,
    points: &[u8],
    fragments: &[&[u8]],
    point: u8,
    len: usize,
    out: &mut [u8],
) -> Result<(), Refusal>
    requires rooms { (C ≤ MOST_COEFFICIENTS) × (T ≤ MOST_MEMBERS) }
    requires coefficients { k * k ≤ C }
    requires tables { k ≤ T }
    requires lawful { AreLawfulParts k len points.now (bytes_of fragments.now) }
    requires bytes { AreOfBytes (pieces_at len points.now (bytes_of fragments.now)) }
    requires room { length out.old ≡ fragment_len k len }
    ensures value { OnOk result (HaveValue k len (pieces_at len points.now (bytes_of fragments.now))) }
    ensures repaired { OnOk result ((v : List ℕ) →
        IsInterpolated k len (pieces_at len points.now (bytes_of fragments.now)) v → out.new ≡ fragment v k point) }
    ensures refused { IfErr result (λ e. e ≡ Refusal.BadPieces) }
    ensures none { OnErr result (HaveNoValue k len (pieces_at len points.now (bytes_of fragments.now))) }
    ensures unchanged { OnErr result (out.new ≡ out.old) }
{
    let count = k as usize;
    let mut table = [0u8; C];
    let mut tables = [Tables::zero(); T];
    let table = &mut table[..count * count];
    if !have_value(table, k, len, points, fragments) {
        return Err(Refusal::BadPieces);
    }
    write_sum(out, &mut tables[..count], table, fragments, points, point);
    Ok(())
}
