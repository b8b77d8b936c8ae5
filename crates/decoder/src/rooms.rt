//! Decoding with a room on the stack, the smallest of five that is large enough for k, because a small room is made
//! sooner. Each room is in a function of its own that is not inlined; otherwise a call would pay for all rooms.

ghost use Rattle.std.specs.Prelude.{◌≡◌, ◌*◌, ◌≤◌, ◌⊎◌, length, IfErr, IfOk, OnErr, OnOk};
ghost use Rattle.kernels.specs.Dot.{bytes_of};
ghost use Rattle.decoder.specs.Parts.{AreLawfulParts, pieces_at};
ghost use Rattle.decoder.specs.Pieces.{AreOfBytes, HaveNoValue, IsInterpolated};

use crate::value::{make_with, write_with};
use kernels::Tables;
use std::alloc::Global;
use tag::Refusal;

/// The coefficients of 255 rows.
pub(crate) const MOST_COEFFICIENTS: usize = 65_025;

/// The most tables of one pass: 8 KiB, of which those of 255 fragments for one block fill nearly all.
const MOST_TABLES: usize = 256;

/// Returns the value of `len` bytes of which these are lawful pieces.
pub(crate) fn make_value(
    alloc: Global,
    k: u8,
    len: usize,
    points: &[u8],
    fragments: &[&[u8]],
) -> Result<Vec<u8>, Refusal>
    requires lawful { AreLawfulParts k len points.now (bytes_of fragments.now) }
    requires bytes { AreOfBytes (pieces_at len points.now (bytes_of fragments.now)) }
    ensures interpolated { IfOk result (λ value.
        IsInterpolated k len (pieces_at len points.now (bytes_of fragments.now)) value.items) }
    ensures refused { IfErr result (λ e.
        ((e ≡ Refusal.BadPieces) × HaveNoValue k len (pieces_at len points.now (bytes_of fragments.now)))
        ⊎ ((e ≡ Refusal.NoMemory) × (¬ HaveNoValue k len (pieces_at len points.now (bytes_of fragments.now))))) }
{
    match k {
        0..=4 => make_in::<16, 16>(alloc, k, len, points, fragments),
        5..=8 => make_in::<64, 48>(alloc, k, len, points, fragments),
        9..=16 => make_in::<256, 96>(alloc, k, len, points, fragments),
        17..=64 => make_in::<4096, MOST_TABLES>(alloc, k, len, points, fragments),
        65..=255 => make_in::<MOST_COEFFICIENTS, MOST_TABLES>(alloc, k, len, points, fragments),
    }
}

/// `make_value` with room for `C` coefficients and `T` tables.
#[inline(never)]
fn make_in<const C: usize, const T: usize>(
    alloc: Global,
    k: u8,
    len: usize,
    points: &[u8],
    fragments: &[&[u8]],
) -> Result<Vec<u8>, Refusal>
    requires rooms { (C ≤ MOST_COEFFICIENTS) × (T ≤ MOST_TABLES) }
    requires coefficients { k * k ≤ C }
    requires tables { k ≤ T }
    requires lawful { AreLawfulParts k len points.now (bytes_of fragments.now) }
    requires bytes { AreOfBytes (pieces_at len points.now (bytes_of fragments.now)) }
    ensures interpolated { IfOk result (λ value.
        IsInterpolated k len (pieces_at len points.now (bytes_of fragments.now)) value.items) }
    ensures refused { IfErr result (λ e.
        ((e ≡ Refusal.BadPieces) × HaveNoValue k len (pieces_at len points.now (bytes_of fragments.now)))
        ⊎ ((e ≡ Refusal.NoMemory) × (¬ HaveNoValue k len (pieces_at len points.now (bytes_of fragments.now))))) }
{
    let count = k as usize;
    let mut table = [0u8; C];
    let mut tables = [Tables::zero(); T];
    make_with(
        alloc,
        &mut table[..count * count],
        &mut tables[..],
        k,
        len,
        points,
        fragments,
    )
}

/// Writes the value of which these are lawful pieces to `out`, which has its length.
pub(crate) fn write_value(
    k: u8,
    points: &[u8],
    fragments: &[&[u8]],
    out: &mut [u8],
) -> Result<(), Refusal>
    requires lawful { AreLawfulParts k (length out.old) points.now (bytes_of fragments.now) }
    requires bytes { AreOfBytes (pieces_at (length out.old) points.now (bytes_of fragments.now)) }
    ensures interpolated { OnOk result (IsInterpolated k (length out.old)
        (pieces_at (length out.old) points.now (bytes_of fragments.now)) out.new) }
    ensures refused { IfErr result (λ e. e ≡ Refusal.BadPieces) }
    ensures none { OnErr result (HaveNoValue k (length out.old)
        (pieces_at (length out.old) points.now (bytes_of fragments.now))) }
    ensures unchanged { OnErr result (out.new ≡ out.old) }
{
    match k {
        0..=4 => write_in::<16, 16>(k, points, fragments, out),
        5..=8 => write_in::<64, 48>(k, points, fragments, out),
        9..=16 => write_in::<256, 96>(k, points, fragments, out),
        17..=64 => write_in::<4096, MOST_TABLES>(k, points, fragments, out),
        65..=255 => write_in::<MOST_COEFFICIENTS, MOST_TABLES>(k, points, fragments, out),
    }
}

/// `write_value` with room for `C` coefficients and `T` tables.
#[inline(never)]
fn write_in<const C: usize, const T: usize>(
    k: u8,
    points: &[u8],
    fragments: &[&[u8]],
    out: &mut [u8],
) -> Result<(), Refusal>
    requires rooms { (C ≤ MOST_COEFFICIENTS) × (T ≤ MOST_TABLES) }
    requires coefficients { k * k ≤ C }
    requires tables { k ≤ T }
    requires lawful { AreLawfulParts k (length out.old) points.now (bytes_of fragments.now) }
    requires bytes { AreOfBytes (pieces_at (length out.old) points.now (bytes_of fragments.now)) }
    ensures interpolated { OnOk result (IsInterpolated k (length out.old)
        (pieces_at (length out.old) points.now (bytes_of fragments.now)) out.new) }
    ensures refused { IfErr result (λ e. e ≡ Refusal.BadPieces) }
    ensures none { OnErr result (HaveNoValue k (length out.old)
        (pieces_at (length out.old) points.now (bytes_of fragments.now))) }
    ensures unchanged { OnErr result (out.new ≡ out.old) }
{
    let count = k as usize;
    let mut table = [0u8; C];
    let mut tables = [Tables::zero(); T];
    write_with(
        &mut table[..count * count],
        &mut tables[..],
        k,
        points,
        fragments,
        out,
    )
}
