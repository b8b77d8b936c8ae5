//! The value of lawful pieces: first whether there is one, then its bytes.

ghost use Rattle.std.specs.Prelude.{◌≡◌, ◌*◌, ◌^◌, ◌<◌, ◌≤◌, ◌⊎◌, ℕ, List, length};
ghost use Rattle.std.specs.Prelude.{IfErr, IfOk, IsFalse, IsTrue, OnErr, OnOk};
ghost use Rattle.kernels.specs.Dot.{bytes_of};
ghost use Rattle.encoder.specs.Fragment.{fragment_len};
ghost use Rattle.decoder.specs.Parts.{AreLawfulParts, pieces_at};
ghost use Rattle.decoder.specs.Pieces.{AreOfBytes, HaveNoValue, HaveValue, IsInterpolated};
ghost use Rattle.poly.specs.Basis.{HasRows};
ghost use Rattle.decoder.specs.Rows.{AreBlockBytes, HaveColumnSums};

use crate::padding::is_padding_zero;
use crate::sums::write_blocks;
use kernels::Tables;
use poly::fill_rows;
use std::alloc::{AllocError, Global};
use tag::Refusal;

/// Makes the value of `len` bytes of which these are lawful pieces. Memory is asked for only if there is such a value,
/// so that bad pieces are always told.
pub(crate) fn make_with(
    alloc: Global,
    table: &mut [u8],
    tables: &mut [Tables],
    k: u8,
    len: usize,
    points: &[u8],
    fragments: &[&[u8]],
) -> Result<Vec<u8>, Refusal>
    requires coefficients { length table.old ≡ k * k }
    requires tables { k ≤ length tables.old }
    requires lawful { AreLawfulParts k len points.now (bytes_of fragments.now) }
    requires bytes { AreOfBytes (pieces_at len points.now (bytes_of fragments.now)) }
    ensures interpolated { IfOk result (λ value.
        IsInterpolated k len (pieces_at len points.now (bytes_of fragments.now)) value.items) }
    ensures refused { IfErr result (λ e.
        ((e ≡ Refusal.BadPieces) × HaveNoValue k len (pieces_at len points.now (bytes_of fragments.now)))
        ⊎ ((e ≡ Refusal.NoMemory) × (¬ HaveNoValue k len (pieces_at len points.now (bytes_of fragments.now))))) }
{
    if !have_value(table, k, len, points, fragments) {
        return Err(Refusal::BadPieces);
    }
    let block_len = len.div_ceil(k as usize);
    Ok(made_blocks(alloc, tables, table, fragments, len, block_len)?)
}

/// Returns the first `len` bytes of the blocks, of `size` bytes each.
fn made_blocks(
    alloc: Global,
    tables: &mut [Tables],
    table: &[u8],
    fragments: &[&[u8]],
    len: usize,
    size: usize,
) -> Result<Vec<u8>, AllocError>
    requires some { 1 ≤ length fragments.now }
    requires table { length table.now ≡ length fragments.now * length fragments.now }
    requires sums { HaveColumnSums table.now (length fragments.now) }
    requires room { length fragments.now ≤ length tables.old }
    requires within { len ≤ length fragments.now * size }
    requires fits { length fragments.now * size < 2 ^ 64 }
    ensures len { IfOk result (λ out. length out.items ≡ len) }
    ensures bytes { IfOk result (λ out. AreBlockBytes out.items size table.now (bytes_of fragments.now)) }
{
    let mut out = vec![in alloc; 0u8; len]?;
    write_blocks(&mut out, tables, table, fragments, size);
    Ok(out)
}

/// Writes the value of which these are lawful pieces to `out`, which has its length.
pub(crate) fn write_with(
    table: &mut [u8],
    tables: &mut [Tables],
    k: u8,
    points: &[u8],
    fragments: &[&[u8]],
    out: &mut [u8],
) -> Result<(), Refusal>
    requires coefficients { length table.old ≡ k * k }
    requires tables { k ≤ length tables.old }
    requires lawful { AreLawfulParts k (length out.old) points.now (bytes_of fragments.now) }
    requires bytes { AreOfBytes (pieces_at (length out.old) points.now (bytes_of fragments.now)) }
    ensures interpolated { OnOk result (IsInterpolated k (length out.old)
        (pieces_at (length out.old) points.now (bytes_of fragments.now)) out.new) }
    ensures refused { IfErr result (λ e. e ≡ Refusal.BadPieces) }
    ensures none { OnErr result (HaveNoValue k (length out.old)
        (pieces_at (length out.old) points.now (bytes_of fragments.now))) }
    ensures unchanged { OnErr result (out.new ≡ out.old) }
{
    if !have_value(table, k, out.len(), points, fragments) {
        return Err(Refusal::BadPieces);
    }
    let block_len = out.len().div_ceil(k as usize);
    write_blocks(out, tables, table, fragments, block_len);
    Ok(())
}

/// Returns whether a value of `len` bytes has these pieces, which are lawful. Fills in the table of their rows: if
/// there is such a value, it is the first bytes of the blocks.
pub(crate) fn have_value(
    table: &mut [u8],
    k: u8,
    len: usize,
    points: &[u8],
    fragments: &[&[u8]],
) -> bool
    requires coefficients { length table.old ≡ k * k }
    requires lawful { AreLawfulParts k len points.now (bytes_of fragments.now) }
    requires bytes { AreOfBytes (pieces_at len points.now (bytes_of fragments.now)) }
    ensures rows { HasRows table.new points.now }
    ensures sums { HaveColumnSums table.new k }
    ensures value { IsTrue result → (value : List ℕ) → length value ≡ len
        → AreBlockBytes value (fragment_len k len) table.new (bytes_of fragments.now)
        → IsInterpolated k len (pieces_at len points.now (bytes_of fragments.now)) value }
    ensures made { IsTrue result → HaveValue k len (pieces_at len points.now (bytes_of fragments.now)) }
    ensures some { IsTrue result → ¬ HaveNoValue k len (pieces_at len points.now (bytes_of fragments.now)) }
    ensures none { IsFalse result → HaveNoValue k len (pieces_at len points.now (bytes_of fragments.now)) }
{
    fill_rows(table, points);
    is_padding_zero(table, fragments, len.div_ceil(k as usize), len)
}
