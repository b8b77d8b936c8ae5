ghost use Rattle.std.specs.Prelude.{◌≡◌, ℕ, ◌+◌, ◌*◌, ◌<◌, ◌≤◌, ◌^◌};
ghost use Rattle.std.specs.Prelude.{length, take, drop, slice_index, IfOk, IfErr};
ghost use Rattle.kernels.specs.Dot.{bytes_of};
ghost use Rattle.encoder.specs.Fragment.{fragment, fragment_len, piece_at_point};
ghost use Rattle.encoder.specs.Points.{AreBlocksOfValue, AreFragmentRows};

use crate::points::write_points;
use bytes::Bytes;
use piece::Piece;
use std::alloc::{AllocError, Global};
use tag::{LONGEST_VALUE, Refusal};

/// The most blocks of a value, one for each element of the field but one.
const MOST_BLOCKS: usize = 255;

/// As many blocks as most codes have.
const FEW_BLOCKS: usize = 16;

/// Returns the piece of `value` at the point `i`, with `value.len().div_ceil(k)` bytes. `NoMemory` is the only refusal.
pub fn piece(alloc: Global, k: u8, i: u8, value: &[u8]) -> Result<Piece, Refusal>
    requires threshold { 1 ≤ k }
    requires longest { length value.now ≤ LONGEST_VALUE }
    ensures piece { IfOk result (λ p. p ≡ piece_at_point value.now k i) }
    ensures refused { IfErr result (λ r. r ≡ Refusal.NoMemory) }
{
    Ok(Piece {
        point: i,
        len: value.len() as u32,
        bytes: Bytes::from_vec(fragments_from(alloc, k, i, 1, value)?)?,
    })
}

/// Writes the fragments of `value` at the points below `n` to `out`, one after another, each of
/// `value.len().div_ceil(k)` bytes. It allocates no memory.
pub fn encode_into(k: u8, n: u8, value: &[u8], out: &mut [u8])
    requires threshold { 1 ≤ k }
    requires longest { length value.now ≤ LONGEST_VALUE }
    requires room { length out.old ≡ n * fragment_len k (length value.now) }
    ensures { AreFragmentRows out.new n value.now k 0 }
{
    write_fragments(k, 0, n as usize, value, out);
}

/// Writes the fragment of `value` at the point `i`, of `value.len().div_ceil(k)` bytes, to `out`. It allocates no
/// memory.
pub fn fragment_into(k: u8, i: u8, value: &[u8], out: &mut [u8])
    requires threshold { 1 ≤ k }
    requires longest { length value.now ≤ LONGEST_VALUE }
    requires room { length out.old ≡ fragment_len k (length value.now) }
    ensures { out.new ≡ fragment value.now k i }
{
    write_fragments(k, i as usize, 1, value, out);
}

/// Returns the fragments of `value` at the `n` points from `first` on, one after another.
pub(crate) fn fragments_from(
    alloc: Global,
    k: u8,
    first: u8,
    n: u8,
    value: &[u8],
) -> Result<Vec<u8>, AllocError>
    requires threshold { 1 ≤ k }
    requires points { first + n ≤ 256 }
    requires longest { length value.now ≤ LONGEST_VALUE }
    ensures len { IfOk result (λ out. length out.items ≡ n * fragment_len k (length value.now)) }
    ensures fragments { IfOk result (λ out. AreFragmentRows out.items n value.now k first) }
{
    let block_len = value.len().div_ceil(k as usize);
    let mut out = vec![in alloc; 0u8; n as usize * block_len]?;
    write_fragments(k, first as usize, n as usize, value, &mut out);
    Ok(out)
}

/// Writes the fragments of `value` at the `n` points from `first` on to `out`, one after another.
fn write_fragments(k: u8, first: usize, n: usize, value: &[u8], out: &mut [u8])
    requires threshold { 1 ≤ k }
    requires points { first + n ≤ 256 }
    requires longest { length value.now ≤ LONGEST_VALUE }
    requires room { length out.old ≡ n * fragment_len k (length value.now) }
    ensures { AreFragmentRows out.new n value.now k first }
{
    if k as usize > FEW_BLOCKS {
        return write_many(k, first, n, value, out);
    }
    let mut room: [&[u8]; FEW_BLOCKS] = [&[]; FEW_BLOCKS];
    write_blocks(&mut room[..k as usize], first, n, value, out);
}

/// `write_fragments` with room for the most blocks. To make this room costs as much as to code a small value, so this
/// is not inlined; otherwise each call would pay for it.
#[inline(never)]
fn write_many(k: u8, first: usize, n: usize, value: &[u8], out: &mut [u8])
    requires threshold { 1 ≤ k }
    requires points { first + n ≤ 256 }
    requires longest { length value.now ≤ LONGEST_VALUE }
    requires room { length out.old ≡ n * fragment_len k (length value.now) }
    ensures { AreFragmentRows out.new n value.now k first }
{
    let mut room: [&[u8]; MOST_BLOCKS] = [&[]; MOST_BLOCKS];
    write_blocks(&mut room[..k as usize], first, n, value, out);
}

/// `write_fragments` of a value that is cut into as many blocks as `blocks` has room for.
fn write_blocks<'a>(
    blocks: &mut [&'a [u8]],
    first: usize,
    n: usize,
    value: &'a [u8],
    out: &mut [u8],
)
    requires threshold { 1 ≤ length blocks.old }
    requires most { length blocks.old ≤ MOST_BLOCKS }
    requires points { first + n ≤ 256 }
    requires longest { length value.now ≤ LONGEST_VALUE }
    requires room { length out.old ≡ n * fragment_len (length blocks.old) (length value.now) }
    ensures { AreFragmentRows out.new n value.now (length blocks.old) first }
{
    let block_len = value.len().div_ceil(blocks.len());
    fill_blocks(blocks, value, block_len);
    write_points(out, blocks, block_len, first, n);
}

/// Sets `blocks` to the first blocks of `value`, each of `block_len` bytes. The block at the end of the value is
/// shorter, and blocks past the end are empty.
pub fn fill_blocks<'a>(blocks: &mut [&'a [u8]], value: &'a [u8], block_len: usize)
    requires { length blocks.old * block_len < 2 ^ 64 }
    ensures { AreBlocksOfValue (bytes_of blocks.new) (length blocks.old) block_len value.now }
{
    for j in 0..blocks.len() {
        blocks[j] = block(value, block_len, j);
    }
}

/// Block `j` of `value`, as far as the value goes.
fn block(value: &[u8], block_len: usize, j: usize) -> &[u8]
    requires { j * block_len < 2 ^ 64 }
    ensures { result.now ≡ take block_len (drop (j * block_len) value.now) }
{
    let rest = &value[(j * block_len).min(value.len())..];
    &rest[..block_len.min(rest.len())]
}
