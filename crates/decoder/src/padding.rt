//! The bytes of the blocks past the value's end.

ghost use Rattle.std.specs.Prelude.{◌≡◌, ℕ, ◌*◌, ◌/◌, ◌%◌, ◌^◌, ◌<◌, ◌≤◌, ◌↔◌, [], length, slice_index_or, IsTrue};
ghost use Rattle.kernels.specs.Dot.{bytes_of};
ghost use Rattle.decoder.specs.Rows.{block_byte};

use gf256::mul;

/// Returns whether the blocks have only zeros past the first `len` bytes, which are fewer than there are fragments if
/// the blocks are those of `len` bytes: only these are computed, one at a time.
pub(crate) fn is_padding_zero(
    table: &[u8],
    fragments: &[&[u8]],
    block_len: usize,
    len: usize,
) -> bool
    requires table { length table.now ≡ length fragments.now * length fragments.now }
    requires fits { length fragments.now * block_len < 2 ^ 64 }
    requires lens { (i : ℕ) → i < length fragments.now
        → length (slice_index_or (bytes_of fragments.now) i []) ≡ block_len }
    ensures { IsTrue result ↔ ((n : ℕ) → len ≤ n → n < length fragments.now * block_len
        → block_byte table.now (bytes_of fragments.now) (n / block_len) (n % block_len) ≡ 0) }
{
    for n in len..fragments.len() * block_len {
        if sum_at(table, fragments, n / block_len, n % block_len) != 0 {
            return false;
        }
    }
    true
}

/// Byte `b` of block `j`.
fn sum_at(table: &[u8], fragments: &[&[u8]], j: usize, b: usize) -> u8
    requires table { length table.now ≡ length fragments.now * length fragments.now }
    requires block { j < length fragments.now }
    requires longer { (i : ℕ) → i < length fragments.now
        → b < length (slice_index_or (bytes_of fragments.now) i []) }
    ensures { result ≡ block_byte table.now (bytes_of fragments.now) j b }
{
    let mut sum = 0;
    for i in 0..fragments.len() {
        let fragment = fragments[i];
        sum ^= mul(table[i * fragments.len() + j], fragment[b]);
    }
    sum
}
