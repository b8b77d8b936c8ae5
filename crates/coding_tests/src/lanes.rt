//! Tests of loops over lanes, against results computed byte by byte.

ghost use Rattle.std.specs.Prelude.{◌≤◌, ◌<◌};

use crate::same::{are_all, assert_row, fill};
use gf256::mul;
use kernels::{add_scaled, same, scale_add};

const LENGTHS: [usize; 6] = [0, 1, 31, 32, 33, 64];

/// Bytes of which each value of a byte comes up, from another one on at another `seed`.
fn bytes(seed: u8) -> [u8; 64] {
    let mut bytes = [0; 64];
    fill(seed, &mut bytes);
    bytes
}

// By hand: 2 times 0x80 is 0x1D, and 0x1D and 0x01 are 0x1C.
#[test]
fn doubles_past_the_last_block(rt: HostRuntime) {
    let mut acc = [0x80; 33];
    scale_add(&mut acc, 0x02, &[0x01; 33]);
    assert!(rt; are_all(&acc, 0x1C));
}

/// Returns whether the first `len` bytes are `c` times those of `scaled` and those of `added`, with the field's
/// product, and the others are as in `old`.
fn are_sums(
    found: &[u8; 64],
    old: &[u8; 64],
    len: usize,
    c: u8,
    scaled: &[u8; 64],
    added: &[u8; 64],
) -> bool {
    for b in 0..64 {
        let expected = if b < len {
            mul(c, scaled[b]) ^ added[b]
        } else {
            old[b]
        };
        if found[b] != expected {
            return false;
        }
    }
    true
}

fn scales_and_adds(len: usize, c: u8) -> bool
    requires { len ≤ 64 }
{
    let old = bytes(c);
    let src = bytes(!c);
    let mut acc = old;
    scale_add(&mut acc[..len], c, &src[..len]);
    are_sums(&acc, &old, len, c, &old, &src)
}

fn adds_scaled(len: usize, c: u8) -> bool
    requires { len ≤ 64 }
{
    let old = bytes(c);
    let src = bytes(!c);
    let mut dst = old;
    add_scaled(&mut dst[..len], c, &src[..len]);
    are_sums(&dst, &old, len, c, &src, &old)
}

fn computes_as_the_byte_loop_does(len: usize) -> bool
    requires { len ≤ 64 }
{
    for c in 0..=255 {
        if !scales_and_adds(len, c) || !adds_scaled(len, c) {
            return false;
        }
    }
    true
}

// The sums are computed byte by byte with the field's product.
#[test]
fn scales_and_adds_as_the_byte_loop_does(rt: HostRuntime) {
    for len in LENGTHS {
        assert_row(&rt, len, computes_as_the_byte_loop_does(len));
    }
}

/// Returns whether `len` bytes and the same with these bits changed at a place are found to be the same.
fn is_same_with(len: usize, place: usize, bits: u8) -> bool
    requires len { len ≤ 64 }
    requires place { place < 64 }
{
    let a = bytes(1);
    let mut b = a;
    b[place] ^= bits;
    same(&a[..len], &b[..len])
}

// Equal bytes, and another last byte or first.
fn compares(len: usize) -> bool
    requires { len ≤ 64 }
{
    is_same_with(len, 0, 0)
        && (len == 0 || !is_same_with(len, len - 1, 1) && !is_same_with(len, 0, 0x80))
}

#[test]
fn compares_each_byte(rt: HostRuntime) {
    for len in LENGTHS {
        assert_row(&rt, len, compares(len));
    }
}
