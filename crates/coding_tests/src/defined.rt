//! Fragments beside the definition of a fragment, at lengths and shapes that loops over lanes could get wrong.

ghost use Rattle.std.specs.Prelude.{◌≤◌, length};

use crate::same::{assert_row, byte_at, filled};
use encoder::{encode_into, piece};
use gf256::mul;
use piece::Piece;
use std::alloc::Global;
use std::process::Abort;

/// Byte `b` of the fragment of `value` at the point `x`, as it is defined: the sum of `x^j` times byte `b` of block j.
fn fragment_byte(k: u8, x: u8, value: &[u8], b: usize) -> u8 {
    let block_len = value.len().div_ceil(k.max(1) as usize);
    let mut place = b;
    let mut sum = 0;
    let mut power = 1;
    for _ in 0..k {
        sum ^= mul(power, byte_at(value, place));
        power = mul(power, x);
        place = place.saturating_add(block_len);
    }
    sum
}

/// Returns whether each byte of the fragment that was made for the point `x` is as it is defined.
fn is_fragment(k: u8, x: u8, value: &[u8], made: &[u8]) -> bool {
    for b in 0..made.len() {
        if made[b] != fragment_byte(k, x, value, b) {
            return false;
        }
    }
    true
}

fn is_piece(made: &Piece, k: u8, x: u8, value: &[u8]) -> bool
    requires { 1 ≤ k }
{
    made.point == x
        && made.len as usize == value.len()
        && made.bytes.len() == value.len().div_ceil(k as usize)
        && is_fragment(k, x, value, made.bytes.as_slice())
}

fn makes_piece(alloc: Global, k: u8, x: u8, value: &[u8]) -> bool
    requires threshold { 1 ≤ k }
    requires most { length value.now ≤ MOST_BYTES }
{
    match piece(alloc, k, x, value) {
        Ok(made) => is_piece(&made, k, x, value),
        Err(_) => false,
    }
}

static TEXT: &[u8; 103] =
    b"Thirty-two bytes go at once, so lengths near its multiples are those that a loop over lanes gets wrong.";

static LENGTHS: [usize; 12] = [0, 1, 31, 32, 33, 63, 64, 65, 95, 96, 97, 99];

/// Returns whether the pieces of the text's first bytes at the point `x` are as they are defined, at each length.
fn makes_each_length(alloc: Global, k: u8, x: u8) -> bool
    requires { 1 ≤ k }
{
    for len in &LENGTHS {
        match TEXT.get(..*len) {
            Some(value) if makes_piece(alloc, k, x, value) => {}
            _ => return false,
        }
    }
    true
}

/// Numbers of blocks, and points.
static POINTS: [(u8, u8); 6] = [(1, 0), (1, 7), (2, 1), (3, 2), (5, 31), (32, 255)];

#[test]
fn meets_the_definition_at_each_length(rt: HostRuntime) {
    for place in 0..POINTS.len() {
        let (k, x) = POINTS[place];
        let holds = k >= 1 && makes_each_length(rt.alloc(), k, x);
        assert_row(&rt, place, holds);
    }
}

/// The most bytes of a value in the test below.
const MOST_BYTES: usize = 255 * 65;

fn fragment_in(made: &[u8], x: u8, block_len: usize) -> Option<&[u8]>
    requires { block_len ≤ MOST_BYTES }
{
    made.get(x as usize * block_len..(x as usize + 1) * block_len)
}

/// Returns whether the first seven of these fragments, and the last one, are as they are defined.
fn are_fragments(k: u8, n: u8, value: &[u8], block_len: usize, made: &[u8]) -> bool
    requires { block_len ≤ MOST_BYTES }
{
    for x in 0..n {
        if x < 7 || x == n - 1 {
            match fragment_in(made, x, block_len) {
                Some(fragment) if is_fragment(k, x, value, fragment) => {}
                _ => return false,
            }
        }
    }
    true
}

fn makes_fragments(rt: &impl Abort, alloc: Global, k: u8, n: u8, value: &[u8]) -> bool
    requires threshold { 1 ≤ k }
    requires most { length value.now ≤ MOST_BYTES }
{
    let block_len = value.len().div_ceil(k as usize);
    let mut made = vec![in alloc; 0xAA; n as usize * block_len].expect(rt, "so many bytes");
    encode_into(k, n, value, &mut made);
    are_fragments(k, n, value, block_len, &made)
}

fn makes_each_n(rt: &impl Abort, alloc: Global, k: u8, value: &[u8]) -> bool
    requires threshold { 1 ≤ k }
    requires most { length value.now ≤ MOST_BYTES }
{
    for n in [1, 2, 3, 4, 5, 6, 7, 255] {
        if !makes_fragments(rt, alloc, k, n, value) {
            return false;
        }
    }
    true
}

fn makes_shape(rt: &impl Abort, alloc: Global, k: u8, len: usize) -> bool {
    let value = filled(rt, alloc, len);
    k >= 1 && value.len() <= MOST_BYTES && makes_each_n(rt, alloc, k, &value)
}

/// Numbers of blocks, and lengths of values in blocks of 1, 31, 32, 33, 63, 64 and 65 bytes. The last block is one byte
/// short where there are 64 or more.
static SHAPES: [(u8, usize); 27] = [
    (1, 1),
    (1, 31),
    (1, 32),
    (1, 33),
    (1, 63),
    (1, 64),
    (2, 2),
    (2, 62),
    (2, 64),
    (2, 66),
    (2, 126),
    (2, 127),
    (2, 129),
    (3, 3),
    (3, 93),
    (3, 96),
    (3, 99),
    (3, 189),
    (3, 191),
    (3, 194),
    (255, 255),
    (255, 7905),
    (255, 8160),
    (255, 8415),
    (255, 16_065),
    (255, 16_319),
    (255, 16_574),
];

#[test]
fn meets_the_definition_at_each_shape(rt: HostRuntime) {
    for place in 0..SHAPES.len() {
        let (k, len) = SHAPES[place];
        assert_row(&rt, place, makes_shape(&rt, rt.alloc(), k, len));
    }
}
