//! Tests of sums of rows, against sums computed by hand and against sums computed byte by byte.

ghost use Rattle.std.specs.Prelude.{◌≡◌, ◌≤◌, ◌+◌, ◌%◌, length};

use crate::same::{are_all, assert_row, byte_at, fill};
use gf256::mul;
use kernels::{Tables, differences_of, dot, dots_of, powers_of};

const LENGTHS: [usize; 8] = [0, 1, 31, 32, 33, 64, 65, 100];

/// Bytes of which each value of a byte comes up, from another one on at another `seed`.
fn bytes(seed: u8) -> [u8; 300] {
    let mut bytes = [0; 300];
    fill(seed, &mut bytes);
    bytes
}

// By hand: 2 times 0x80 is 0x1D, 3 times 0x01 is 0x03, and the sum of both is 0x1E.
#[test]
fn sums_by_hand(rt: HostRuntime) {
    let mut out = [0xFF; 1];
    dot(
        &mut out,
        &[Tables::new(2), Tables::new(3)],
        &[&[0x80], &[0x01]],
    );
    assert!(rt; out[0] == 0x1E);
}

// By hand: 3 times 0x80 is 0x9D, 2 times 0x01 is 0x02, and the sum of both is 0x9F, as that of 0x80 and 2 times 0x81.
#[test]
fn sums_differences_by_hand(rt: HostRuntime) {
    let mut out = [0xFF; 100];
    differences_of::<1>(
        &mut out,
        &[Tables::new(3), Tables::new(2)],
        &[&[0x80; 100], &[0x01; 100]],
        100,
        true,
    );
    assert!(rt; are_all(&out, 0x9F));
}

/// Returns whether the sums of one row are the products by `c`.
fn multiplies(c: u8, value: &[u8; 300]) -> bool {
    let mut out = [0; 256];
    dot(&mut out, &[Tables::new(c)], &[value]);
    are_products(&out, c, value)
}

/// Returns whether these bytes are those of `value`, each by `c` with the field's product.
fn are_products(out: &[u8; 256], c: u8, value: &[u8; 300]) -> bool {
    for b in 0..256 {
        if out[b] != mul(c, value[b]) {
            return false;
        }
    }
    true
}

#[test]
fn multiplies_all_bytes(rt: HostRuntime) {
    let value = bytes(0);
    for c in 0..=255 {
        assert_row(&rt, c as usize, multiplies(c, &value));
    }
}

fn multiplies_coefficient(a: u8) -> bool {
    let mut out = [0; 1];
    dot(
        &mut out,
        &[Tables::new(a).product(&Tables::new(0x53))],
        &[&[1]],
    );
    out[0] == mul(a, 0x53)
}

#[test]
fn multiplies_coefficients(rt: HostRuntime) {
    for a in 0..=255u8 {
        assert_row(&rt, a as usize, multiplies_coefficient(a));
    }
}

/// Returns whether the bytes of a row of sums are those of both sources, each by its coefficient, with the field's
/// product. After its end a source has zeros.
fn is_row(sums: &[u8], row: [u8; 2], first: &[u8], second: &[u8]) -> bool {
    for b in 0..sums.len() {
        let one = mul(row[0], byte_at(first, b));
        let other = mul(row[1], byte_at(second, b));
        if sums[b] != one ^ other {
            return false;
        }
    }
    true
}

const ROWS: [[u8; 2]; 4] = [[1, 1], [1, 2], [0, 255], [29, 128]];

fn are_rows(sums: &[u8; 400], size: usize, first: &[u8], second: &[u8]) -> bool
    requires { size ≤ 100 }
{
    for r in 0..4 {
        if !is_row(&sums[r * size..(r + 1) * size], ROWS[r], first, second) {
            return false;
        }
    }
    true
}

fn sums_rows(tables: &[Tables; 8], first: &[u8], second: &[u8]) -> bool
    requires { length first.now ≤ 100 }
{
    let size = first.len();
    let mut out = [0xAA; 400];
    dots_of::<4>(&mut out[..4 * size], tables, &[first, second], size);
    are_rows(&out, size, first, second)
}

fn tables_of_rows() -> [Tables; 8] {
    let mut tables = [Tables::zero(); 8];
    for r in 0..4 {
        tables[r] = Tables::new(ROWS[r][0]);
        tables[4 + r] = Tables::new(ROWS[r][1]);
    }
    tables
}

// The second source ends early.
fn sums_each_end(tables: &[Tables; 8], first: &[u8], second: &[u8; 300]) -> bool
    requires { length first.now ≤ 100 }
{
    for short in 0..=first.len() {
        if !sums_rows(tables, first, &second[..short]) {
            return false;
        }
    }
    true
}

// The sums are computed byte by byte with the field's product.
#[test]
fn sums_rows_as_the_byte_loop_does(rt: HostRuntime) {
    let first = bytes(3);
    let second = bytes(7);
    let tables = tables_of_rows();
    for size in LENGTHS {
        assert_row(&rt, size, sums_each_end(&tables, &first[..size], &second));
    }
}

/// Returns the sum of the bytes b of the sources by the powers of `point`, with the field's product.
fn power_sum(sources: &[&[u8]], point: u8, b: usize) -> u8 {
    let mut sum = 0;
    let mut power = 1;
    for source in sources {
        sum ^= mul(power, byte_at(source, b));
        power = mul(power, point);
    }
    sum
}

fn is_power_row(sums: &[u8], point: u8, sources: &[&[u8]]) -> bool {
    for b in 0..sums.len() {
        if sums[b] != power_sum(sources, point, b) {
            return false;
        }
    }
    true
}

fn are_power_rows(sums: &[u8; 800], size: usize, first: usize, sources: &[&[u8]]) -> bool
    requires size { size ≤ 100 }
    requires points { first + 7 ≤ 256 }
{
    for r in 0..7 {
        if !is_power_row(&sums[r * size..(r + 1) * size], (first + r) as u8, sources) {
            return false;
        }
    }
    true
}

fn sums_powers(size: usize, first: usize, sources: &[&[u8]]) -> bool
    requires size { size ≤ 100 }
    requires even { first % 2 ≡ 0 }
    requires points { first + 7 ≤ 256 }
    requires some { 1 ≤ length sources.now }
{
    let mut out = [0xAA; 800];
    powers_of::<7>(&mut out[..7 * size], sources, size, first);
    are_power_rows(&out, size, first, sources)
}

// The last source ends early.
fn sums_powers_at(size: usize, first: usize) -> bool
    requires size { size ≤ 100 }
    requires even { first % 2 ≡ 0 }
    requires points { first + 7 ≤ 256 }
{
    let one = bytes(3);
    let two = bytes(7);
    let three = bytes(11);
    sums_powers(
        size,
        first,
        &[&one[..size], &two[..size], &three[..size / 2]],
    )
}

#[test]
fn sums_by_powers_as_the_byte_loop_does(rt: HostRuntime) {
    for size in LENGTHS {
        let holds = sums_powers_at(size, 0) && sums_powers_at(size, 2) && sums_powers_at(size, 246);
        assert_row(&rt, size, holds);
    }
}

// By hand: 1, 2 and 3 at the points 0 and 1 are 1, and 1 ^ 2 ^ 3 = 0; at 2 they are 1 ^ 4 ^ 12 = 9.
#[test]
fn sums_powers_by_hand(rt: HostRuntime) {
    let mut out = [0xAA; 3];
    powers_of::<3>(&mut out, &[&[1], &[2], &[3]], 1, 0);
    assert!(rt; out[0] == 1 && out[1] == 0 && out[2] == 9);
}
