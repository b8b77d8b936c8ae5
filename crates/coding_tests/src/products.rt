//! Products, inverses and powers of the field.
use crate::same::assert_row;
use gf256::{div, inv, mul, pow};

// The values are printed by `gf_mul` of Intel's library ISA-L 2.30, which multiplies modulo the same polynomial.
static PRODUCTS: [(u8, u8, u8); 19] = [
    (0x80, 0x02, 0x1D),
    (0x80, 0x80, 0x13),
    (0x03, 0x03, 0x05),
    (0x36, 0xAF, 0xA3),
    (0x7D, 0xD0, 0xD9),
    (0x6A, 0x32, 0xFB),
    (0xC8, 0xA5, 0x17),
    (0x56, 0x60, 0x36),
    (0x00, 0x57, 0x00),
    (0x57, 0xE0, 0x9E),
    (0x53, 0xE1, 0x6A),
    (0xF9, 0x27, 0x83),
    (0xD9, 0xF3, 0x89),
    (0xC2, 0x57, 0x02),
    (0x1B, 0x2F, 0xDE),
    (0xB9, 0x65, 0xB8),
    (0x2C, 0x6E, 0xB3),
    (0x23, 0x81, 0x73),
    (0xE9, 0x78, 0x99),
];

#[test]
fn products(rt: HostRuntime) {
    for place in 0..PRODUCTS.len() {
        let (a, b, product) = PRODUCTS[place];
        assert_row(&rt, place, mul(a, b) == product);
    }
}

// The values are printed by `gf_inv` of the same library.
static INVERSES: [(u8, u8); 8] = [
    (0x01, 0x01),
    (0x02, 0x8E),
    (0x03, 0xF4),
    (0x1D, 0x83),
    (0x53, 0x8C),
    (0x80, 0x1B),
    (0x8E, 0x02),
    (0xFF, 0xFD),
];

#[test]
fn inverses(rt: HostRuntime) {
    for place in 0..INVERSES.len() {
        let (a, inverse) = INVERSES[place];
        let holds = a > 0 && inv(a) == inverse && div(1, a) == inverse;
        assert_row(&rt, place, holds);
    }
}

// By hand: x^8 is x^4 + x^3 + x^2 + 1; the empty product is 1; the 255 elements that are not zero form a group.
static POWERS: [(u8, u32, u8); 4] = [
    (0x02, 8, 0x1D),
    (0x00, 0, 0x01),
    (0x00, 1, 0x00),
    (0x53, 255, 0x01),
];

#[test]
fn powers(rt: HostRuntime) {
    for place in 0..POWERS.len() {
        let (a, exponent, power) = POWERS[place];
        assert_row(&rt, place, pow(a, exponent) == power);
    }
}
