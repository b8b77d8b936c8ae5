//! A coefficient's products, by look-ups.

ghost use Rattle.std.specs.Prelude.{◌≡◌, ℕ, ◌+◌, ◌%◌, ◌<◌, ◌≤◌, length, slice_index};
ghost use Rattle.gf256.specs.Field.{field_product};
ghost use Rattle.gf256.specs.Polynomial.{scaled};

use crate::products::products;
use std::marker::Model;
use std::simd::prelude::*;

/// The bytes of which the upper half is zero, and then those of which the lower half is.
pub(crate) const HALVES: [u8; 32] = [
    0, 1, 2, 3, 4, 5, 6, 7, 8, 9, 10, 11, 12, 13, 14, 15, 0, 16, 32, 48, 64, 80, 96, 112, 128, 144,
    160, 176, 192, 208, 224, 240,
];

/// A coefficient, as its products with the halves of bytes: a product with a byte is the sum of those with its halves.
#[derive(Clone, Copy)]
pub struct Tables {
    products: [u8; 32],
}

impl Model for Tables {
    ghost use Rattle.std.specs.Prelude.{◌≡◌, ℕ, slice_index};
    ghost use Rattle.gf256.specs.Polynomial.{scaled};
    ghost use Rattle.std.proofs.Common.{ap, sym};
    ghost use Rattle.kernels.specs.declared.tables.TheConstants.{HALVES};

    ghost Value = { ℕ };

    ghost view = { λ t. slice_index t.products 1 };

    ghost invariant = { λ t. t.products ≡ scaled (slice_index t.products 1) HALVES };

    ghost inverse = { λ c. record { products = scaled c HALVES } };

    ghost inverse_ok = { λ t known. ap (λ products. record { products = products }) (sym known) };
}

impl Tables {
    /// Returns the tables of 0.
    pub fn zero() -> Tables
        ensures { result ≡ 0 }
    {
        Tables { products: [0; 32] }
    }

    /// Returns the tables of the coefficient `c`.
    pub fn new(c: u8) -> Tables
        ensures { result ≡ c }
    {
        Tables {
            products: products(c),
        }
    }

    /// Returns the coefficient times each lane.
    #[inline(always)]
    pub fn times(&self, lanes: u8x32) -> u8x32
        ensures { result ≡ scaled self.now lanes }
    {
        looked_up(&self.products, lanes)
    }

    /// Returns the tables of the product of two coefficients.
    #[inline(always)]
    pub fn product(&self, other: &Tables) -> Tables
        ensures { result ≡ field_product self.now other.now }
    {
        let products = looked_up(&self.products, u8x32::from_array(other.products));
        Tables {
            products: products.to_array(),
        }
    }
}

/// Returns the coefficient of these products times each lane: the sum of the products of its lower and of its upper
/// half.
#[inline(always)]
fn looked_up(products: &[u8; 32], lanes: u8x32) -> u8x32
    requires { products.now ≡ scaled (slice_index products.now 1) HALVES }
    ensures { result ≡ scaled (slice_index products.now 1) lanes }
{
    let low = twice(products, 0);
    let high = twice(products, 16);
    low.swizzle_dyn_within::<16>(lanes & u8x32::splat(15))
        ^ high.swizzle_dyn_within::<16>((lanes >> 4) & u8x32::splat(15))
}

/// Returns the 16 bytes from `start` on, twice.
#[inline(always)]
fn twice(bytes: &[u8], start: usize) -> u8x32
    requires { start + 16 ≤ length bytes.now }
    ensures { (n : ℕ) → n < 32 → slice_index result n ≡ slice_index bytes.now (start + n % 16) }
{
    let lanes = u8x16::from_slice(&bytes[start..]);
    lanes.shuffle::<32>(
        lanes,
        [
            0, 1, 2, 3, 4, 5, 6, 7, 8, 9, 10, 11, 12, 13, 14, 15, 0, 1, 2, 3, 4, 5, 6, 7, 8, 9, 10,
            11, 12, 13, 14, 15,
        ],
    )
}
