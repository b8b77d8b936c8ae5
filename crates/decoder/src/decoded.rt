ghost use Rattle.std.specs.Prelude.{◌≡◌, ◌↔◌, ◌⊎◌, ◌≤◌, ℕ, List, length, IfOk, OnOk, IfErr, MatchResult};
ghost use Rattle.decoder.specs.Decoded.{IsDecoded};
ghost use Rattle.decoder.specs.Pieces.{AreLawful, AreOfBytes, ArePiecesOf, HaveNoValue, IsInterpolated};

use crate::lawful::{are_lawful, fill_fragments, points};
use crate::rooms::make_value;
use bytes::Bytes;
use piece::Piece;
use std::alloc::Global;
use std::marker::Model;
use tag::{MOST_MEMBERS, Refusal};

/// As many pieces as most codes want.
const FEW_PIECES: usize = 16;

/// A value with the `k` pieces from which it was decoded. Only `decode` makes one.
#[derive(Debug)]
pub struct Decoded {
    k: u8,
    pieces: Vec<Piece>,
    value: Bytes,
}

impl Drop for Decoded {
    fn drop(self) {
        let Self {
            k: _,
            pieces: _,
            value: _,
        } = self;
    }
}

impl Model for Decoded {
    ghost use Rattle.decoder.specs.Decoded.{Decoding, IsDecoded};

    ghost Value = { Decoding };

    ghost view = { λ d. record { k = d.k; pieces = d.pieces.items; value = d.value } };

    ghost invariant = { λ d. IsDecoded (record { k = d.k; pieces = d.pieces.items; value = d.value }) };
}

impl Decoded {
    /// Returns the value of which these are pieces.
    pub fn value(&self) -> &Bytes
        ensures value { result.now ≡ self.now.value }
        ensures decoded { IsDecoded self.now }
    {
        &self.value
    }

    /// Returns the value, and drops its pieces.
    pub fn into_value(self) -> Bytes
        ensures { result ≡ self.value }
    {
        let Self {
            k: _,
            pieces: _,
            value: decoded,
        } = self;
        decoded
    }

    /// Returns the `k` pieces, in the order in which they were given.
    pub fn pieces(&self) -> &[Piece]
        ensures pieces { result.now ≡ self.now.pieces }
        ensures decoded { IsDecoded self.now }
    {
        self.pieces.as_slice()
    }

    /// Returns how many pieces there are.
    pub fn k(&self) -> u8
        ensures { result ≡ self.now.k }
    {
        self.k
    }
}

/// Decodes the value of `len` bytes whose fragments the pieces are. It is cut into `k` blocks of `len.div_ceil(k)`
/// bytes.
///
/// Is refused with `BadPieces` unless the pieces are `k` pieces at distinct points of a value of `len` bytes, within
/// the limits, or if no such value has these fragments; then a byte past `len` in the interpolated blocks is not 0. If
/// there is such a value, `NoMemory` is the only refusal.
pub fn decode(alloc: Global, k: u8, len: u32, pieces: Vec<Piece>) -> Result<Decoded, Refusal>
    ensures kept { IfOk result (λ d. (d.k ≡ k) × (d.pieces ≡ pieces.items)) }
    ensures lawful { OnOk result (AreLawful k len pieces.items) }
    ensures interpolated { IfOk result (λ d. IsInterpolated k len pieces.items d.value) }
    ensures only { IfOk result (λ d. (v : List ℕ) → IsInterpolated k len pieces.items v → v ≡ d.value) }

    ensures bad_pieces { (result ≡ Err Refusal.BadPieces) ↔
        ((¬ AreLawful k len pieces.items) ⊎ HaveNoValue k len pieces.items) }
    ensures refused { IfErr result (λ e. (e ≡ Refusal.BadPieces) ⊎ (e ≡ Refusal.NoMemory)) }

    // Any k pieces of a value give it back, wherever memory is not refused.
    ensures round_trip { (v : List ℕ) → length v ≡ len → ArePiecesOf v k pieces.items →
        MatchResult result (λ d. d.value ≡ v) (λ e. e ≡ Refusal.NoMemory) }
{
    if !are_lawful(k, len, &pieces) {
        return Err(Refusal::BadPieces);
    }
    let value = value_of(alloc, k, len, &pieces)?;
    Ok(Decoded { k, pieces, value })
}

/// Returns the value of `len` bytes whose fragments the lawful pieces are.
fn value_of(alloc: Global, k: u8, len: u32, pieces: &[Piece]) -> Result<Bytes, Refusal>
    requires lawful { AreLawful k len pieces.now }
    requires bytes { AreOfBytes pieces.now }
    ensures interpolated { IfOk result (λ value. IsInterpolated k len pieces.now value) }
    ensures only { IfOk result (λ value. (v : List ℕ) → IsInterpolated k len pieces.now v → v ≡ value) }
    ensures refused { IfErr result (λ e. ((e ≡ Refusal.BadPieces) × HaveNoValue k len pieces.now)
        ⊎ ((e ≡ Refusal.NoMemory) × (¬ HaveNoValue k len pieces.now))) }
{
    let value = value_bytes(alloc, k, len, pieces)?;
    Ok(Bytes::from_vec(value)?)
}

/// Returns the bytes of the value of `len` bytes whose fragments the lawful pieces are.
fn value_bytes(alloc: Global, k: u8, len: u32, pieces: &[Piece]) -> Result<Vec<u8>, Refusal>
    requires lawful { AreLawful k len pieces.now }
    requires bytes { AreOfBytes pieces.now }
    ensures interpolated { IfOk result (λ value. IsInterpolated k len pieces.now value.items) }
    ensures refused { IfErr result (λ e. ((e ≡ Refusal.BadPieces) × HaveNoValue k len pieces.now)
        ⊎ ((e ≡ Refusal.NoMemory) × (¬ HaveNoValue k len pieces.now))) }
{
    if k as usize > FEW_PIECES {
        return value_of_many(alloc, k, len, pieces);
    }
    let mut room: [&[u8]; FEW_PIECES] = [&[]; FEW_PIECES];
    value_in(alloc, k, len, pieces, &mut room)
}

/// `value_bytes` with room for the most fragments. To make this room costs as much as to decode a small value, so this
/// is not inlined; otherwise each call would pay for it.
#[inline(never)]
fn value_of_many(alloc: Global, k: u8, len: u32, pieces: &[Piece]) -> Result<Vec<u8>, Refusal>
    requires lawful { AreLawful k len pieces.now }
    requires bytes { AreOfBytes pieces.now }
    ensures interpolated { IfOk result (λ value. IsInterpolated k len pieces.now value.items) }
    ensures refused { IfErr result (λ e. ((e ≡ Refusal.BadPieces) × HaveNoValue k len pieces.now)
        ⊎ ((e ≡ Refusal.NoMemory) × (¬ HaveNoValue k len pieces.now))) }
{
    let mut room: [&[u8]; MOST_MEMBERS] = [&[]; MOST_MEMBERS];
    value_in(alloc, k, len, pieces, &mut room)
}

/// `value_bytes` with this room for fragments.
fn value_in<'a>(
    alloc: Global,
    k: u8,
    len: u32,
    pieces: &'a [Piece],
    room: &mut [&'a [u8]],
) -> Result<Vec<u8>, Refusal>
    requires room { k ≤ length room.old }
    requires lawful { AreLawful k len pieces.now }
    requires bytes { AreOfBytes pieces.now }
    ensures interpolated { IfOk result (λ value. IsInterpolated k len pieces.now value.items) }
    ensures refused { IfErr result (λ e. ((e ≡ Refusal.BadPieces) × HaveNoValue k len pieces.now)
        ⊎ ((e ≡ Refusal.NoMemory) × (¬ HaveNoValue k len pieces.now))) }
{
    let points = points(pieces);
    fill_fragments(room, pieces);
    make_value(
        alloc,
        k,
        len as usize,
        points.as_slice(),
        &room[..k as usize],
    )
}
