ghost use Rattle.std.specs.Prelude.{◌≡◌, ◌*◌, ◌<◌, ◌≤◌, length, IfOk, IfErr};
ghost use Rattle.tag.specs.Refusal.{IsByCause};
ghost use Rattle.encoder.specs.Fragment.{fragment_len, piece_at_point};
ghost use Rattle.encoder.specs.Points.{AreFragmentRows};
ghost use Rattle.encoder.specs.Coded.{IsCodable, ArePieces, encode_cause};

use crate::block::fragments_from;
use bytes::Bytes;
use piece::Piece;
use std::alloc::{AllocError, Global};
use std::marker::Model;
use tag::{LONGEST_VALUE, MOST_MEMBERS, Refusal};

/// A value with its `n` pieces, any `k` of which determine it.
#[derive(Debug)]
pub struct Coded {
    k: u8,
    n: u8,
    value: Bytes,
    /// The piece at the point `i` stands at place `i`.
    pieces: Vec<Piece>,
}

impl Drop for Coded {
    fn drop(self) {
        let Self {
            k: _,
            n: _,
            value: _,
            pieces: _,
        } = self;
    }
}

impl Model for Coded {
    ghost use Rattle.std.specs.Prelude.{◌≡◌, length};
    ghost use Rattle.encoder.specs.Coded.{Coding, IsCodable, ArePieces};

    ghost Value = { Coding };

    ghost view = { λ c. record { k = c.k; n = c.n; value = c.value } };

    ghost invariant = { λ c. IsCodable c.k c.n c.value
        × (length c.pieces.items ≡ c.n) × ArePieces c.value c.k c.pieces.items };
}

impl Coded {
    /// Returns the value that was coded.
    pub fn value(&self) -> &Bytes
        ensures value { result.now ≡ self.now.value }
        ensures lawful { IsCodable self.now.k self.now.n self.now.value }
    {
        &self.value
    }

    /// Returns how many pieces determine the value.
    pub fn k(&self) -> u8
        ensures k { result ≡ self.now.k }
        ensures lawful { IsCodable self.now.k self.now.n self.now.value }
    {
        self.k
    }

    /// Returns how many pieces there are.
    pub fn n(&self) -> u8
        ensures n { result ≡ self.now.n }
        ensures lawful { IsCodable self.now.k self.now.n self.now.value }
    {
        self.n
    }

    /// Returns the piece at the point `i`.
    pub fn piece_at(&self, i: u8) -> &Piece
        requires { i < self.now.n }
        ensures { result.now ≡ piece_at_point self.now.value self.now.k i }
    {
        &self.pieces[i as usize]
    }
}

/// Codes `value` into `n` pieces of `value.len().div_ceil(k)` bytes each; the value itself is kept and not copied.
///
/// Is refused with `BadLayout` if `k` is 0 or above `n`, or `n` is above `MOST_MEMBERS`; otherwise with `TooLong` if
/// the value is longer than `LONGEST_VALUE`; otherwise with `NoMemory` if memory is refused.
pub fn encode(alloc: Global, k: u8, n: u8, value: Bytes) -> Result<Coded, Refusal>
    ensures coded { IfOk result (λ c. c ≡ record { k = k; n = n; value = value }) }
    ensures refused { IsByCause (encode_cause k n (length value)) result }
{
    if k == 0 || k > n || n as usize > MOST_MEMBERS {
        return Err(Refusal::BadLayout);
    }
    if value.len() > LONGEST_VALUE {
        return Err(Refusal::TooLong);
    }
    let pieces = pieces(alloc, k, n, value.as_slice())?;
    Ok(assemble(k, n, value, pieces))
}

/// Returns the pieces of `value` at the points below `n`. Their fragments share one block of memory.
fn pieces(alloc: Global, k: u8, n: u8, value: &[u8]) -> Result<Vec<Piece>, Refusal>
    requires threshold { 1 ≤ k }
    requires longest { length value.now ≤ LONGEST_VALUE }
    ensures count { IfOk result (λ pieces. length pieces.items ≡ n) }
    ensures pieces { IfOk result (λ pieces. ArePieces value.now k pieces.items) }
    ensures refused { IfErr result (λ r. r ≡ Refusal.NoMemory) }
{
    let mut pieces = Vec::with_capacity(alloc, n as usize)?;
    let fragments = Bytes::from_vec(fragments_from(alloc, k, 0, n, value)?)?;
    for i in 0..n {
        pieces.push(piece_in(&fragments, k, n, i, value)?)?;
    }
    Ok(pieces)
}

/// Piece `i` of the `n` whose fragments stand one after another.
fn piece_in(fragments: &Bytes, k: u8, n: u8, i: u8, value: &[u8]) -> Result<Piece, AllocError>
    requires threshold { 1 ≤ k }
    requires longest { length value.now ≤ LONGEST_VALUE }
    requires within { i < n }
    requires len { length fragments.now ≡ n * fragment_len k (length value.now) }
    requires fragments { AreFragmentRows fragments.now n value.now k 0 }
    ensures { IfOk result (λ p. p ≡ piece_at_point value.now k i) }
{
    let block_len = value.len().div_ceil(k as usize);
    let start = i as usize * block_len;
    let bytes = fragments.slice(start..start + block_len)?;
    Ok(Piece {
        point: i,
        len: value.len() as u32,
        bytes,
    })
}

/// Puts a value together with its `n` pieces, each made by `piece`. It allocates no memory.
pub fn assemble(k: u8, n: u8, value: Bytes, pieces: Vec<Piece>) -> Coded
    requires lawful { IsCodable k n value }
    requires count { length pieces.items ≡ n }
    requires pieces { ArePieces value k pieces.items }
    ensures { result ≡ record { k = k; n = n; value = value } }
{
    Coded {
        k,
        n,
        value,
        pieces,
    }
}
