//! The requests that encode and decode, read from the words of a command line.
ghost use Rattle.std.specs.Prelude.{◌≡◌, ◌⊎◌, [], ◌∷◌, ℕ, List, MatchResult, codes, map};
ghost use Rattle.piece.specs.declared.piece.Piece.{Piece};
ghost use Rattle.tag.specs.declared.refusal.Refusal.TheVariants.{NoMemory};
ghost use Rattle.words.specs.Hexadecimal.{IsHexadecimal};
ghost use Rattle.words.specs.Number.{IsNumber};
ghost use Rattle.coding_commands.specs.Request.{SpellPieces, SpellsPiece, ParsesToCoding};
ghost use Rattle.coding_commands.specs.declared.fault.Fault.TheVariants.{BadArgument, Refused};

use crate::fault::Fault;
use bytes::Bytes;
use piece::Piece;
use std::alloc::Global;
use words::{parse_bytes, parse_number};

/// A request to encode or decode. Its numbers are those on the command line, even above their limits.
#[derive(Drop)]
pub enum CodingRequest {
    /// `fragments K N HEX`: the fragments of `value`, which is cut into `k` blocks, at the points from 0 to `n - 1`.
    Fragments {
        k: u64,
        n: u64,
        value: Bytes,
    },
    /// `decode K LEN POINT:HEX..`: the value of `len` bytes, which is cut into `k` blocks, that has these pieces. Each
    /// piece has `len` as the length of its value, or the greatest `u32` if `len` is above it.
    Decode {
        k: u64,
        len: u64,
        pieces: Vec<Piece>,
    },
}

/// Returns the request `fragments K N HEX`. Fails with `BadArgument` if a word is not a number or bytes as its place
/// requires.
pub fn fragments_request(
    alloc: Global,
    k: &str,
    n: &str,
    digits: &str,
) -> Result<CodingRequest, Fault>
    ensures { ParsesToCoding (codes "fragments" ∷ k.now ∷ n.now ∷ digits.now ∷ []) result }
{
    let k = number(k)?;
    let n = number(n)?;
    let value = bytes(alloc, digits)?;
    Ok(CodingRequest::Fragments { k, n, value })
}

/// Returns the request `decode K LEN POINT:HEX..`, where `words` are those from the first `POINT:HEX` on. Fails with
/// `BadArgument` if a word is not a number or a piece as its place requires.
pub fn decode_request(
    alloc: Global,
    k: &str,
    len: &str,
    words: &[&str],
) -> Result<CodingRequest, Fault>
    ensures { ParsesToCoding (codes "decode" ∷ k.now ∷ len.now ∷ map (λ w. w.now) words.now) result }
{
    let k = number(k)?;
    let len = number(len)?;
    let pieces = parse_pieces(alloc, len, words)?;
    Ok(CodingRequest::Decode { k, len, pieces })
}

fn parse_pieces(alloc: Global, len: u64, words: &[&str]) -> Result<Vec<Piece>, Fault>
    ensures { MatchResult result (λ ps. SpellPieces len (map (λ w. w.now) words.now) ps.items)
        (λ e. (e ≡ Refused NoMemory) ⊎ ((e ≡ BadArgument)
        × ((ps : List Piece) → ¬ (SpellPieces len (map (λ w. w.now) words.now) ps)))) }
{
    let mut pieces = Vec::new(alloc);
    for word in words {
        pieces.push(parse_piece(alloc, len, word)?)?;
    }
    Ok(pieces)
}

fn parse_piece(alloc: Global, len: u64, word: &str) -> Result<Piece, Fault>
    ensures { MatchResult result (SpellsPiece len word.now)
        (λ e. (e ≡ Refused NoMemory) ⊎ ((e ≡ BadArgument) × ((p : Piece) → ¬ (SpellsPiece len word.now p)))) }
{
    let Some((point, digits)) = word.split_once(':') else {
        return Err(Fault::BadArgument);
    };
    let point = number(point)?;
    if point > 255 {
        return Err(Fault::BadArgument);
    }
    let bytes = bytes(alloc, digits)?;
    Ok(Piece {
        point: point as u8,
        len: len.min(u32::MAX as u64) as u32,
        bytes,
    })
}

fn number(word: &str) -> Result<u64, Fault>
    ensures { MatchResult result (IsNumber word.now)
        (λ e. (e ≡ BadArgument) × ((n : ℕ) → ¬ (IsNumber word.now n))) }
{
    parse_number(word).ok_or(Fault::BadArgument)
}

fn bytes(alloc: Global, word: &str) -> Result<Bytes, Fault>
    ensures { MatchResult result (IsHexadecimal word.now)
        (λ e. (e ≡ Refused NoMemory) ⊎ ((e ≡ BadArgument)
        × ((bytes : List ℕ) → ¬ (IsHexadecimal word.now bytes)))) }
{
    match parse_bytes(alloc, word)? {
        Some(bytes) => Ok(bytes),
        None => Err(Fault::BadArgument),
    }
}
