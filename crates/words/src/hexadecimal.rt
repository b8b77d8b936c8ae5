//! Bytes as hexadecimal digits, and no bytes as `.`.
ghost use Rattle.std.specs.Prelude.{◌≡◌, ◌≤◌, ◌*◌, ℕ, List, IfOk, MatchOption, Some, length};
ghost use Rattle.hex.specs.Hex.{encode_lower};
ghost use Rattle.words.specs.Hexadecimal.{IsHexadecimal, hexadecimal_text};

use bytes::Bytes;
use hex::FromHexError;
use std::alloc::{AllocError, Global};
use std::fmt;

/// How many bytes are turned into digits at a time.
const CHUNK: usize = 512;

/// Returns the bytes that a word spells: two hexadecimal digits of either case for each byte, or `.` for no bytes.
/// Returns none for any other word, such as the empty one or one with an odd number of digits.
pub fn parse_bytes(alloc: Global, word: &str) -> Result<Option<Bytes>, AllocError>
    ensures { IfOk result (λ found. MatchOption found
        ((bytes : List ℕ) → ¬ (IsHexadecimal word.now bytes)) (IsHexadecimal word.now)) }
{
    if word == "." {
        return Ok(Some(Bytes::new()));
    }
    if word.is_empty() {
        return Ok(None);
    }
    match hex::decode(alloc, word) {
        Ok(bytes) => Ok(Some(Bytes::from_vec(bytes)?)),
        Err(FromHexError::OutOfMemory) => Err(AllocError),
        Err(_) => Ok(None),
    }
}

/// Bytes that print as the word that spells them, in lower case.
#[derive(Clone, Copy)]
pub struct Hexadecimal<'a>(pub &'a [u8]);

impl fmt::Display for Hexadecimal<'_> {
    ghost output = { λ h. Some (hexadecimal_text h.0.now) };

    fn fmt<W: fmt::Write>(&self, f: &mut fmt::Formatter<W>) -> fmt::Result {
        if self.0.is_empty() {
            return f.write_str(".");
        }
        let mut digits = [0u8; 2 * CHUNK];
        for chunk in self.0.chunks(CHUNK) {
            f.write_str(digits_of(chunk, &mut digits))?;
        }
        Ok(())
    }
}

/// Returns the digits of `bytes`, which are written to the front of `digits`.
fn digits_of<'a>(bytes: &[u8], digits: &'a mut [u8]) -> &'a str
    requires { 2 * length bytes.now ≤ length digits.old }
    ensures { result.now ≡ encode_lower bytes.now }
{
    let digits = &mut digits[..2 * bytes.len()];
    let Ok(()) = hex::encode_to_slice(bytes, digits) else {
        unreachable!();
    };
    let Ok(text) = str::from_utf8(digits) else {
        unreachable!();
    };
    text
}
