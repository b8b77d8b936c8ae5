//! What one word spells, or several words. Each function fails with `Bad` if they have another form, and with
//! `NoMemory` if memory is refused for their numbers or bytes.
ghost use Rattle.std.specs.Prelude.{◌≡◌, ◌⊎◌, ℕ, List, Option, IfErr, IfOk, map};
ghost use Rattle.words.specs.Hexadecimal.{IsHexadecimal};
ghost use Rattle.words.specs.Number.{IsNumber};
ghost use Rattle.script.specs.Arguments.{AreDelta, AreNumbers, AreTurns};
ghost use Rattle.script.specs.declared.error.LineError.TheVariants.{Bad, NoMemory};

use crate::error::LineError;
use bytes::Bytes;
use std::alloc::Global;
use words::{parse_bytes, parse_number};

/// The turns of a whole call if a line does not give them.
const DEFAULT_TURNS: u64 = 100_000;

pub(crate) fn number(word: &str) -> Result<u64, LineError>
    ensures ok { IfOk result (IsNumber word.now) }
    ensures err { IfErr result (λ e. (e ≡ Bad) × ((n : ℕ) → ¬ (IsNumber word.now n))) }
{
    parse_number(word).ok_or(LineError::Bad)
}

pub(crate) fn numbers(alloc: Global, words: &[&str]) -> Result<Vec<u64>, LineError>
    ensures ok { IfOk result (λ ns. AreNumbers ns.items (map (λ w. w.now) words.now)) }
    ensures err { IfErr result (λ e. (e ≡ NoMemory) ⊎ ((e ≡ Bad)
        × ((ns : List ℕ) → ¬ (AreNumbers ns (map (λ w. w.now) words.now))))) }
{
    let mut numbers = Vec::new(alloc);
    for word in words {
        numbers.push(number(word)?)?;
    }
    Ok(numbers)
}

pub(crate) fn turns(words: &[&str]) -> Result<u64, LineError>
    ensures ok { IfOk result (AreTurns (map (λ w. w.now) words.now)) }
    ensures err { IfErr result (λ e. (e ≡ Bad)
        × ((n : ℕ) → ¬ (AreTurns (map (λ w. w.now) words.now) n))) }
{
    match words {
        [] => Ok(DEFAULT_TURNS),
        [word] => number(word),
        _ => Err(LineError::Bad),
    }
}

pub(crate) fn delta(words: &[&str]) -> Result<Option<u32>, LineError>
    ensures ok { IfOk result (AreDelta (map (λ w. w.now) words.now)) }
    ensures err { IfErr result (λ e. (e ≡ Bad)
        × ((d : Option ℕ) → ¬ (AreDelta (map (λ w. w.now) words.now) d))) }
{
    match words {
        [] => Ok(None),
        [word] => match u32::try_from(number(word)?) {
            Ok(delta) => Ok(Some(delta)),
            Err(_) => Err(LineError::Bad),
        },
        _ => Err(LineError::Bad),
    }
}

pub(crate) fn bytes(alloc: Global, word: &str) -> Result<Bytes, LineError>
    ensures ok { IfOk result (IsHexadecimal word.now) }
    ensures err { IfErr result (λ e. (e ≡ NoMemory) ⊎ ((e ≡ Bad)
        × ((bytes : List ℕ) → ¬ (IsHexadecimal word.now bytes)))) }
{
    match parse_bytes(alloc, word)? {
        Some(bytes) => Ok(bytes),
        None => Err(LineError::Bad),
    }
}
