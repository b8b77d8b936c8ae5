//! The words of a command after those that name it. Each function reads all the words that it is given. It fails with
//! `Bad` if they have another form, and with `NoMemory` if memory is refused for their numbers or bytes.
ghost use Rattle.std.specs.Prelude.{◌≡◌, ◌⊎◌, ℕ, List, Option, IfErr, IfOk, map};
ghost use Rattle.script.specs.Arguments.{AreName, AreNameAndBytes, AreNameAndNumber, AreNameAndNumbers};
ghost use Rattle.script.specs.Arguments.{AreNameAndTurns, AreNameAndTwoNumbers, AreNameBytesAndTurns};
ghost use Rattle.script.specs.Arguments.{AreNameNumberAndBytes, AreNameNumberAndDelta, AreNameNumberAndTurns};
ghost use Rattle.script.specs.Arguments.{AreNone, AreNumber, AreNumberAndMembers, AreServers};
ghost use Rattle.words.specs.Word.{Word};
ghost use Rattle.script.specs.declared.error.LineError.TheVariants.{Bad, NoMemory};

use crate::error::LineError;
use crate::values::{bytes, delta, number, numbers, turns};
use bytes::Bytes;
use std::alloc::Global;

pub(crate) fn no_words(words: &[&str]) -> Result<(), LineError>
    ensures ok { IfOk result (λ r. AreNone (map (λ w. w.now) words.now)) }
    ensures err { IfErr result (λ e. (e ≡ Bad)
        × (¬ (AreNone (map (λ w. w.now) words.now)))) }
{
    if words.is_empty() {
        Ok(())
    } else {
        Err(LineError::Bad)
    }
}

pub(crate) fn one_number(words: &[&str]) -> Result<u64, LineError>
    ensures ok { IfOk result (λ r. AreNumber r (map (λ w. w.now) words.now)) }
    ensures err { IfErr result (λ e. (e ≡ Bad)
        × ((n : ℕ) → ¬ (AreNumber n (map (λ w. w.now) words.now)))) }
{
    match words {
        [word] => number(word),
        _ => Err(LineError::Bad),
    }
}

pub(crate) fn servers_count(words: &[&str]) -> Result<u8, LineError>
    ensures ok { IfOk result (λ r. AreServers r (map (λ w. w.now) words.now)) }
    ensures err { IfErr result (λ e. (e ≡ Bad)
        × ((n : ℕ) → ¬ (AreServers n (map (λ w. w.now) words.now)))) }
{
    match words {
        [word] => match u8::try_from(number(word)?) {
            Ok(count) => Ok(count),
            Err(_) => Err(LineError::Bad),
        },
        _ => Err(LineError::Bad),
    }
}

pub(crate) fn number_and_members(
    alloc: Global,
    words: &[&str],
) -> Result<(u64, Vec<u64>), LineError>
    ensures ok { IfOk result (λ r. AreNumberAndMembers r.0 r.1.items (map (λ w. w.now) words.now)) }
    ensures err { IfErr result (λ e. (e ≡ NoMemory) ⊎ ((e ≡ Bad)
        × ((n : ℕ) (ns : List ℕ) → ¬ (AreNumberAndMembers n ns (map (λ w. w.now) words.now))))) }
{
    match words {
        [_] => Err(LineError::Bad),
        [word, rest @ ..] => Ok((number(word)?, numbers(alloc, rest)?)),
        _ => Err(LineError::Bad),
    }
}

pub(crate) fn one_name<'a>(words: &[&'a str]) -> Result<&'a str, LineError>
    ensures ok { IfOk result (λ r. AreName r.now (map (λ w. w.now) words.now)) }
    ensures err { IfErr result (λ e. (e ≡ Bad)
        × ((name : Word) → ¬ (AreName name (map (λ w. w.now) words.now)))) }
{
    match words {
        [name] => Ok(*name),
        _ => Err(LineError::Bad),
    }
}

pub(crate) fn name_and_number<'a>(words: &[&'a str]) -> Result<(&'a str, u64), LineError>
    ensures ok { IfOk result (λ r. AreNameAndNumber r.0.now r.1 (map (λ w. w.now) words.now)) }
    ensures err { IfErr result (λ e. (e ≡ Bad)
        × ((name : Word) (n : ℕ) → ¬ (AreNameAndNumber name n (map (λ w. w.now) words.now)))) }
{
    match words {
        [name, word] => Ok((*name, number(word)?)),
        _ => Err(LineError::Bad),
    }
}

pub(crate) fn name_and_two_numbers<'a>(words: &[&'a str]) -> Result<(&'a str, u64, u64), LineError>
    ensures ok { IfOk result (λ r. AreNameAndTwoNumbers r.0.now r.1 r.2 (map (λ w. w.now) words.now)) }
    ensures err { IfErr result (λ e. (e ≡ Bad)
        × ((name : Word) (n m : ℕ) → ¬ (AreNameAndTwoNumbers name n m (map (λ w. w.now) words.now)))) }
{
    match words {
        [name, word, other] => Ok((*name, number(word)?, number(other)?)),
        _ => Err(LineError::Bad),
    }
}

pub(crate) fn name_and_numbers<'a>(
    alloc: Global,
    words: &[&'a str],
) -> Result<(&'a str, Vec<u64>), LineError>
    ensures ok { IfOk result (λ r. AreNameAndNumbers r.0.now r.1.items (map (λ w. w.now) words.now)) }
    ensures err { IfErr result (λ e. (e ≡ NoMemory) ⊎ ((e ≡ Bad)
        × ((name : Word) (ns : List ℕ) → ¬ (AreNameAndNumbers name ns (map (λ w. w.now) words.now))))) }
{
    match words {
        [name, rest @ ..] => Ok((*name, numbers(alloc, rest)?)),
        _ => Err(LineError::Bad),
    }
}

pub(crate) fn name_and_bytes<'a>(
    alloc: Global,
    words: &[&'a str],
) -> Result<(&'a str, Bytes), LineError>
    ensures ok { IfOk result (λ r. AreNameAndBytes r.0.now r.1 (map (λ w. w.now) words.now)) }
    ensures err { IfErr result (λ e. (e ≡ NoMemory) ⊎ ((e ≡ Bad)
        × ((name : Word) (bytes : List ℕ) → ¬ (AreNameAndBytes name bytes (map (λ w. w.now) words.now))))) }
{
    match words {
        [name, word] => Ok((*name, bytes(alloc, word)?)),
        _ => Err(LineError::Bad),
    }
}

pub(crate) fn name_number_and_bytes<'a>(
    alloc: Global,
    words: &[&'a str],
) -> Result<(&'a str, u64, Bytes), LineError>
    ensures ok { IfOk result (λ r. AreNameNumberAndBytes r.0.now r.1 r.2 (map (λ w. w.now) words.now)) }
    ensures err { IfErr result (λ e. (e ≡ NoMemory) ⊎ ((e ≡ Bad)
        × ((name : Word) (n : ℕ) (bytes : List ℕ)
        → ¬ (AreNameNumberAndBytes name n bytes (map (λ w. w.now) words.now))))) }
{
    match words {
        [name, word, digits] => Ok((*name, number(word)?, bytes(alloc, digits)?)),
        _ => Err(LineError::Bad),
    }
}

pub(crate) fn name_and_turns<'a>(words: &[&'a str]) -> Result<(&'a str, u64), LineError>
    ensures ok { IfOk result (λ r. AreNameAndTurns r.0.now r.1 (map (λ w. w.now) words.now)) }
    ensures err { IfErr result (λ e. (e ≡ Bad)
        × ((name : Word) (n : ℕ) → ¬ (AreNameAndTurns name n (map (λ w. w.now) words.now)))) }
{
    match words {
        [name, rest @ ..] => Ok((*name, turns(rest)?)),
        _ => Err(LineError::Bad),
    }
}

pub(crate) fn name_bytes_and_turns<'a>(
    alloc: Global,
    words: &[&'a str],
) -> Result<(&'a str, Bytes, u64), LineError>
    ensures ok { IfOk result (λ r. AreNameBytesAndTurns r.0.now r.1 r.2 (map (λ w. w.now) words.now)) }
    ensures err { IfErr result (λ e. (e ≡ NoMemory) ⊎ ((e ≡ Bad)
        × ((name : Word) (bytes : List ℕ) (n : ℕ)
        → ¬ (AreNameBytesAndTurns name bytes n (map (λ w. w.now) words.now))))) }
{
    match words {
        [name, word, rest @ ..] => Ok((*name, bytes(alloc, word)?, turns(rest)?)),
        _ => Err(LineError::Bad),
    }
}

pub(crate) fn name_number_and_turns<'a>(words: &[&'a str]) -> Result<(&'a str, u64, u64), LineError>
    ensures ok { IfOk result (λ r. AreNameNumberAndTurns r.0.now r.1 r.2 (map (λ w. w.now) words.now)) }
    ensures err { IfErr result (λ e. (e ≡ Bad)
        × ((name : Word) (n m : ℕ) → ¬ (AreNameNumberAndTurns name n m (map (λ w. w.now) words.now)))) }
{
    match words {
        [name, word, rest @ ..] => Ok((*name, number(word)?, turns(rest)?)),
        _ => Err(LineError::Bad),
    }
}

pub(crate) fn name_number_and_delta<'a>(
    words: &[&'a str],
) -> Result<(&'a str, u64, Option<u32>), LineError>
    ensures ok { IfOk result (λ r. AreNameNumberAndDelta r.0.now r.1 r.2 (map (λ w. w.now) words.now)) }
    ensures err { IfErr result (λ e. (e ≡ Bad)
        × ((name : Word) (n : ℕ) (d : Option ℕ) → ¬ (AreNameNumberAndDelta name n d (map (λ w. w.now) words.now)))) }
{
    match words {
        [name, word, rest @ ..] => Ok((*name, number(word)?, delta(rest)?)),
        _ => Err(LineError::Bad),
    }
}
