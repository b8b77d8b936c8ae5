//! Numbers in decimal digits.
ghost use Rattle.std.specs.Prelude.{ℕ, MatchOption};
ghost use Rattle.words.specs.Number.{IsNumber};

/// Returns the number below 2^64 that a word spells in decimal digits, or none for any other word, such as one with a
/// sign.
pub fn parse_number(word: &str) -> Option<u64>
    ensures { MatchOption result ((n : ℕ) → ¬ (IsNumber word.now n)) (IsNumber word.now) }
{
    if word.as_bytes().first().copied() == Some(b'+') {
        return None;
    }
    word.parse::<u64>().ok()
}
