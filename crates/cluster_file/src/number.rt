//! Numbers in decimal digits.
ghost use Rattle.std.specs.Prelude.{◌≡◌, ◌≤◌, ◌<◌, ◌^◌, IfOk, IfSome, IfNone, IsTrue, length};
ghost use Rattle.std.specs.List.{list_all};
ghost use Rattle.std.specs.Char.{is_ascii_digit};
ghost use Rattle.std.specs.Str.Parse.{digits_value};
ghost use Rattle.cluster_file.specs.Numbers.{is_decimal, number_from};

use crate::error::Fault;

/// The numbers that may stand in some place, and the fault of another number there.
#[derive(Clone, Copy)]
pub(crate) struct Range {
    pub least: u32,
    pub most: u32,
    pub outside: Fault,
}

/// Returns the number in this range that a word writes.
#[tactic(auto, unfolding(crate::specs::Numbers::number_from))]
pub(crate) fn number_of(word: &[u8], range: Range) -> Result<u32, Fault>
    ensures least { IfOk result (λ number. range.least ≤ number) }
    ensures most { IfOk result (λ number. number ≤ range.most) }
    ensures exact { result ≡ number_from range word.now }
{
    if !is_decimal(word) {
        return Err(Fault::NotANumber);
    }
    let Some(number) = value_of(word) else {
        return Err(range.outside);
    };
    if number < range.least || range.most < number {
        return Err(range.outside);
    }
    Ok(number)
}

// Whether a word is decimal digits without a leading zero.
fn is_decimal(word: &[u8]) -> bool
    ensures { result ≡ is_decimal word.now }
{
    match word {
        [] => false,
        [digit] => digit.is_ascii_digit(),
        [first, _, ..] => *first > b'0' && are_digits(word),
    }
}

fn are_digits(word: &[u8]) -> bool
    ensures { result ≡ list_all is_ascii_digit word.now }
{
    word.iter().all(|byte| byte.is_ascii_digit())
}

// The number that these digits write, unless it has more than 32 bits.
fn value_of(digits: &[u8]) -> Option<u32>
    requires { IsTrue (is_decimal digits.now) }
    ensures some { IfSome result (λ number. number ≡ digits_value 10 digits.now) }
    ensures none { IfNone result (2 ^ 32 ≤ digits_value 10 digits.now) }
{
    match str::from_utf8(digits) {
        Ok(text) => text.parse::<u32>().ok(),
        Err(_) => unreachable!(),
    }
}
