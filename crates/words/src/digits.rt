//! The digits of a number without a leading zero, one after another.
ghost use Rattle.std.specs.Prelude.{◌≡◌, ◌≤◌, ◌<◌, IfOk};
ghost use Rattle.words.specs.Digits.{first_digit, with_digit};

/// Returns the number that its first digit writes. The fault is `bad` if the byte is no digit.
#[tactic(auto, unfolding(crate::specs::Digits::first_digit))]
pub fn first_digit<E: Copy>(byte: u8, bad: E) -> Result<u64, E>
    ensures small { IfOk result (λ number. number ≤ 9) }
    ensures exact { result ≡ first_digit bad byte }
{
    if !byte.is_ascii_digit() {
        return Err(bad);
    }
    Ok(u64::from(byte - b'0'))
}

/// Returns the number that the digits of `number` write with one more digit after them. The fault is `bad` if the byte
/// is no digit or `number` is a leading 0, and `above` if the result would be above `most`.
#[tactic(auto, unfolding(crate::specs::Digits::with_digit))]
pub fn with_digit<E: Copy>(number: u64, byte: u8, most: u64, bad: E, above: E) -> Result<u64, E>
    ensures within { IfOk result (λ more. more ≤ most) }
    ensures more { IfOk result (λ more. number < more) }
    ensures exact { result ≡ with_digit bad most above number byte }
{
    if !byte.is_ascii_digit() {
        return Err(bad);
    }
    if number == 0 {
        return Err(bad);
    }
    let more = 10 * u128::from(number) + u128::from(byte - b'0');
    if more > u128::from(most) {
        return Err(above);
    }
    Ok(more as u64)
}
