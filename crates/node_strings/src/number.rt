//! Numbers in decimal digits.
ghost use Rattle.std.specs.Prelude.{◌≡◌, ◌≤◌, ◌<◌, ℕ, Ok, IfOk};
ghost use Rattle.std.specs.Fmt.{decimal};
ghost use Rattle.node_strings.specs.Numbers.{number_up_to, digits_from};

use words::{first_digit, with_digit};

/// Returns the number up to `most` that the bytes write in decimal digits, without a sign or a leading zero.
///
/// The caller gives both faults, and the first one from left to right is returned: `bad` if there is a byte that is no
/// digit, a leading 0, or nothing; `above` if the digits so far are those of a number above `most`.
pub fn read_number<E: Copy>(bytes: &[u8], most: u64, bad: E, above: E) -> Result<u64, E>
    requires { 9 ≤ most }
    ensures within { IfOk result (λ number. number ≤ most) }
    // The bytes are the digits of the number.
    ensures found { IfOk result (λ number. bytes.now ≡ decimal number) }
    // The digits of a number within the limit are read as that number.
    ensures only { (number : ℕ) → number ≤ most → bytes.now ≡ decimal number → result ≡ Ok number }
    // Which fault it is.
    ensures exact { result ≡ number_up_to bad most above bytes.now }
{
    read_bytes(bytes, most, bad, above)
}

#[tactic(auto, unfolding(crate::specs::Numbers::number_up_to))]
fn read_bytes<E: Copy>(bytes: &[u8], most: u64, bad: E, above: E) -> Result<u64, E>
    requires { 9 ≤ most }
    ensures within { IfOk result (λ number. number ≤ most) }
    ensures exact { result ≡ number_up_to bad most above bytes.now }
{
    match bytes {
        [first, rest @ ..] => {
            let first = first_digit(*first, bad)?;
            read_digits(rest, most, bad, above, first)
        }
        [] => Err(bad),
    }
}

// The rest of a number that begins with the digits of `first`.
fn read_digits<E: Copy>(bytes: &[u8], most: u64, bad: E, above: E, first: u64) -> Result<u64, E>
    requires { first ≤ most }
    ensures within { IfOk result (λ number. number ≤ most) }
    ensures exact { result ≡ digits_from bad most above first bytes.now }
{
    let mut number = first;
    for byte in bytes {
        number = with_digit(number, *byte, most, bad, above)?;
    }
    Ok(number)
}
