ghost use Rattle.std.specs.Prelude.{◌≡◌, ◌≢◌, ◌*◌, length};
ghost use Rattle.encoder.specs.Fragment.{fragment, fragment_len};
ghost use Rattle.encoder.specs.Points.{AreFragmentRows};
ghost use Rattle.encoder.specs.Coded.{encode_cause};
ghost use Rattle.coding_exports.specs.Answer.{answer_into, answer_by_cause, fragment_cause};

use crate::answer::BAD_BUFFER;
use encoder::{encode_into, fragment_into};
use tag::{LONGEST_VALUE, MOST_MEMBERS, Refusal};

/// Stores the length of each fragment of a value in `len`, in bytes: `value_len` over `k`, rounded up. Answers
/// `BadLayout` if `k` is 0, otherwise `TooLong` if no value may be that long; then `len` is as it was.
#[unsafe(no_mangle)]
pub extern "C" fn coding_fragment_length(k: u8, value_len: usize, len: &mut usize) -> u8
    ensures answer { result ≡ answer_by_cause (fragment_cause k value_len) }
    ensures length { result ≡ 0 → len.new ≡ fragment_len k value_len }
    ensures unchanged { result ≢ 0 → len.new ≡ len.old }
{
    if k == 0 {
        return Refusal::BadLayout.number();
    }
    if value_len > LONGEST_VALUE {
        return Refusal::TooLong.number();
    }
    *len = value_len.div_ceil(k as usize);
    0
}

/// Writes the fragments of `value` at the points below `n` to `fragments`, one after another. Answers `BadLayout` if
/// `k` is 0 or above `n`, otherwise `TooLong` if the value is longer than `LONGEST_VALUE`, otherwise `BAD_BUFFER` if
/// `fragments` has another length than that of `n` fragments; then it is as it was.
#[unsafe(no_mangle)]
pub extern "C" fn coding_encode(k: u8, n: u8, value: &[u8], fragments: &mut [u8]) -> u8
    ensures answer { result ≡ answer_into (encode_cause k n (length value.now))
        (n * fragment_len k (length value.now)) (length fragments.old) }
    ensures fragments { result ≡ 0 → AreFragmentRows fragments.new n value.now k 0 }
    ensures len { length fragments.new ≡ length fragments.old }
    ensures unchanged { result ≢ 0 → fragments.new ≡ fragments.old }
{
    if k == 0 || k > n || n as usize > MOST_MEMBERS {
        return Refusal::BadLayout.number();
    }
    if value.len() > LONGEST_VALUE {
        return Refusal::TooLong.number();
    }
    if fragments.len() != n as usize * value.len().div_ceil(k as usize) {
        return BAD_BUFFER;
    }
    encode_into(k, n, value, fragments);
    0
}

/// Writes the fragment of `value` at `point` to `out`. Answers `BadLayout` if `k` is 0, otherwise `TooLong` if the
/// value is longer than `LONGEST_VALUE`, otherwise `BAD_BUFFER` if `out` has another length than the fragment; then it
/// is as it was.
#[unsafe(no_mangle)]
pub extern "C" fn coding_encode_one(k: u8, point: u8, value: &[u8], out: &mut [u8]) -> u8
    ensures answer { result ≡ answer_into (fragment_cause k (length value.now))
        (fragment_len k (length value.now)) (length out.old) }
    ensures fragment { result ≡ 0 → out.new ≡ fragment value.now k point }
    ensures unchanged { result ≢ 0 → out.new ≡ out.old }
{
    if k == 0 {
        return Refusal::BadLayout.number();
    }
    if value.len() > LONGEST_VALUE {
        return Refusal::TooLong.number();
    }
    if out.len() != value.len().div_ceil(k as usize) {
        return BAD_BUFFER;
    }
    fragment_into(k, point, value, out);
    0
}
