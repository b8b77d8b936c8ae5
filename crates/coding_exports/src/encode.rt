ghost use Rattle.std.specs.Prelude.{◌≡◌, ◌⊎◌, ◌&&◌, ◌==◌, nat_lt, if◌then◌else◌, length, Some, IfErr};
ghost use Rattle.tag.specs.Refusal.{number_of};
ghost use Rattle.encoder.specs.Fragment.{fragment};
ghost use Rattle.encoder.specs.Coded.{encode_cause};
ghost use Rattle.coding_exports.specs.Answer.{answer_by_cause, written};

use crate::room::write;
use bytes::Bytes;
use encoder::encode;
use std::alloc::Global;
use tag::Refusal;

/// Codes `value` into `n` fragments, as often as `times` says and at least once, and writes the one at the point `i` to
/// `room` if it has its length. It asks for the memory of a copy of `value` first, and answers 1, for `NoMemory`,
/// wherever memory is refused.
#[unsafe(no_mangle)]
pub extern "C" fn coding_exports_encode(
    alloc: Global,
    k: u8,
    n: u8,
    value: &[u8],
    times: u32,
    i: u8,
    room: &mut [u8],
) -> u8
    ensures answer { (result ≡ answer_by_cause (encode_cause k n (length value.now)))
        ⊎ (result ≡ number_of Refusal.NoMemory) }
    ensures room { room.new ≡
        (if result == 0 && nat_lt i n then written (fragment value.now k i) room.old else room.old) }
{
    let Ok(value) = Bytes::copy_from_slice(alloc, value) else {
        return Refusal::NoMemory.number();
    };
    for _ in 1..times {
        if let Err(refusal) = encode_again(alloc, k, n, &value) {
            return refusal.number();
        }
    }
    match encode(alloc, k, n, value) {
        Ok(coded) => {
            if i < n {
                write(coded.piece_at(i).bytes.as_slice(), room);
            }
            0
        }
        Err(refusal) => refusal.number(),
    }
}

/// Codes the value, and gives back what that took.
fn encode_again(alloc: Global, k: u8, n: u8, value: &Bytes) -> Result<(), Refusal>
    ensures { IfErr result (λ r. (r ≡ Refusal.NoMemory) ⊎ (encode_cause k n (length value.now) ≡ Some r)) }
{
    encode(alloc, k, n, value.clone()?)?;
    Ok(())
}
