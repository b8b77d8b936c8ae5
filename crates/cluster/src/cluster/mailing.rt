//! How the running sum of waiting bytes follows a step of one object.

ghost use Rattle.std.specs.Prelude.{◌≡◌, ◌+◌, ◌*◌, ◌≤◌};
ghost use Rattle.tag.specs.declared.limits.TheConstants.{LONGEST_VALUE, MOST_BYTES, MOST_MESSAGES};
ghost use Rattle.encoder.specs.Fragment.{fragment};
ghost use Rattle.record.specs.Accounts.{mailed};
ghost use Rattle.soundness.specs.Sound.{IsSound};

use register::Register;

// How many bytes of pieces wait in the messages of an object.
pub(crate) fn waiting(register: &Register) -> u64
    ensures value { result ≡ mailed register.now.object }
    ensures within { result ≤ MOST_MESSAGES * LONGEST_VALUE }
    ensures sound { IsSound fragment register.now.object register.now.last }
{
    // The register's invariant bounds the number of its messages, and with it the bytes of their pieces.
    register.soundness();
    let _few = register.mail_view().len();
    register.mailed()
}

// The sum with one of its parts, `old`, replaced by `new`.
pub(crate) fn exchanged(sum: u64, old: u64, new: u64) -> u64
    requires part { old ≤ sum }
    requires within { sum + new ≤ MOST_BYTES + old }
    ensures { result + old ≡ sum + new }
{
    sum - old + new
}
