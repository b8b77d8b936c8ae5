//! Encoding a value, and the line of its fragments.
ghost use Rattle.std.specs.Prelude.{◌≡◌, IfOk, length, Some};
ghost use Rattle.tag.specs.Refusal.{IsByCause};
ghost use Rattle.encoder.specs.Coded.{encode_cause};
ghost use Rattle.coding_commands.specs.Fragments.{fragments_text};

use bytes::Bytes;
use encoder::{Coded, encode};
use std::alloc::Global;
use std::fmt;
use tag::Refusal;
use words::Hexadecimal;

/// Returns the fragments of `value`, which is cut into `k` blocks, at the points from 0 to `n - 1`. Is refused with
/// `BadLayout` also if `k` or `n` is above its limit, however large it is.
pub(crate) fn fragments_of(alloc: Global, k: u64, n: u64, value: Bytes) -> Result<Coded, Refusal>
    ensures coded { IfOk result (λ c. c ≡ record { k = k; n = n; value = value }) }
    ensures refused { IsByCause (encode_cause k n (length value)) result }
{
    let (Ok(k), Ok(n)) = (u8::try_from(k), u8::try_from(n)) else {
        return Err(Refusal::BadLayout);
    };
    encode(alloc, k, n, value)
}

/// The line of the fragments of a value: `POINT:HEX` for each, separated by spaces.
#[derive(Clone, Copy)]
pub(crate) struct FragmentsLine<'a>(pub(crate) &'a Coded);

impl fmt::Display for FragmentsLine<'_> {
    ghost output = { λ line. Some (fragments_text line.0.now) };

    fn fmt<W: fmt::Write>(&self, f: &mut fmt::Formatter<W>) -> fmt::Result {
        for i in 0..self.0.n() {
            let piece = self.0.piece_at(i);
            let separator = if i == 0 { "" } else { " " };
            let bytes = Hexadecimal(piece.bytes.as_slice());
            write!(f, "{separator}{}:{bytes}", piece.point)?;
        }
        Ok(())
    }
}
