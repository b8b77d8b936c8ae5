//! Lengths on the page.
ghost use Rattle.std.specs.Prelude.{◌≡◌, ◌+◌, Some};
ghost use Rattle.std.specs.Io.Iter.{u64_saturate};
ghost use Rattle.exports.specs.Px.{px_text};

use std::fmt;

/// A length in tenths of a pixel. It prints in pixels.
#[derive(Clone, Copy)]
pub(crate) struct Px(pub(crate) u64);

impl Px {
    pub(crate) fn plus(self, more: u64) -> Px
        ensures { result.0 ≡ u64_saturate (self.0 + more) }
    {
        Px(self.0.saturating_add(more))
    }

    pub(crate) fn less(self, less: u64) -> Px {
        Px(self.0.saturating_sub(less))
    }
}

impl fmt::Display for Px {
    ghost output = { λ px. Some (px_text px.0) };

    fn fmt<W: fmt::Write>(&self, f: &mut fmt::Formatter<W>) -> fmt::Result {
        let (whole, tenths) = (self.0 / 10, self.0 % 10);
        if tenths == 0 {
            write!(f, "{whole}")
        } else {
            write!(f, "{whole}.{tenths}")
        }
    }
}
