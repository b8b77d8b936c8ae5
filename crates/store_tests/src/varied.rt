//! Varied choices.

use client::Chooser;

/// Varied choices: the upper half of a linear congruence, masked.
#[derive(Clone, Copy)]
pub(crate) struct Varied {
    pub(crate) state: u64,
    pub(crate) mask: u64,
}

impl Varied {
    /// Returns one of the first four, by the seat of this number.
    pub(crate) fn new(seat: u32) -> Varied {
        Varied {
            state: u64::from(seat),
            mask: 3,
        }
    }
}

impl Chooser for Varied {
    fn choose(&mut self, _below: usize) -> usize {
        let scaled = self.state.wrapping_mul(6_364_136_223_846_793_005);
        self.state = scaled.wrapping_add(1_442_695_040_888_963_407);
        ((self.state >> 32) & self.mask) as usize
    }
}
