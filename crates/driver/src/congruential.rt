//! A chooser that computes its numbers.
ghost use Rattle.std.specs.Prelude.{◌≡◌, ◌+◌, ◌%◌, ◌^◌};

use crate::chooser::Chooser;

const FACTOR: u64 = 6_364_136_223_846_793_005;

const STEP: u64 = 1_442_695_040_888_963_407;

/// A chooser that returns the upper 31 bits of a linear congruential generator, the one that Knuth gives for 64 bits.
#[derive(Clone, Copy, Debug, PartialEq, Eq)]
pub struct Congruential {
    /// The state of the generator.
    pub state: u64,
}

impl Congruential {
    /// Makes a chooser whose state begins at the sum of the two numbers, modulo 2^64.
    pub fn new(choices: u64, apart: u64) -> Congruential
        ensures { result.state ≡ (choices + apart) % 2 ^ 64 }
    {
        Congruential {
            state: choices.wrapping_add(apart),
        }
    }
}

impl Chooser for Congruential {
    ghost use Rattle.std.specs.Prelude.{◌≡◌};
    ghost use Rattle.driver.specs.Congruential.{chosen, state_after};

    ghost chooses = { λ before below answer after. (after.state ≡ state_after before.state)
        × (answer ≡ chosen after.state) };

    fn choose(&mut self, _below: usize) -> usize {
        self.state = self.state.wrapping_mul(FACTOR).wrapping_add(STEP);
        (self.state >> 33) as usize
    }
}
