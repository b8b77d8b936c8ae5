//! How the message that is handled next is chosen.
ghost use Rattle.std.specs.Prelude.{◌≡◌, ◌<◌, ℕ};

/// Chooses which message is handled next.
pub trait Chooser {
    /// Relates the chooser before a choice, how many things there are, the number returned, and the chooser after.
    ghost chooses: { Self → ℕ → ℕ → Self → Type 0 } = { λ _ _ _ _. Unit {0} };

    /// Returns a number for a choice among `below` things, of which there is at least one. The driver takes it modulo
    /// `below`, so any number will do.
    fn choose(&mut self, below: usize) -> usize
        requires { 0 < below }
        ensures { chooses self.old below result self.new };
}

/// Always chooses the first message.
#[derive(Clone, Copy, Debug)]
pub struct First;

impl Chooser for First {
    ghost chooses = { λ before below answer after. answer ≡ 0 };

    fn choose(&mut self, _below: usize) -> usize {
        0
    }
}
