//! What a thread hands in at a round.
ghost use Rattle.std.specs.Prelude.{◌≡◌, ◌↔◌, IsTrue};
ghost use Rattle.locked_steps.specs.declared.handed_in.HandedIn.TheVariants as hands;

use decoder::Decoded;
use encoder::Coded;

/// What a thread hands in at a round: what it encoded or decoded for an earlier round, if that handed out anything.
#[derive(Debug, Drop)]
pub enum HandedIn {
    /// Nothing is handed in.
    Empty,
    /// The encoded value.
    Coded(Coded),
    /// The decoded value.
    Decoded(Decoded),
}

impl HandedIn {
    /// Returns whether nothing is handed in.
    pub fn is_empty(&self) -> bool
        ensures { IsTrue result ↔ (self.now ≡ hands.Empty) }
    {
        match self {
            HandedIn::Empty => true,
            _ => false,
        }
    }
}
