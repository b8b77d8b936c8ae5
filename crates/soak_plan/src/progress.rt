//! How far a soak has come.
use std::fmt;

/// How far a soak has come. It prints as one line, without a line feed.
#[derive(Clone, Copy, Debug, PartialEq, Eq)]
pub struct Progress {
    /// How many calls the clients have made.
    pub calls: u64,
    /// How many calls the clients make in all.
    pub all_calls: u64,
    /// How many moves the administrator has made.
    pub moves: u64,
    /// How many moves the administrator makes in all.
    pub all_moves: u64,
    /// How many whole seconds have passed.
    pub seconds: u64,
}

impl fmt::Display for Progress {
    ghost use Rattle.std.specs.Prelude.{Some};
    ghost use Rattle.soak_plan.specs.Progress.{progress_text};

    ghost output = { λ progress. Some (progress_text progress) };

    fn fmt<W: fmt::Write>(&self, f: &mut fmt::Formatter<W>) -> fmt::Result {
        write!(
            f,
            "calls {} of {}, moves {} of {}, {} s",
            self.calls, self.all_calls, self.moves, self.all_moves, self.seconds
        )
    }
}
