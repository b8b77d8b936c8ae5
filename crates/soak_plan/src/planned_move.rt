//! The moves of the administrator, by their numbers.
ghost use Rattle.std.specs.Prelude.{◌≡◌, ◌<◌};
ghost use Rattle.soak_plan.specs.Moves.{layout_after, object_moved};

/// Returns the name of the object that the move of this number moves: `a` and `b` in turn.
pub fn object_moved(number: u64) -> &'static str
    ensures { result.now ≡ object_moved number }
{
    if number % 2 == 0 { "a" } else { "b" }
}

/// Returns the number of the layout to which the move of this number leads. Each object passes through the three
/// layouts in a cycle.
pub fn layout_after(number: u64) -> u32
    ensures layout { result ≡ layout_after number }
    ensures there { result < 3 }
{
    ((number / 2 + 1) % 3) as u32
}
