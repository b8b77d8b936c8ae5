//! The plan of a soak.
ghost use Rattle.std.specs.Prelude.{◌≡◌, MatchOption};
ghost use Rattle.soak_plan.specs.Plan.{IsWithin};

/// The greatest number of clients of a soak.
pub const MOST_CLIENTS: u64 = 64;

/// The greatest number of calls of each client.
pub const MOST_CALLS: u64 = 10_000;

/// The greatest number of moves of the administrator.
pub const MOST_MOVES: u64 = 100;

/// How many clients work, how many calls each of them makes, how many moves the administrator makes, and the number
/// from which the choosers begin.
#[derive(Clone, Copy, Debug, PartialEq, Eq)]
pub struct Plan {
    /// How many clients work.
    pub clients: u32,
    /// How many calls each client makes.
    pub calls: u64,
    /// How many moves the administrator makes.
    pub moves: u64,
    /// The number from which the choosers begin; each thread adds a number of its own.
    pub choices: u64,
}

impl Plan {
    /// Makes the plan of these numbers, or returns none if there is no client, or a number is above its limit.
    pub fn new(clients: u64, calls: u64, moves: u64, choices: u64) -> Option<Plan>
        ensures { MatchOption result (¬ (IsWithin clients calls moves))
            (λ plan. IsWithin clients calls moves
            × (plan ≡ record { clients = clients; calls = calls; moves = moves; choices = choices })) }
    {
        if clients == 0 || clients > MOST_CLIENTS || calls > MOST_CALLS || moves > MOST_MOVES {
            return None;
        }
        Some(Plan {
            clients: clients as u32,
            calls,
            moves,
            choices,
        })
    }
}
