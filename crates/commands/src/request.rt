//! The requests of the program, read from the words of a command line.
ghost use Rattle.std.specs.Prelude.{◌≡◌, ◌∷◌, [], ℕ, List, MatchResult, codes, map};
ghost use Rattle.words.specs.Number.{IsNumber};
ghost use Rattle.words.specs.Word.{Word};
ghost use Rattle.coding_commands.specs.Request.{HasCodingForm, ParsesToCoding};
ghost use Rattle.coding_commands.specs.declared.fault.Fault.TheVariants.{BadArgument};
ghost use Rattle.commands.specs.Request.{ParsesTo};

use coding_commands::{CodingRequest, Fault};
use soak_plan::Plan;
use std::alloc::Global;
use words::parse_number;

/// A request of the program.
#[derive(Drop)]
pub enum Request {
    /// `fragments K N HEX` or `decode K LEN POINT:HEX..`.
    Coding { request: CodingRequest },
    /// `run FILE`: runs the script in the file of this name.
    Run { file: String },
    /// `soak CLIENTS CALLS MOVES CHOICES`: runs a soak by this plan.
    Soak { plan: Plan },
}

/// Returns the request `fragments K N HEX`.
pub(crate) fn fragments_request(
    alloc: Global,
    k: &str,
    n: &str,
    digits: &str,
) -> Result<Request, Fault>
    ensures { ParsesTo (codes "fragments" ∷ k.now ∷ n.now ∷ digits.now ∷ []) result }
{
    coding(coding_commands::fragments_request(alloc, k, n, digits))
}

/// Returns the request `decode K LEN POINT:HEX..`, where `words` are those from the first `POINT:HEX` on.
pub(crate) fn decode_request(
    alloc: Global,
    k: &str,
    len: &str,
    words: &[&str],
) -> Result<Request, Fault>
    ensures { ParsesTo (codes "decode" ∷ k.now ∷ len.now ∷ map (λ w. w.now) words.now) result }
{
    coding(coding_commands::decode_request(alloc, k, len, words))
}

/// Returns the request `run FILE`.
pub(crate) fn run_request(alloc: Global, file: &str) -> Result<Request, Fault>
    ensures { ParsesTo (codes "run" ∷ file.now ∷ []) result }
{
    let file = String::from_str(alloc, file)?;
    Ok(Request::Run { file })
}

/// Returns the request `soak CLIENTS CALLS MOVES CHOICES`.
pub(crate) fn soak_request(
    clients: &str,
    calls: &str,
    moves: &str,
    choices: &str,
) -> Result<Request, Fault>
    ensures { ParsesTo (codes "soak" ∷ clients.now ∷ calls.now ∷ moves.now ∷ choices.now ∷ []) result }
{
    let clients = number(clients)?;
    let calls = number(calls)?;
    let moves = number(moves)?;
    let choices = number(choices)?;
    let Some(plan) = Plan::new(clients, calls, moves, choices) else {
        return Err(Fault::BadArgument);
    };
    Ok(Request::Soak { plan })
}

/// Returns a coding request as a request of the program.
fn coding(read: Result<CodingRequest, Fault>) -> Result<Request, Fault>
    ensures { (words : List Word) → HasCodingForm words → ParsesToCoding words read → ParsesTo words result }
{
    Ok(Request::Coding { request: read? })
}

fn number(word: &str) -> Result<u64, Fault>
    ensures { MatchResult result (IsNumber word.now)
        (λ e. (e ≡ BadArgument) × ((n : ℕ) → ¬ (IsNumber word.now n))) }
{
    parse_number(word).ok_or(Fault::BadArgument)
}
