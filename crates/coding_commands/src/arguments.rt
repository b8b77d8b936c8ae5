//! The words of a command line that encodes or decodes.
ghost use Rattle.std.specs.Prelude.{◌∷◌, codes, map};
ghost use Rattle.coding_commands.specs.Request.{ParsesToCoding};

use crate::fault::Fault;
use crate::request::{CodingRequest, decode_request, fragments_request};
use std::alloc::Global;

/// Returns the request that the words after the program's name spell.
pub(crate) fn parse_request(alloc: Global, words: &[&str]) -> Result<CodingRequest, Fault>
    ensures { ParsesToCoding (map (λ w. w.now) words.now) result }
{
    let Some((command, rest)) = words.split_first() else {
        return Err(Fault::Usage);
    };
    match *command {
        "fragments" => parse_fragments(alloc, rest),
        "decode" => parse_decode(alloc, rest),
        _ => Err(Fault::Usage),
    }
}

fn parse_fragments(alloc: Global, words: &[&str]) -> Result<CodingRequest, Fault>
    ensures { ParsesToCoding (codes "fragments" ∷ map (λ w. w.now) words.now) result }
{
    match words {
        [k, n, digits] => fragments_request(alloc, k, n, digits),
        _ => Err(Fault::Usage),
    }
}

fn parse_decode(alloc: Global, words: &[&str]) -> Result<CodingRequest, Fault>
    ensures { ParsesToCoding (codes "decode" ∷ map (λ w. w.now) words.now) result }
{
    match words {
        [_] => Err(Fault::Usage),
        [k, len, pieces @ ..] => decode_request(alloc, k, len, pieces),
        _ => Err(Fault::Usage),
    }
}
