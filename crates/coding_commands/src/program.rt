//! Command lines that encode and decode, over any writer.
ghost use Rattle.std.specs.Prelude.{◌≡◌, ◌⊎◌, ◌++◌, [], ◌∷◌, IfErr, IfOk, MatchResult, OnOk, map};
ghost use Rattle.std.specs.Io.KnownBytes.{Appends, Keeps};
ghost use Rattle.tag.specs.declared.refusal.Refusal.{Refusal};
ghost use Rattle.tag.specs.declared.refusal.Refusal.TheVariants.{NoMemory};
ghost use Rattle.coding_commands.specs.Answer.{IsAnswerTo, IsRefusedFor};
ghost use Rattle.coding_commands.specs.Output.{output_text};
ghost use Rattle.coding_commands.specs.Program.{AnswersRequest, CodingEndsBy, IsPrinted};
ghost use Rattle.coding_commands.specs.declared.request.CodingRequest.TheVariants as request;
ghost use Rattle.coding_commands.specs.declared.fault.Fault.TheVariants.{OutputLost, Refused};

use crate::arguments::parse_request;
use crate::fault::Fault;
use crate::fragments::fragments_of;
use crate::output::Output;
use crate::request::CodingRequest;
use crate::value::value_of;
use bytes::Bytes;
use piece::Piece;
use std::alloc::Global;
use std::io::Write;
use tag::Refusal;

/// Carries out the words after the program's name, and returns the exit status: 0 if the line of the answer is written,
/// 1 for a refusal or lost output, 2 for words that spell no request. If the status is not 0, a text on `err` says why.
pub fn run_words<O: Write, E: Write>(alloc: Global, words: &[&str], out: &mut O, err: &mut E) -> u8
    ensures { CodingEndsBy (map (λ w. w.now) words.now) (O.contents out.old) (O.contents out.new) result }
{
    match parse_request(alloc, words) {
        Ok(request) => answer_request(alloc, request, out, err),
        Err(fault) => fault.report(err),
    }
}

/// Prints the line of the request's answer, and returns the exit status 0. It is 1 for a refusal or lost output, and a
/// text on `err` then says which.
pub fn answer_request<O: Write, E: Write>(
    alloc: Global,
    request: CodingRequest,
    out: &mut O,
    err: &mut E,
) -> u8
    ensures { AnswersRequest request (O.contents out.old) (O.contents out.new) result }
{
    match request {
        CodingRequest::Fragments { k, n, value } => {
            print_answer(answer_fragments(alloc, k, n, value), out, err)
        }
        CodingRequest::Decode { k, len, pieces } => {
            print_answer(answer_decode(alloc, k, len, pieces), out, err)
        }
    }
}

fn answer_fragments(alloc: Global, k: u64, n: u64, value: Bytes) -> Result<Output, Refusal>
    ensures answered { IfOk result (IsAnswerTo (request.Fragments k n value)) }
    ensures refused { IfErr result (λ r. (r ≡ NoMemory) ⊎ IsRefusedFor (request.Fragments k n value) r) }
    ensures by_cause { (r : Refusal) → IsRefusedFor (request.Fragments k n value) r → result ≡ Err r }
{
    let coded = fragments_of(alloc, k, n, value)?;
    Ok(Output::Fragments(coded))
}

fn answer_decode(alloc: Global, k: u64, len: u64, pieces: Vec<Piece>) -> Result<Output, Refusal>
    ensures answered { IfOk result (IsAnswerTo (request.Decode k len pieces)) }
    ensures refused { IfErr result (λ r. (r ≡ NoMemory) ⊎ IsRefusedFor (request.Decode k len pieces) r) }
    ensures by_cause { (r : Refusal) → IsRefusedFor (request.Decode k len pieces) r → result ≡ Err r }
{
    let decoded = value_of(alloc, k, len, pieces)?;
    Ok(Output::Value(decoded))
}

/// Prints the line of an answer, or on `err` why there is none, and returns the exit status.
fn print_answer<O: Write, E: Write>(answer: Result<Output, Refusal>, out: &mut O, err: &mut E) -> u8
    ensures { MatchResult answer (λ output. IsPrinted output (O.contents out.old) (O.contents out.new) result)
        (λ _. (result ≡ 1) × Keeps (O.contents out.old) (O.contents out.new)) }
{
    match answer {
        Ok(output) => match print_line(out, &output) {
            Ok(()) => 0,
            Err(fault) => fault.report(err),
        },
        Err(refusal) => Fault::Refused(refusal).report(err),
    }
}

fn print_line<W: Write>(out: &mut W, output: &Output) -> Result<(), Fault>
    ensures printed { OnOk result
        (Appends (W.contents out.old) (W.contents out.new) (output_text output.now ++ 10 ∷ [])) }
    ensures lost { IfErr result (λ e. (e ≡ Refused NoMemory) ⊎ (e ≡ OutputLost)) }
{
    match out.writeln(output) {
        Ok(()) => out.flush().map_err(Fault::from_output),
        Err(error) => Err(Fault::from_output(error)),
    }
}
