//! Reading the words of the command line with `clap`.
ghost use Rattle.std.specs.Prelude.{◌≡◌, ◌≢◌, ◌⊎◌, [], ◌∷◌, List, IfErr, IfOk, MatchResult, codes, false, map};
ghost use Rattle.std.specs.Prelude.{option_map, string_bytes, unwrap_or};
ghost use Rattle.clap.specs.Words.{fault_of, first_value, found_of, kind_of, matched_of, raw_values, rule_of};
ghost use Rattle.clap.specs.Words.{App, subcommand_of, subcommand_rows_of, with_rule, with_subcommand};
ghost use Rattle.tag.specs.declared.refusal.Refusal.TheVariants.{NoMemory};
ghost use Rattle.commands.specs.CommandLine.{IsForm, cas_form, decode_form, fragments_form, marked_words, positional};
ghost use Rattle.commands.specs.CommandLine.{run_form, several, soak_form};
ghost use Rattle.commands.specs.Request.{ParsesTo};
ghost use Rattle.words.specs.Word.{Word};
ghost use Rattle.coding_commands.specs.declared.fault.Fault.TheVariants.{Refused, Usage};

use crate::request::{Request, decode_request, fragments_request, run_request, soak_request};
use clap::error::ErrorKind;
use clap::{Arg, ArgAction, ArgMatches, Command, Error};
use coding_commands::Fault;
use std::alloc::{AllocError, Global};
use tag::Refusal;

/// Returns the request that the words after the program's name spell.
pub fn parse_request(alloc: Global, words: &[String]) -> Result<Request, Fault>
    ensures { ParsesTo (map string_bytes words.now) result }
{
    let marked = marked(alloc, words)?;
    let matches = read_words(alloc, marked.as_slice())?;
    read_found(alloc, &matches)
}

/// Returns the request that `clap` found in the words.
fn read_found(alloc: Global, matches: &ArgMatches<'_>) -> Result<Request, Fault>
    ensures { (words : List Word) → fault_of cas_form (marked_words words) ≡ []
        → subcommand_rows_of matches.now ≡ subcommand_of cas_form (marked_words words)
        → ParsesTo words result }
{
    let Some((command, found)) = matches.subcommand() else {
        return Err(Fault::Usage);
    };
    match command {
        "fragments" => read_fragments(alloc, found),
        "decode" => read_decode(alloc, found),
        "run" => read_run(alloc, found),
        "soak" => read_soak(found),
        _ => Err(Fault::Usage),
    }
}

/// Returns the words that are given to `clap`: `--` is put after the command, so that no later word is read as an
/// option.
fn marked(alloc: Global, words: &[String]) -> Result<Vec<&str>, AllocError>
    ensures { IfOk result (λ all. map (λ w. w.now) all.items ≡ marked_words (map string_bytes words.now)) }
{
    let mut all = Vec::new(alloc);
    all.push("cas")?;
    if let Some((command, rest)) = words.split_first() {
        all.push(command.as_str())?;
        all.push("--")?;
        for word in rest {
            all.push(word.as_str())?;
        }
    }
    Ok(all)
}

/// Returns what `clap` finds in the words. Fails with `Usage` if they have the form of no request.
fn read_words<'a>(alloc: Global, words: &'a [&'a str]) -> Result<ArgMatches<'a>, Fault>
    ensures found { IfOk result (λ m. subcommand_rows_of m
        ≡ subcommand_of cas_form (map (λ w. w.now) words.entry.now)) }
    ensures faultless { IfOk result (λ _. fault_of cas_form (map (λ w. w.now) words.entry.now) ≡ []) }
    ensures err { IfErr result (λ e. (e ≡ Refused NoMemory)
        ⊎ ((e ≡ Usage) × (fault_of cas_form (map (λ w. w.now) words.entry.now) ≢ []))) }
{
    let form = match cas_form(alloc) {
        Ok(form) => form,
        Err(error) => return Err(Fault::from(error)),
    };
    match form.try_get_matches_from(words) {
        Ok(matches) => Ok(matches),
        Err(error) => Err(from_clap(error)),
    }
}

fn from_clap(error: Error) -> Fault
    ensures memory { kind_of error ≡ ErrorKind.OutOfMemory → result ≡ Refused NoMemory }
    ensures either { (result ≡ Refused NoMemory) ⊎ (result ≡ Usage) }
{
    match error.kind() {
        ErrorKind::OutOfMemory => Fault::Refused(Refusal::NoMemory),
        _ => Fault::Usage,
    }
}

fn cas_form<'a>(alloc: Global) -> Result<Command<'a>, AllocError>
    ensures { IfOk result (λ c. IsForm c cas_form) }
{
    let form = Command::new(alloc, "cas")
        .disable_help_flag(true)
        .disable_help_subcommand(true);
    let form = with_form(form, fragments_form(alloc))?;
    let form = with_form(form, decode_form(alloc))?;
    let form = with_form(form, run_form(alloc))?;
    with_form(form, soak_form(alloc))
}

/// Adds a command to the form.
fn with_form<'a>(
    form: Command<'a>,
    added: Result<Command<'a>, AllocError>,
) -> Result<Command<'a>, AllocError>
    ensures { (old inner : App) → IsForm form.entry old → IfOk added.entry (λ c. IsForm c inner)
        → IfOk result (λ c. IsForm c (with_subcommand old inner.top)) }
{
    match added {
        Ok(added) => form.subcommand(added),
        Err(error) => Err(error),
    }
}

fn fragments_form<'a>(alloc: Global) -> Result<Command<'a>, AllocError>
    ensures { IfOk result (λ c. IsForm c fragments_form) }
{
    let form = with_word(alloc, Ok(Command::new(alloc, "fragments")), "K");
    let form = with_word(alloc, form, "N");
    with_word(alloc, form, "HEX")
}

fn decode_form<'a>(alloc: Global) -> Result<Command<'a>, AllocError>
    ensures { IfOk result (λ c. IsForm c decode_form) }
{
    let form = with_word(alloc, Ok(Command::new(alloc, "decode")), "K");
    let form = with_word(alloc, form, "LEN")?;
    form.arg(several(alloc, "POINT:HEX"))
}

fn run_form<'a>(alloc: Global) -> Result<Command<'a>, AllocError>
    ensures { IfOk result (λ c. IsForm c run_form) }
{
    with_word(alloc, Ok(Command::new(alloc, "run")), "FILE")
}

fn soak_form<'a>(alloc: Global) -> Result<Command<'a>, AllocError>
    ensures { IfOk result (λ c. IsForm c soak_form) }
{
    let form = with_word(alloc, Ok(Command::new(alloc, "soak")), "CLIENTS");
    let form = with_word(alloc, form, "CALLS");
    let form = with_word(alloc, form, "MOVES");
    with_word(alloc, form, "CHOICES")
}

/// Adds a required word to the form of a command.
fn with_word<'a>(
    alloc: Global,
    form: Result<Command<'a>, AllocError>,
    id: &'a str,
) -> Result<Command<'a>, AllocError>
    ensures { (old : App) → IfOk form.entry (λ c. IsForm c old)
        → IfOk result (λ c. IsForm c (with_rule old (positional id.entry.now))) }
{
    match form {
        Ok(form) => form.arg(positional(alloc, id)),
        Err(error) => Err(error),
    }
}

fn positional<'a>(alloc: Global, id: &'a str) -> Arg<'a>
    ensures rule { rule_of result ≡ positional id.entry.now }
    ensures local { result.global ≡ false }
{
    Arg::new(alloc, id).required(true).action(ArgAction::Set)
}

fn several<'a>(alloc: Global, id: &'a str) -> Arg<'a>
    ensures rule { rule_of result ≡ several id.entry.now }
    ensures local { result.global ≡ false }
{
    Arg::new(alloc, id).action(ArgAction::Append).num_args(..)
}

fn read_fragments(alloc: Global, found: &ArgMatches<'_>) -> Result<Request, Fault>
    ensures { (a b c : Word) → first_value (found_of found.now) (codes "K") ≡ Some a
        → first_value (found_of found.now) (codes "N") ≡ Some b
        → first_value (found_of found.now) (codes "HEX") ≡ Some c
        → ParsesTo (codes "fragments" ∷ a ∷ b ∷ c ∷ []) result }
{
    let k = text(found, "K")?;
    let n = text(found, "N")?;
    let digits = text(found, "HEX")?;
    fragments_request(alloc, k, n, digits)
}

fn read_decode(alloc: Global, found: &ArgMatches<'_>) -> Result<Request, Fault>
    ensures { (a b : Word) (rest : List Word) → first_value (found_of found.now) (codes "K") ≡ Some a
        → first_value (found_of found.now) (codes "LEN") ≡ Some b
        → unwrap_or (option_map raw_values (matched_of (found_of found.now) (codes "POINT:HEX"))) [] ≡ rest
        → ParsesTo (codes "decode" ∷ a ∷ b ∷ rest) result }
{
    let k = text(found, "K")?;
    let len = text(found, "LEN")?;
    let words = found.get_strs("POINT:HEX").unwrap_or(&[]);
    decode_request(alloc, k, len, words)
}

fn read_run(alloc: Global, found: &ArgMatches<'_>) -> Result<Request, Fault>
    ensures { (file : Word) → first_value (found_of found.now) (codes "FILE") ≡ Some file
        → ParsesTo (codes "run" ∷ file ∷ []) result }
{
    let file = text(found, "FILE")?;
    run_request(alloc, file)
}

fn read_soak(found: &ArgMatches<'_>) -> Result<Request, Fault>
    ensures { (a b c d : Word) → first_value (found_of found.now) (codes "CLIENTS") ≡ Some a
        → first_value (found_of found.now) (codes "CALLS") ≡ Some b
        → first_value (found_of found.now) (codes "MOVES") ≡ Some c
        → first_value (found_of found.now) (codes "CHOICES") ≡ Some d
        → ParsesTo (codes "soak" ∷ a ∷ b ∷ c ∷ d ∷ []) result }
{
    let clients = text(found, "CLIENTS")?;
    let calls = text(found, "CALLS")?;
    let moves = text(found, "MOVES")?;
    let choices = text(found, "CHOICES")?;
    soak_request(clients, calls, moves, choices)
}

fn text<'a>(found: &ArgMatches<'a>, id: &str) -> Result<&'a str, Fault>
    ensures { MatchResult result (λ t. first_value (found_of found.now) id.now ≡ Some t.now)
        (λ _. first_value (found_of found.now) id.now ≡ None) }
{
    found.get_str(id).ok_or(Fault::Usage)
}
