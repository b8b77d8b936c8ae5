//! Carrying out the words of a command line, over any runtime and any writers.
ghost use Rattle.std.specs.Prelude.{List, map, string_bytes};
ghost use Rattle.words.specs.Word.{Word};
ghost use Rattle.command_line.specs.Program.{EndsBy};
ghost use Rattle.commands.specs.Request.{Spells};

use crate::file::run_file;
use crate::soaking::run_soak;
use coding_commands::answer_request;
use commands::{Request, parse_request};
use std::io::Write;
use std::rt::Files;
use std::sync::Wait;
use std::thread::Threads;
use std::time::Clock;

/// Carries out the words after the program's name, and returns the exit status: 0 if the line of the answer is written
/// or the script of the file is played to its end, 1 for a refusal or lost output, 2 for words that spell no request
/// and for a script that is bad or cannot be read. A soak ends with the status of its summary. If the program ends
/// early, a text on `err` says why.
pub fn run_words<R: Files + AllocGlobal + Threads + Wait + Clock + Sync, O: Write, E: Write>(
    rt: &R,
    words: &[String],
    out: &mut O,
    err: &mut E,
) -> u8
    ensures { EndsBy (map string_bytes words.now) (O.contents out.old) (O.contents out.new) result }
{
    run_words_with_progress(rt, words, out, err, false)
}

/// Carries out the words as `run_words` does. If `shows_progress` is true, a line on `err` also shows how far a soak
/// of two seconds or more has come, which is for a terminal.
pub fn run_words_with_progress<
    R: Files + AllocGlobal + Threads + Wait + Clock + Sync,
    O: Write,
    E: Write,
>(rt: &R, words: &[String], out: &mut O, err: &mut E, shows_progress: bool) -> u8
    ensures { EndsBy (map string_bytes words.now) (O.contents out.old) (O.contents out.new) result }
{
    match parse_request(rt.alloc(), words) {
        Ok(request) => carry_out(rt, request, out, err, shows_progress),
        Err(fault) => fault.report(err),
    }
}

/// Carries out the request, and returns the exit status.
fn carry_out<R: Files + AllocGlobal + Threads + Wait + Clock + Sync, O: Write, E: Write>(
    rt: &R,
    request: Request,
    out: &mut O,
    err: &mut E,
    shows_progress: bool,
) -> u8
    ensures { (words : List Word) → Spells words request
        → EndsBy words (O.contents out.old) (O.contents out.new) result }
{
    match request {
        Request::Coding { request } => answer_request(rt.alloc(), request, out, err),
        Request::Run { file } => run_file(rt, file.as_str(), out, err),
        Request::Soak { plan } => run_soak(rt, plan, out, err, shows_progress),
    }
}
