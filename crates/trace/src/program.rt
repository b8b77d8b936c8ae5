//! The program, generic over its writers.
ghost use Rattle.std.specs.Prelude.{map, string_bytes};
ghost use Rattle.trace.specs.Program.{Carries, TraceEndsBy, IsStatusOf, ShowsOfFile};

use crate::fault::Fault;
use crate::play::play_script;
use crate::request::{Request, parse_request};
use crate::show::show;
use player::End;
use std::alloc::Global;
use std::io::{ErrorKind, Read, Write};
use std::rt::Files;
use std::{fs, io};

/// Carries out the words after the program's name, and returns the exit status: 0 if what they ask for is written, 1
/// for a refusal or lost output, 2 for words that spell no request and for a script that is bad or cannot be read. If
/// the status is not 0, a text on `err` says why, and the object is not shown.
pub fn run_words<R: Files + AllocGlobal, O: Write, E: Write>(
    rt: &R,
    words: &[String],
    out: &mut O,
    err: &mut E,
) -> u8
    ensures { TraceEndsBy (map string_bytes words.now) (O.contents out.old) (O.contents out.new) result }
{
    match parse_request(words) {
        Some(request) => run_request(rt, request, out, err),
        None => Fault::Usage.report("", err),
    }
}

fn run_request<R: Files + AllocGlobal, O: Write, E: Write>(
    rt: &R,
    request: Request<'_>,
    out: &mut O,
    err: &mut E,
) -> u8
    ensures { IsStatusOf (ShowsOfFile request.entry.form request.entry.name.now (O.contents out.old)
        (O.contents out.new)) result }
{
    let opened = fs::open(rt, request.script);
    match show_opened(rt.alloc(), opened, request, out) {
        Ok(()) => 0,
        Err(fault) => fault.report(request.script, err),
    }
}

fn show_opened<F: Read + Drop, O: Write>(
    alloc: Global,
    opened: io::Result<F>,
    request: Request<'_>,
    out: &mut O,
) -> Result<(), Fault>
    ensures { ShowsOfFile request.entry.form request.entry.name.now (O.contents out.old) (O.contents out.new) result }
{
    match opened {
        Ok(mut file) => show_file(alloc, &mut file, request, out),
        Err(error) if error.kind() == ErrorKind::OutOfMemory => Err(Fault::Ended(End::NoRoom)),
        Err(_) => Err(Fault::Ended(End::Unread)),
    }
}

fn show_file<F: Read, O: Write>(
    alloc: Global,
    file: &mut F,
    request: Request<'_>,
    out: &mut O,
) -> Result<(), Fault>
    ensures { Carries (F.remaining file.old) request.entry.form request.entry.name.now (O.contents out.old)
        (O.contents out.new) result }
{
    let played = play_script(alloc, file, request.name)?;
    show(alloc, &played, request, out)
}
