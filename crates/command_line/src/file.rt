//! Running the script of a file.
ghost use Rattle.std.specs.Prelude.{MatchResult};
ghost use Rattle.std.specs.IoError.{error_kind};
ghost use Rattle.player.specs.Script.{Runs};
ghost use Rattle.command_line.specs.Program.{IsUnopened, RunsFile};

use player::{report_unread, run_script};
use std::alloc::Global;
use std::io::{Read, Write};
use std::rt::Files;
use std::{fs, io};

/// Plays the script in the file of this name, and returns the exit status. A relative path is looked up in the folder
/// that the program runs in.
pub(crate) fn run_file<R: Files + AllocGlobal, O: Write, E: Write>(
    rt: &R,
    name: &str,
    out: &mut O,
    err: &mut E,
) -> u8
    ensures { RunsFile (O.contents out.old) (O.contents out.new) result }
{
    run_opened(rt.alloc(), name, fs::open(rt, name), out, err)
}

/// Plays the script that a file of this name gives once it is opened, and returns the exit status. If it could not be
/// opened, a text on `err` says so.
fn run_opened<F: Read + Drop, O: Write, E: Write>(
    alloc: Global,
    name: &str,
    opened: io::Result<F>,
    out: &mut O,
    err: &mut E,
) -> u8
    ensures { MatchResult opened (λ file. Runs (F.remaining file) (O.contents out.old) (O.contents out.new) result)
        (λ e. IsUnopened (error_kind e) (O.contents out.old) (O.contents out.new) result) }
{
    match opened {
        Ok(mut file) => run_script(alloc, name, &mut file, out, err),
        Err(error) => report_unread(&error, name, err),
    }
}
