//! The run of a whole script, over any reader and two writers.
ghost use Rattle.std.specs.Prelude.{◌≡◌, ◌⊎◌, ℕ, List, map, IfErr, MatchResult};
ghost use Rattle.std.specs.Str.Lines.{lines as lines_of};
ghost use Rattle.std.specs.IoError.{error_kind};
ghost use Rattle.player.specs.Script.{Runs, PlaysScript, RunEndsBy, EndsAt, EndsLine, IsScriptOf, IsUnread};
ghost use Rattle.player.specs.declared.run.End.TheVariants.{BadLine, NoRoom};
ghost use Rattle.player.specs.Script.{IsPlayedFrom, IsPlayedThrough, exit_status_of_end, unread_status};

use crate::player::{Stop, play};
use cluster::Cluster;
use script::{Line, LineError, parse_line};
use std::alloc::Global;
use std::io::{ErrorKind, Read, Write};
use std::{fmt, io};
use words::split_lines;

/// Why a run ends before the end of the script.
#[derive(Clone, Copy, Debug, PartialEq, Eq)]
pub enum End {
    /// The script cannot be read. No command was carried out.
    Unread,
    /// Memory is refused for the script as a whole: for its bytes or for the list of its lines. No command was carried
    /// out.
    NoRoom,
    /// Memory is refused for a line of the script or for a line of output. The commands before it were carried out.
    NoMemory,
    /// The line of this number, from 1, is bad. The commands before it were carried out.
    BadLine(usize),
    /// A line of output could not be written. Its command was carried out.
    OutputLost,
}

/// Plays the script that the reader gives, and returns the exit status. The whole script is read before its first
/// command is carried out. What a command prints is written and flushed before the next command is carried out.
///
/// The status is 0 at the end of the script. It is 1 if output cannot be written, and if memory is refused for the
/// script, for a line of it or for output. It is 2 if the script cannot be read, and if a line is bad, which ends the
/// run. A line on `err` says why: `cannot read NAME`, `line L: bad` with the lines counted from 1, `refused 1
/// NoMemory`, or `cannot write the output`.
pub fn run_script<R: Read, O: Write, E: Write>(
    alloc: Global,
    name: &str,
    reader: &mut R,
    out: &mut O,
    err: &mut E,
) -> u8
    ensures { Runs (R.remaining reader.old) (O.contents out.old) (O.contents out.new) result }
{
    match play_script(alloc, reader, out) {
        Ok(()) => 0,
        Err(end) => report_end(end, name, err),
    }
}

/// Prints on `err` why the script of this name cannot be read, and returns the exit status: 1 if memory is refused, and
/// otherwise 2.
pub fn report_unread<E: Write>(error: &io::Error, name: &str, err: &mut E) -> u8
    ensures { result ≡ unread_status (error_kind error.now) }
{
    match error.kind() {
        ErrorKind::OutOfMemory => report_end(End::NoRoom, name, err),
        _ => report_end(End::Unread, name, err),
    }
}

/// Prints on `err` why the run of the script of this name ended early, and returns the exit status: 2 if the script
/// cannot be read or a line is bad, and otherwise 1. A write that fails is ignored.
pub fn report_end<E: Write>(end: End, name: &str, err: &mut E) -> u8
    ensures { result ≡ exit_status_of_end end }
{
    let _ = err.writeln(EndText { end, name });
    match end {
        End::Unread | End::BadLine(_) => 2,
        End::NoRoom | End::NoMemory | End::OutputLost => 1,
    }
}

// The text that says why the run of a script of this name ended early.
#[derive(Clone, Copy)]
struct EndText<'a> {
    end: End,
    name: &'a str,
}

impl fmt::Display for EndText<'_> {
    fn fmt<W: fmt::Write>(&self, f: &mut fmt::Formatter<W>) -> fmt::Result {
        match self.end {
            End::Unread => write!(f, "cannot read {}", self.name),
            End::NoRoom | End::NoMemory => f.write_str("refused 1 NoMemory"),
            End::BadLine(line) => write!(f, "line {line}: bad"),
            End::OutputLost => f.write_str("cannot write the output"),
        }
    }
}

fn play_script<R: Read, O: Write>(alloc: Global, reader: &mut R, out: &mut O) -> Result<(), End>
    ensures { MatchResult result (λ _. PlaysScript (R.remaining reader.old) (O.contents out.old) (O.contents out.new))
        (RunEndsBy (R.remaining reader.old) (O.contents out.old) (O.contents out.new)) }
{
    let text = read_script(alloc, reader)?;
    let Ok(lines) = split_lines(alloc, &text) else {
        return Err(End::NoRoom);
    };
    play_lines(alloc, &lines, out)
}

/// Returns all bytes that the reader gives. Fails with `NoRoom` if memory is refused for them, and with `Unread` for
/// any other error.
pub fn read_script<R: Read>(alloc: Global, reader: &mut R) -> Result<Vec<u8>, End>
    ensures { MatchResult result (λ text. IsScriptOf (R.remaining reader.old) text.items)
        (λ end. IsUnread end ⊎ (end ≡ NoRoom)) }
{
    let mut text = Vec::new(alloc);
    match reader.read_to_end(&mut text) {
        Ok(_) => Ok(text),
        Err(error) if error.kind() == ErrorKind::OutOfMemory => Err(End::NoRoom),
        Err(_) => Err(End::Unread),
    }
}

fn play_lines<O: Write>(alloc: Global, lines: &[&[u8]], out: &mut O) -> Result<(), End>
    ensures { (script : List ℕ) → map (λ line. line.now) lines.now ≡ lines_of script
        → MatchResult result (λ _. IsPlayedThrough script (O.contents out.old) (O.contents out.new))
        (EndsAt script (O.contents out.old) (O.contents out.new)) }
{
    let mut cluster = None;
    for (index, line) in lines.iter().enumerate() {
        play_line(alloc, &mut cluster, index + 1, line, out)?;
    }
    Ok(())
}

/// Plays the line of this number, counted from 1, over the cluster that the lines before it made, or over none before
/// the first command. So a caller can see the cluster between two lines. A bad line leaves the cluster unchanged.
pub fn play_line<O: Write>(
    alloc: Global,
    cluster: &mut Option<Cluster>,
    number: usize,
    line: &[u8],
    out: &mut O,
) -> Result<(), End>
    ensures played { MatchResult result
        (λ _. IsPlayedFrom cluster.old line.now cluster.new (O.contents out.old) (O.contents out.new))
        (EndsLine number cluster.old line.now (O.contents out.old) (O.contents out.new)) }
    ensures unchanged { IfErr result (λ end. end ≡ BadLine number → cluster.new ≡ cluster.old) }
{
    let command = match parse_line(alloc, line) {
        Ok(Line::Skipped) => return Ok(()),
        Ok(Line::Command(command)) => command,
        Err(LineError::Bad) => return Err(End::BadLine(number)),
        Err(LineError::NoMemory) => return Err(End::NoMemory),
    };
    match play(alloc, cluster, command, out) {
        Ok(()) => Ok(()),
        Err(Stop::Bad) => Err(End::BadLine(number)),
        Err(Stop::NoMemory) => Err(End::NoMemory),
        Err(Stop::OutputLost) => Err(End::OutputLost),
    }
}
