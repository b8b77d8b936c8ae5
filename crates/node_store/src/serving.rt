//! The loop of a node: frames in, entries to the log, frames out.
ghost use Rattle.std.specs.Prelude.{◌≡◌, ◌⊎◌, [], ⊤, ℕ, List, true, false, MatchOption, IsTrue, OnOk, IfErr, IfOk};
ghost use Rattle.std.specs.Io.Buffered.{reader_remaining};
ghost use Rattle.std.specs.Io.KnownBytes.{Appends, Consumes};
ghost use Rattle.frames.specs.Frame.{frame_bytes};
ghost use Rattle.frames.specs.Writing.{Writes};
ghost use Rattle.node_log.specs.Reading.{HadLeft};
ghost use Rattle.node_effects.specs.declared.error.NodeError.TheVariants.{NoMemory};
ghost use Rattle.node_effects.specs.declared.output.Output.{Output};
ghost use Rattle.node_store.specs.Outputs.{HasGathered};
ghost use Rattle.node_store.specs.Rewriting.{HasLengthened};
ghost use Rattle.node_store.specs.Rounds.{ServesInRounds};
ghost use Rattle.node_store.specs.Serving.{HandlesArrived, IsFrameHandled, IsInputEnd, IsReadStop, IsWriteLost};
ghost use Rattle.node_store.specs.Serving.{ServesSome, ServesUntil};
ghost use Rattle.node_store.specs.Serving.{StopsAtFrame, TellsLostLog, WritesOutputs};

use crate::batch::Batch;
use crate::end::LogEnd;
use crate::log::Log;
use crate::rewriting::has_grown;
use crate::stop::ServeError;
use crate::writing::append_bytes;
use frames::{Fault, Frame, FrameError, Gathered, read_frame, write_gathered};
use node_effects::{Machine, NodeError, Report};
use std::alloc::Global;
use std::io;
use std::io::{BufReader, ErrorKind, Read, Write};

// How many frames are handled before the log is synced, at most.
pub(crate) const MOST_AT_ONCE: u16 = 1024;

/// Handles the frames of the input, until it ends or the log has grown so much that it may be worth writing anew. All
/// frames that have arrived are handled one after another. Then the frames are written that were wanted before any
/// entry. After that the entries are appended to the log, which is synced once, and only then are the other frames
/// written.
///
/// `end` is where the log ends, which is synced. Returns none at the end of the input. Otherwise it returns where the
/// log ends then, which has grown as `has_grown` says; nothing waits to be written, and the log is synced. An input
/// that ends within a frame counts as ended there. After 2^64 - 1 rounds the error is `NoInput` with `TimedOut`.
///
/// The clause `rounds` says what `serves` says, and that the loop goes in rounds: each one reads frames first, and then
/// writes all that is wanted for them. A round begins only as long as the log has not grown as `has_grown` says. So the
/// loop returns once the log has grown so, and where the log ends is returned only then.
///
/// The clause `stopped` says what `Stopped` means: the machine cannot handle the next frame, or memory was refused. The
/// clause `failure` says that `LogLost` comes just if a call of the log failed.
///
/// What an operator should know is written to `err`. A write that fails there is ignored.
pub fn serve_frames<M: Machine, I: Read + Drop, O: Write, L: Log, E: Write>(
    alloc: Global,
    machine: &mut M,
    input: &mut BufReader<I>,
    output: &mut O,
    log: &mut L,
    end: LogEnd,
    err: &mut E,
) -> Result<Option<LogEnd>, ServeError>
    requires synced { L.kept log.old ≡ L.written log.old }
    requires sound { IsTrue (L.sound log.old) }
    ensures serves { ServesUntil M.handles M.notes end.chain.state machine.old machine.new
        (reader_remaining I.remaining input.old) (reader_remaining I.remaining input.new)
        (L.kept log.old) (L.kept log.new) (O.contents output.old) (O.contents output.new) result }
    ensures rounds { ServesInRounds M.handles M.notes
        (record {
          length = end.length;
          chain = end.chain.state;
          machine = machine.old;
          left = reader_remaining I.remaining input.old;
          kept = L.kept log.old;
          held = O.contents output.old;
        })
        machine.new (reader_remaining I.remaining input.new) (L.kept log.new) (O.contents output.new) result }
    ensures stopped { IfErr result
        (StopsAtFrame M.handles M.notes M.fails machine.old (reader_remaining I.remaining input.old)) }
    ensures synced { OnOk result (L.kept log.new ≡ L.written log.new) }
    ensures sound { OnOk result (IsTrue (L.sound log.new)) }
    ensures lengthened { IfOk result (λ now. MatchOption now ⊤
        (λ now. HasLengthened (L.kept log.old) (L.kept log.new) end.length now.length)) }
    ensures failure { TellsLostLog (L.failed log.old) (L.failed log.new) result }
{
    let mut length = end.length;
    let mut batch = Batch::new(alloc, end.chain);
    for _ in 0..u64::MAX {
        let report = machine.begin_round(length);
        tell(err, report);
        if !serve_arrived(alloc, machine, input, output, log, &mut batch)? {
            return Ok(None);
        }
        length = length.saturating_add(batch.log.len() as u64);
        batch.clear();
        if has_grown(end.length, length) {
            return Ok(Some(LogEnd {
                length,
                chain: batch.chain,
            }));
        }
    }
    Err(ServeError::NoInput(io::Error::from(ErrorKind::TimedOut)))
}

// Tells an operator something, if there is something to tell. A write that fails is ignored.
fn tell<E: Write>(err: &mut E, report: Option<Report>) {
    if let Some(report) = report {
        let _ = writeln!(err, "casd: {report}");
    }
}

// Serves the next frame, for which it waits, and those that have arrived behind it. Returns whether the input goes on.
fn serve_arrived<M: Machine, I: Read + Drop, O: Write, L: Log>(
    alloc: Global,
    machine: &mut M,
    input: &mut BufReader<I>,
    output: &mut O,
    log: &mut L,
    batch: &mut Batch,
) -> Result<bool, ServeError>
    requires empty { HasGathered batch.old.chain.state batch.old [] }
    requires synced { L.kept log.old ≡ L.written log.old }
    requires sound { IsTrue (L.sound log.old) }
    ensures serves { ServesSome M.handles M.notes batch.old.chain.state batch.new.chain.state machine.old machine.new
        (reader_remaining I.remaining input.old) (reader_remaining I.remaining input.new)
        (L.kept log.old) (L.kept log.new) (O.contents output.old) (O.contents output.new) result }
    ensures stopped { IfErr result
        (StopsAtFrame M.handles M.notes M.fails machine.old (reader_remaining I.remaining input.old)) }
    ensures synced { OnOk result (L.kept log.new ≡ L.written log.new) }
    ensures sound { OnOk result (IsTrue (L.sound log.new)) }
    ensures appended { OnOk result (Appends (L.kept log.old) (L.kept log.new) batch.new.log) }
    ensures failure { TellsLostLog (L.failed log.old) (L.failed log.new) result }
{
    let goes_on = handle_arrived(alloc, machine, input, batch)?;
    write_batch(output, log, batch)?;
    Ok(goes_on)
}

// Writes what waits: first the frames that depend on no entry, then the entries, after which the log is synced, and
// only then the other frames.
fn write_batch<O: Write, L: Log>(
    output: &mut O,
    log: &mut L,
    batch: &Batch,
) -> Result<(), ServeError>
    requires synced { L.kept log.old ≡ L.written log.old }
    requires sound { IsTrue (L.sound log.old) }
    ensures writes { (chain : ℕ) (outputs : List Output) → HasGathered chain batch.now outputs
        → WritesOutputs chain (L.kept log.old) (L.kept log.new) (O.contents output.old) (O.contents output.new) outputs
        result }
    ensures lost { IfErr result IsWriteLost }
    ensures synced { OnOk result (L.kept log.new ≡ L.written log.new) }
    ensures sound { OnOk result (IsTrue (L.sound log.new)) }
    ensures appended { OnOk result (Appends (L.kept log.old) (L.kept log.new) batch.now.log) }
    ensures failure { TellsLostLog (L.failed log.old) (L.failed log.new) result }
{
    if let Err(error) = write_out(output, &batch.early) {
        return Err(ServeError::OutputLost(error));
    }
    if let Err(error) = append_bytes(log, &batch.log) {
        return Err(ServeError::LogLost(error));
    }
    match write_out(output, &batch.output) {
        Ok(()) => Ok(()),
        Err(error) => Err(ServeError::OutputLost(error)),
    }
}

// Handles the next frame, for which it waits, and those that have arrived behind it. Returns whether the input goes on.
fn handle_arrived<M: Machine, I: Read + Drop>(
    alloc: Global,
    machine: &mut M,
    input: &mut BufReader<I>,
    batch: &mut Batch,
) -> Result<bool, ServeError>
    ensures handles { HandlesArrived M.handles M.notes machine.old machine.new (reader_remaining I.remaining input.old)
        (reader_remaining I.remaining input.new) batch.old batch.new result }
    ensures stopped { IfErr result
        (StopsAtFrame M.handles M.notes M.fails machine.old (reader_remaining I.remaining input.old)) }
    ensures kind { IfErr result IsReadStop }
{
    for _ in 0..MOST_AT_ONCE {
        if !handle_next(alloc, machine, input, batch)? {
            return Ok(false);
        }
        if is_due(input, batch) {
            break;
        }
    }
    Ok(true)
}

// Whether the batch is to be written: no further byte has arrived, or enough bytes wait.
fn is_due<I: Read + Drop>(input: &BufReader<I>, batch: &Batch) -> bool {
    input.buffer().is_empty() || batch.is_full()
}

/// Handles the next frame. Returns whether there was one. If there was none, nothing has changed.
pub(crate) fn handle_next<M: Machine, R: Read>(
    alloc: Global,
    machine: &mut M,
    input: &mut R,
    batch: &mut Batch,
) -> Result<bool, ServeError>
    ensures handles { HandlesArrived M.handles M.notes machine.old machine.new (R.remaining input.old)
        (R.remaining input.new) batch.old batch.new result }
    ensures stopped { IfErr result
        (StopsAtFrame M.handles M.notes M.fails machine.old (R.remaining input.old)) }
    ensures kind { IfErr result IsReadStop }
    ensures ended { IfOk result (λ found. found ≡ false → HadLeft IsInputEnd (R.remaining input.old)) }
    ensures same { IfOk result (λ found. found ≡ false → (machine.new ≡ machine.old) × (batch.new ≡ batch.old)) }
    ensures taken { IfOk result (λ found. found ≡ true → (frame : List (List ℕ))
        × Consumes (R.remaining input.old) (R.remaining input.new) (frame_bytes frame)) }
{
    match read_frame(alloc, input) {
        Ok(Some(frame)) => match handle(machine, frame, batch) {
            Ok(()) => Ok(true),
            Err(error) => Err(ServeError::Stopped(error)),
        },
        Ok(None) => Ok(false),
        Err(FrameError::Fault(Fault::UnexpectedEnd)) => Ok(false),
        Err(FrameError::Fault(fault)) => Err(ServeError::NoFrame(fault)),
        Err(FrameError::NoMemory) => Err(ServeError::Stopped(NodeError::NoMemory)),
        Err(FrameError::Failed(error)) => Err(ServeError::NoInput(error)),
    }
}

// Handles a frame, and adds what the machine wants done to the batch.
fn handle<M: Machine>(machine: &mut M, frame: Frame, batch: &mut Batch) -> Result<(), NodeError>
    ensures handled { OnOk result (IsFrameHandled M.handles M.notes machine.old machine.new frame batch.old batch.new) }
    ensures refused { IfErr result (λ e. (e ≡ NoMemory) ⊎ M.fails machine.old frame e) }
{
    let effects = machine.handle(frame)?;
    match batch.push(&effects) {
        Ok(()) => Ok(()),
        Err(_) => Err(NodeError::NoMemory),
    }
}

// Writes bytes to the output, and flushes it. Where there are no bytes, it does nothing.
fn write_out<O: Write>(output: &mut O, bytes: &Gathered) -> io::Result<()>
    ensures { Writes (O.contents output.old) (O.contents output.new) result bytes.now }
{
    if bytes.is_empty() {
        return Ok(());
    }
    write_gathered(output, bytes)?;
    output.flush()
}
