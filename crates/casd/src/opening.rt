//! The log of a node at its start.
ghost use Rattle.std.specs.Prelude.{◌≡◌, ℕ, IsTrue, IfOk, IfErr, OnOk};
ghost use Rattle.deeds.specs.Kept.{FileOfNames};
ghost use Rattle.node.specs.Anew.{AreAnew};
ghost use Rattle.node.specs.declared.node.Node.{Node};
ghost use Rattle.processes.specs.Programs.{IsNewAndIdle};
ghost use Rattle.casd.specs.Fault.{IsReadFault, IsRefusal, IsStartFault, TellsFailedLog, status_of};
ghost use Rattle.casd.specs.Opening.{HasBegun, HasCut, HasReadForm, HasReadLog, HasStarted, HasWrittenAnew};
ghost use Rattle.casd.specs.Opening.{IsFailedStart};

use crate::fault::Fault;
use crate::folder::unopened;
use frames::{Gathered, read_full};
use node::Node;
use node_effects::NodeError;
use node_log::{Entry, HEAD_LENGTH, is_old_head};
use node_store::{
    Log, LogEnd, RewritableLog, Rewriting, StoredLog, append_bytes, is_worth_rewriting,
    push_entries, recover_machine, rewrite_log,
};
use std::alloc::Global;
use std::fmt::Display;
use std::io::{BufReader, Write};

// The size of the buffer with which the log is read, in bytes.
const LOG_BUFFER: usize = 65_536;

/// Has the node carry out the log again, and cuts off an entry that is cut short at its end. Then it syncs the log,
/// writes it anew, if most of it is no longer needed, and begins an epoch of the node. Returns where the log ends,
/// which is synced. How many bytes it cut off is said on `err`, and why the log was not written anew.
///
/// If the node has no more epoch, the log is cut and synced, and not written anew.
///
/// If the log is damaged, has the form of before, or is not this node's, it is left as it is. The clause `fails` says
/// what the log keeps after each fault, and `failure` that it is `LogLost` or `NotExchanged` just if a call of the log
/// failed. No sync of the log may have failed before.
pub fn start_with<L: StoredLog, E: Write>(
    alloc: Global,
    log: &mut L,
    node: &mut Node,
    err: &mut E,
) -> Result<LogEnd, Fault>
    requires { IsTrue (L.sound log.old) }
    ensures starts { (names : FileOfNames) (number : ℕ) → IsNewAndIdle names number node.old
        → IfOk result (λ end. HasStarted names number (L.written log.old) node.new end (L.kept log.new)) }
    ensures fails { (names : FileOfNames) (number : ℕ) → IsNewAndIdle names number node.old
        → IfErr result (IsFailedStart names number (L.written log.old) (L.kept log.old) (L.kept log.new)) }
    ensures refused { IfErr result (λ fault. IsRefusal fault
        → (L.written log.new ≡ L.written log.old) × (L.kept log.new ≡ L.kept log.old)) }
    ensures synced { OnOk result (L.kept log.new ≡ L.written log.new) }
    ensures sound { OnOk result (IsTrue (L.sound log.new)) }
    ensures fault { IfErr result IsStartFault }
    ensures failure { TellsFailedLog (L.failed log.old) (L.failed log.new) (status_of result) }
{
    refuse_old_form(log)?;
    let end = recover(alloc, log, node)?;
    cut_behind(log, end.length, err)?;
    if !node.has_more_epochs() {
        return Err(Fault::Stopped(NodeError::NoMoreIds));
    }
    let end = write_anew(alloc, log, node, end, err)?;
    begin(alloc, log, node, end)
}

// Fails with `OldForm` if the log has an older form.
fn refuse_old_form<L: StoredLog>(log: &L) -> Result<(), Fault>
    ensures form { HasReadForm (L.written log.now) result }
    ensures reads { IfErr result IsReadFault }
{
    let mut reader = match log.read() {
        Ok(reader) => reader,
        Err(error) => return Err(unopened(error)),
    };
    let mut head = [0; HEAD_LENGTH];
    match read_full(&mut reader, &mut head) {
        Ok(count) => {
            if count < HEAD_LENGTH {
                return Ok(());
            }
            if is_old_head(&head) {
                return Err(Fault::OldForm);
            }
            Ok(())
        }
        Err(error) => Err(Fault::Unopened(error)),
    }
}

// Has the node carry out the log again. Returns where its last entry ends.
fn recover<L: StoredLog>(alloc: Global, log: &L, node: &mut Node) -> Result<LogEnd, Fault>
    ensures recovered { HasReadLog node.old node.new (L.written log.now) result }
    ensures reads { IfErr result IsReadFault }
{
    let reader = match log.read() {
        Ok(reader) => reader,
        Err(error) => return Err(unopened(error)),
    };
    match BufReader::with_capacity(alloc, LOG_BUFFER, reader) {
        Ok(mut reader) => match recover_machine(alloc, &mut reader, node) {
            Ok(end) => Ok(end),
            Err(error) => Err(Fault::BadLog(error)),
        },
        Err(_) => Err(Fault::NoMemory),
    }
}

// Cuts the log behind so many bytes, and syncs it. Says on `err` how many bytes it cut off.
fn cut_behind<L: StoredLog, E: Write>(log: &mut L, length: u64, err: &mut E) -> Result<(), Fault>
    requires { IsTrue (L.sound log.old) }
    ensures cut { HasCut length (L.written log.old) (L.kept log.old) (L.kept log.new) result }
    ensures synced { OnOk result (L.kept log.new ≡ L.written log.new) }
    ensures sound { OnOk result (IsTrue (L.sound log.new)) }
    ensures kind { IfErr result (λ fault. IsRefusal fault → ⊥) }
    ensures fault { IfErr result IsStartFault }
    ensures failure { TellsFailedLog (L.failed log.old) (L.failed log.new) (status_of result) }
{
    let cut = match log.cut(length) {
        Ok(cut) => cut,
        Err(error) => return Err(Fault::Unopened(error)),
    };
    if cut > 0 {
        tell_cut(err, cut);
    }
    match log.sync() {
        Ok(()) => Ok(()),
        Err(error) => Err(Fault::LogLost(error)),
    }
}

// Says on `err` how many bytes were cut off. A write that fails is ignored.
fn tell_cut<E: Write>(err: &mut E, cut: u64) {
    let _ = writeln!(
        err,
        "casd: the log's last entry was cut short; {cut} bytes were cut off"
    );
}

// Begins an epoch of the node, and appends the entries of this to the log that ends there. Returns where it ends then.
fn begin<L: Log>(alloc: Global, log: &mut L, node: &mut Node, end: LogEnd) -> Result<LogEnd, Fault>
    requires synced { L.kept log.old ≡ L.written log.old }
    requires sound { IsTrue (L.sound log.old) }
    ensures begun { HasBegun node.old node.new end (L.kept log.old) (L.kept log.new) result }
    ensures synced { OnOk result (L.kept log.new ≡ L.written log.new) }
    ensures sound { OnOk result (IsTrue (L.sound log.new)) }
    ensures kind { IfErr result (λ fault. IsRefusal fault → ⊥) }
    ensures fault { IfErr result IsStartFault }
    ensures failure { TellsFailedLog (L.failed log.old) (L.failed log.new) (status_of result) }
{
    let mut end = end;
    let entries = match node.start() {
        Ok(entries) => entries,
        Err(error) => return Err(Fault::Stopped(error)),
    };
    let mut bytes = Gathered::new(alloc);
    if push_entries(&mut bytes, &mut end.chain, &entries).is_err() {
        return Err(Fault::Stopped(NodeError::NoMemory));
    }
    match append_bytes(log, &bytes) {
        Ok(()) => {
            end.length = end.length.saturating_add(bytes.len() as u64);
            Ok(end)
        }
        Err(error) => Err(Fault::LogLost(error)),
    }
}

/// Writes the log that ends there anew, if that is worth it and the node may do so now. The log is synced. Returns
/// where it ends then. If a file `log.new` was left when the node stopped while it wrote its log anew, that file is
/// removed. If the new log cannot be written, `err` is told why.
///
/// Fails with `NotExchanged` if the new log was written, and cannot be put in the place of the old one. Nothing may be
/// appended then.
pub fn write_anew<L: RewritableLog, E: Write>(
    alloc: Global,
    log: &mut L,
    node: &Node,
    end: LogEnd,
    err: &mut E,
) -> Result<LogEnd, Fault>
    requires synced { L.kept log.old ≡ L.written log.old }
    requires sound { IsTrue (L.sound log.old) }
    ensures rewritten { HasWrittenAnew node.now (L.kept log.old) end (L.kept log.new) result }
    ensures synced { OnOk result (L.kept log.new ≡ L.written log.new) }
    ensures sound { OnOk result (IsTrue (L.sound log.new)) }
    ensures kind { IfErr result (λ fault. IsRefusal fault → ⊥) }
    ensures fault { IfErr result IsStartFault }
    ensures failure { TellsFailedLog (L.failed log.old) (L.failed log.new) (status_of result) }
{
    let _ = log.remove_second();
    if !is_worth_rewriting(end.length, node.needed_bytes()) {
        return Ok(end);
    }
    match node.entries_anew() {
        Ok(Some(entries)) => exchange(alloc, log, &entries, end, err),
        Ok(None) => Ok(end),
        Err(error) => {
            give_up(err, error);
            Ok(end)
        }
    }
}

// Puts a log with these entries in the place of the log that ends there, which stays if the new one cannot be written.
// Returns where the log ends then.
fn exchange<L: RewritableLog, E: Write>(
    alloc: Global,
    log: &mut L,
    entries: &[Entry],
    end: LogEnd,
    err: &mut E,
) -> Result<LogEnd, Fault>
    requires synced { L.kept log.old ≡ L.written log.old }
    requires sound { IsTrue (L.sound log.old) }
    ensures rewritten { (node : Node) → AreAnew node entries.now
        → HasWrittenAnew node (L.kept log.old) end (L.kept log.new) result }
    ensures synced { OnOk result (L.kept log.new ≡ L.written log.new) }
    ensures sound { OnOk result (IsTrue (L.sound log.new)) }
    ensures kind { IfErr result (λ fault. IsRefusal fault → ⊥) }
    ensures fault { IfErr result IsStartFault }
    ensures failure { TellsFailedLog (L.failed log.old) (L.failed log.new) (status_of result) }
{
    match rewrite_log(alloc, log, entries) {
        Ok(Rewriting::Done(anew)) => Ok(anew),
        Ok(Rewriting::GivenUp(error)) => {
            give_up(err, error);
            Ok(end)
        }
        Err(error) => Err(Fault::NotExchanged(error)),
    }
}

// Says on `err` why the log was not written anew. A write that fails is ignored.
fn give_up<E: Write, C: Display + Drop>(err: &mut E, cause: C) {
    let _ = writeln!(err, "casd: the log was not written anew: {cause}");
}
