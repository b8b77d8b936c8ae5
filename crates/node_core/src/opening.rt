//! A core from the bytes of its log.
ghost use Rattle.std.specs.Prelude.{◌≡◌, ◌+◌, ◌-◌, ◌^◌, ℕ, false, IfErr, IfOk, IsTrue, length, List, MatchResult, min};
ghost use Rattle.cluster_file.specs.File.{IsLawfulFile};
ghost use Rattle.deeds.specs.Kept.{FileOfNames};
ghost use Rattle.node_log.specs.Entry.{chain_behind};
ghost use Rattle.node_store.specs.Recovery.{log_bytes};
ghost use Rattle.processes.specs.Programs.{IsNewAndIdle, IsReadLog};
ghost use Rattle.node_core.specs.Opening.{HasBegun, HasOpened, HasReadFile, IsOfOldForm, IsOpened};
ghost use Rattle.node_core.specs.Opening.{IsUnopened, IsUnread};
ghost use Rattle.node_core.specs.declared.error.CoreError.TheVariants.{NoMemory};

use crate::embedded::NodeCore;
use crate::error::CoreError;
use cluster_file::{ClusterFile, read_cluster_file};
use frames::Gathered;
use node::Node;
use node_log::{Entry, HEAD_LENGTH, is_old_head};
use node_store::{GivenBytes, LogEnd, push_entries, recover_machine};
use std::alloc::Global;

/// A core that was opened, and what the program has to do with its log before it hands frames to the core: it cuts the
/// log behind the first `length` bytes, syncs it, appends `entries`, and syncs it again.
pub struct Opened {
    /// The core.
    pub core: NodeCore,
    /// How many bytes of the log stay.
    pub length: u64,
    /// How many bytes behind them are cut off.
    pub cut: u64,
    /// The bytes that the log then gets.
    pub entries: Gathered,
}

impl Drop for Opened {
    fn drop(self) {
        let Self {
            core: _,
            length: _,
            cut: _,
            entries: _,
        } = self;
    }
}

impl Opened {
    /// The core, once the program has done with its log what it has to do.
    pub fn into_core(self) -> NodeCore
        ensures { result ≡ self.core }
    {
        let Self {
            core: started,
            length: _,
            cut: _,
            entries: _,
        } = self;
        started
    }
}

/// Opens a core for the node of this number: `text` is that of the cluster file, and `log` all bytes that the node's
/// log has. A new log has none. The node has carried out its log again, and has begun an epoch.
///
/// Fails with `BadFile` or `NoNode` if the text is no cluster file with this node, with `OldForm` or `BadLog` if the
/// node must not use the log, with `Refused` if the node cannot start, because it has begun all epochs or memory is
/// refused, and with `NoMemory`. The program changes nothing in the log then.
pub fn open(alloc: Global, text: &[u8], number: u8, log: &[u8]) -> Result<Opened, CoreError>
    ensures opened { IfOk result (IsOpened text.now number log.now) }
    ensures refused { IfErr result (IsUnopened text.now number log.now) }
{
    let file = match read_file(alloc, text, number) {
        Ok(file) => file,
        Err(error) => return Err(error),
    };
    if has_old_form(log) {
        return Err(CoreError::OldForm);
    }
    open_with(alloc, Node::new(alloc, file, number), log)
}

// The cluster file that a text writes, which has a node of this number.
fn read_file(alloc: Global, text: &[u8], number: u8) -> Result<ClusterFile, CoreError>
    ensures { HasReadFile text.now number result }
{
    let file = match read_cluster_file(alloc, text) {
        Ok(file) => file,
        Err(error) => return Err(CoreError::BadFile(error)),
    };
    know_lawful(&file);
    if file.has_node(number) {
        Ok(file)
    } else {
        Err(CoreError::NoNode(number))
    }
}

// Does nothing. Each cluster file is lawful, and its contract says so.
fn know_lawful(file: &ClusterFile)
    ensures { IsLawfulFile file.now }
{
    let _ = file.nodes();
}

// Whether the log begins with the head of an entry of an older form.
fn has_old_form(log: &[u8]) -> bool
    ensures { IsTrue result → IsOfOldForm log.now }
{
    if log.len() < HEAD_LENGTH {
        return false;
    }
    let mut head = [0; HEAD_LENGTH];
    head.copy_from_slice(&log[..HEAD_LENGTH]);
    is_old_head(&head)
}

// A new node carries out the log again, and starts.
fn open_with(alloc: Global, node: Node, log: &[u8]) -> Result<Opened, CoreError>
    ensures { (names : FileOfNames) (number : ℕ) → IsNewAndIdle names number node
        → MatchResult result (HasOpened names number log.now) (IsUnread names number log.now) }
{
    let mut node = node;
    match recover_machine(alloc, &mut GivenBytes::new(log), &mut node) {
        Ok(end) => {
            let cut = (log.len() as u64).saturating_sub(end.length);
            begin(alloc, node, end, cut)
        }
        Err(error) => Err(CoreError::BadLog(error)),
    }
}

// Begins an epoch of the node, whose log ends there, after so many bytes are cut off behind that.
fn begin(alloc: Global, node: Node, end: LogEnd, cut: u64) -> Result<Opened, CoreError>
    ensures { MatchResult result (HasBegun node end cut)
        (λ error. (names : FileOfNames) (number : ℕ) (disk : List ℕ) → IsReadLog names number disk node end
        → IsUnread names number disk error) }
{
    let mut node = node;
    match node.start() {
        Ok(entries) => opened_with(alloc, node, end, cut, &entries),
        Err(error) => Err(CoreError::Refused(error)),
    }
}

// The core of a node that has started. Its log, of which so many bytes are cut off, ends there, and gets these entries.
fn opened_with(
    alloc: Global,
    node: Node,
    end: LogEnd,
    cut: u64,
    entries: &[Entry],
) -> Result<Opened, CoreError>
    ensures stays { IfOk result (λ opened. opened.length ≡ end.length) }
    ensures lost { IfOk result (λ opened. opened.cut ≡ cut) }
    ensures node { IfOk result (λ opened. opened.core.node ≡ node) }
    ensures bytes { IfOk result (λ opened. opened.entries ≡ log_bytes end.chain.state entries.now) }
    ensures long { IfOk result (λ opened.
        opened.core.end.length ≡ min (end.length + length opened.entries) (2 ^ 64 - 1)) }
    ensures chained { IfOk result (λ opened.
        opened.core.end.chain.state ≡ chain_behind end.chain.state entries.now) }
    ensures going { IfOk result (λ opened. opened.core.is_stopped ≡ false) }
    ensures refused { IfErr result (λ error. error ≡ NoMemory) }
{
    let mut bytes = Gathered::new(alloc);
    let mut chain = end.chain;
    match push_entries(&mut bytes, &mut chain, entries) {
        Ok(()) => {
            let then = LogEnd {
                length: end.length.saturating_add(bytes.len() as u64),
                chain,
            };
            Ok(Opened {
                core: NodeCore::new(alloc, node, then),
                length: end.length,
                cut,
                entries: bytes,
            })
        }
        Err(_) => Err(CoreError::NoMemory),
    }
}
