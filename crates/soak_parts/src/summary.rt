//! The summary of a soak.
ghost use Rattle.std.specs.Prelude.{◌≡◌, ◌<◌, ◌^◌, true, count_by, IfErr, IfOk};
ghost use Rattle.tag.specs.declared.refusal.Refusal.TheVariants.{NoMemory};
ghost use Rattle.record.specs.Journals.{entries};
ghost use Rattle.history.specs.Check.{must_stand};
ghost use Rattle.soak_parts.specs.Audit.{missing_cause};
ghost use Rattle.tag.specs.Refusal.{IsByCause};
ghost use Rattle.soak_parts.specs.Summary.{IsSummaryOf, is_answered_move, exit_status_of_summary};

use crate::audit::are_accounted;
use cluster::Cluster;
use history::{check, entries_are_lawful, sequence};
use record::{Entry, Operation};
use register::{Register, fragments_are_a_code};
use std::alloc::Global;
use std::fmt;
use tag::Refusal;

/// The summary of a closed store. It prints as five lines, without a line feed after the last.
#[derive(Clone, Copy, Debug, PartialEq, Eq)]
pub struct Summary {
    /// How many reads and writes of the history are answered.
    pub calls: u64,
    /// How many receipts the seats have.
    pub receipts: u64,
    /// How many moves of the history are answered.
    pub moves: u64,
    /// Whether the order of the tags is a register sequence of each object's history.
    pub check: bool,
    /// Whether the accounts equal the sums over banks and mail.
    pub accounts: bool,
}

/// The numbers of one object, and its check.
#[derive(Clone, Copy)]
struct Seen {
    calls: u64,
    moves: u64,
    check: bool,
}

impl Summary {
    /// Sums up and checks the cluster of a closed store, whose seats have this many receipts. Is refused with
    /// `NoObject` if there is no object `a` or `b`. Otherwise `NoMemory` is the only refusal.
    pub fn of(alloc: Global, cluster: &Cluster, receipts: u64) -> Result<Summary, Refusal>
        ensures summary { IfOk result (λ s. IsSummaryOf cluster.now receipts s) }
        ensures cause { IsByCause (missing_cause cluster.now) result }
    {
        let one = cluster.register("a")?;
        let other = cluster.register("b")?;
        let one = look_at(alloc, one)?;
        let other = look_at(alloc, other)?;
        Ok(Summary {
            calls: one.calls + other.calls,
            receipts,
            moves: one.moves + other.moves,
            check: one.check && other.check,
            accounts: are_accounted(cluster)?,
        })
    }

    /// Returns the exit status: 0 if there are as many calls as receipts and both checks hold, and otherwise 1.
    pub fn status(&self) -> u8
        ensures { result ≡ exit_status_of_summary self.now }
    {
        if self.calls == self.receipts && self.check && self.accounts {
            0
        } else {
            1
        }
    }
}

impl fmt::Display for Summary {
    ghost use Rattle.std.specs.Prelude.{Some};
    ghost use Rattle.soak_parts.specs.Summary.{summary_text};

    ghost output = { λ summary. Some (summary_text summary) };

    fn fmt<W: fmt::Write>(&self, f: &mut fmt::Formatter<W>) -> fmt::Result {
        write!(
            f,
            "calls {}\nreceipts {}\nmoves {}\ncheck {}\naccounts {}",
            self.calls, self.receipts, self.moves, self.check, self.accounts
        )
    }
}

fn look_at(alloc: Global, register: &Register) -> Result<Seen, Refusal>
    ensures calls { IfOk result (λ s. s.calls ≡ count_by must_stand (entries register.now.object)) }
    ensures moves { IfOk result (λ s. s.moves ≡ count_by is_answered_move (entries register.now.object)) }
    ensures few { IfOk result (λ s. (s.calls < 2 ^ 63) × (s.moves < 2 ^ 63)) }
    ensures check { IfOk result (λ s. s.check ≡ true) }
    ensures refused { IfErr result (λ r. r ≡ NoMemory) }
{
    register.soundness();
    fragments_are_a_code();
    entries_are_lawful();
    let entries = register.entries()?;
    let order = sequence(alloc, register)?;
    Ok(Seen {
        calls: answered_calls(&entries) as u64,
        moves: answered_moves(&entries) as u64,
        check: check(&entries, &order),
    })
}

fn answered_calls(entries: &[Entry]) -> usize
    ensures calls { result ≡ count_by must_stand entries.now }
    ensures few { result < 2 ^ 63 }
{
    let _few = entries.len();
    entries.iter().filter(|e| is_answered_call(e)).count()
}

fn answered_moves(entries: &[Entry]) -> usize
    ensures moves { result ≡ count_by is_answered_move entries.now }
    ensures few { result < 2 ^ 63 }
{
    let _few = entries.len();
    entries.iter().filter(|e| is_answered_move(e)).count()
}

fn is_answered_call(entry: &Entry) -> bool
    ensures { result ≡ must_stand entry.now }
{
    entry.kind != Operation::Move && entry.answered.is_some()
}

fn is_answered_move(entry: &Entry) -> bool
    ensures { result ≡ is_answered_move entry.now }
{
    entry.kind == Operation::Move && entry.answered.is_some()
}
