//! Whether the record of a call agrees with the history.
ghost use Rattle.std.specs.Prelude.{◌≡◌, ◌↔◌, IsTrue, IfOk, IfErr};
ghost use Rattle.tag.specs.declared.refusal.Refusal.TheVariants.{NoMemory};
ghost use Rattle.locked_steps.specs.Closing.{IsReceiptOf, IsToldAs, IsWrittenAs, Matches, Stands};

use crate::call_record::CallRecord;
use bytes::Bytes;
use cluster::Cluster;
use record::{Entry, Operation};
use register::Receipt;
use tag::Refusal;

/// Returns whether the record's call is in the history, and its entry agrees with the record. `NoMemory` is the only
/// refusal.
pub(crate) fn stands(cluster: &Cluster, record: &CallRecord) -> Result<bool, Refusal>
    ensures stand { IfOk result (λ b. IsTrue b ↔ Stands cluster.now record.now) }
    ensures refused { IfErr result (λ e. e ≡ NoMemory) }
{
    match cluster.entry(record.object, record.call) {
        Ok(entry) => Ok(matches(&entry, record)),
        Err(Refusal::NoMemory) => Err(Refusal::NoMemory),
        Err(_) => Ok(false),
    }
}

fn matches(entry: &Entry, record: &CallRecord) -> bool
    ensures { IsTrue result ↔ Matches entry.now record.now }
{
    entry.call == record.call
        && entry.kind == record.kind
        && entry.called == record.called
        && is_written(entry, &record.written)
        && is_told(entry, record.object, &record.receipt)
}

fn is_written(entry: &Entry, written: &Option<Bytes>) -> bool
    ensures { IsTrue result ↔ IsWrittenAs entry.now.kind entry.now.value written.now }
{
    match entry.kind {
        Operation::Read => written.is_none(),
        Operation::Write => same_value(written, &entry.value),
        Operation::Move => false,
    }
}

fn is_told(entry: &Entry, object: u32, receipt: &Option<Receipt>) -> bool
    ensures { IsTrue result ↔ IsToldAs object entry.now receipt.now }
{
    match receipt {
        Some(receipt) => is_receipt(entry, object, receipt),
        None => entry.answered.is_none(),
    }
}

fn is_receipt(entry: &Entry, object: u32, receipt: &Receipt) -> bool
    ensures { IsTrue result ↔ IsReceiptOf object entry.now receipt.now }
{
    receipt.object == object
        && receipt.kind == entry.kind
        && receipt.call == entry.call
        && receipt.called == entry.called
        && entry.answered == Some(receipt.answered)
        && same_value(&receipt.value, &entry.value)
}

fn same_value(a: &Option<Bytes>, b: &Option<Bytes>) -> bool
    ensures { IsTrue result ↔ (a.now ≡ b.now) }
{
    match (a, b) {
        (Some(a), Some(b)) => a == b,
        (None, None) => true,
        _ => false,
    }
}
