//! What holds for each object: its history is atomic, and the tags of its calls define a sequence of it.
//!
//! Atomicity is that of Lynch's Distributed Algorithms (1996), chapter 13: the answered reads and writes, with some of
//! the unanswered writes, follow one register in an order that keeps answer before call.
ghost use Rattle.std.specs.Prelude.{◌≡◌, IfOk, IfErr, map};
ghost use Rattle.tag.specs.declared.refusal.Refusal.TheVariants.{NoMemory};
ghost use Rattle.atomicity.specs.Atomic.{IsAtomic, IsSequence};
ghost use Rattle.record.specs.Journals.{entries};
ghost use Rattle.atomicity.specs.Sequence.{IsTagSequence};
ghost use Rattle.history.specs.CallOrder.{AreCallsOf};
ghost use Rattle.history.specs.Calls.{tagged_entry};

use crate::order_by_tags;
use record::{Entry, TaggedCall};
use register::Register;
use std::alloc::{AllocError, Global};
use tag::{CallId, Refusal};

/// A law: the history of each object is atomic, whatever steps were made. It does nothing and allocates no memory.
pub fn atomic(register: &Register)
    ensures { IsAtomic (entries register.now.object) }
{
    register.soundness();
}

/// Returns the sequence that the tags define, as call numbers. It has the answered reads and writes, and those
/// unanswered writes whose tag an answered read has. It is ordered by tag, then writes before reads, then by the step
/// of the call. `check` accepts it.
///
/// `NoMemory` is the only refusal. For n calls it makes some n log n comparisons, and needs room for n.
pub fn sequence(alloc: Global, register: &Register) -> Result<Vec<CallId>, Refusal>
    ensures listed { IfOk result (λ order. IsTagSequence register.now.object order.items) }
    ensures sequence { IfOk result (λ order. IsSequence (entries register.now.object) order.items) }
    ensures refused { IfErr result (λ e. e ≡ NoMemory) }
{
    let calls = tagged_calls(alloc, register)?;
    register.soundness();
    order_by_tags(alloc, &calls)
}

/// Returns what the order by tags needs to know about each call, in the order of their numbers.
fn tagged_calls(alloc: Global, register: &Register) -> Result<Vec<TaggedCall>, Refusal>
    ensures calls { IfOk result (λ calls. AreCallsOf register.now.object calls.items) }
    ensures refused { IfErr result (λ e. e ≡ NoMemory) }
{
    register.soundness();
    let entries = register.entries()?;
    Ok(tagged_entries(alloc, register, &entries)?)
}

fn tagged_entries(
    alloc: Global,
    register: &Register,
    entries: &[Entry],
) -> Result<Vec<TaggedCall>, AllocError>
    ensures { IfOk result
        (λ calls. calls.items ≡ map (λ entry. tagged_entry register.now.object entry) entries.now) }
{
    entries
        .iter()
        .map(|entry| tagged_entry(register, entry))
        .collect(alloc)
}

fn tagged_entry(register: &Register, entry: &Entry) -> TaggedCall
    ensures { result ≡ tagged_entry register.now.object entry.now }
{
    TaggedCall {
        call: entry.call,
        kind: entry.kind,
        tag: register.tag_view(entry.call),
        called: entry.called,
        is_answered: entry.answered.is_some(),
    }
}
