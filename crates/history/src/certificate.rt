//! Whether a list of calls is a sequence of the entries.
ghost use Rattle.std.specs.Prelude.{◌≡◌, ℕ, ◌<◌, ◌≤◌, ◌≢◌, ◌↔◌, []};
ghost use Rattle.std.specs.Prelude.{length, slice_index, count_by, Some, IsSome, IsTrue, nat_eq};
ghost use Rattle.std.specs.List.{IsDistinct};
ghost use Rattle.layout.specs.Quorum.{has};
ghost use Rattle.record.specs.declared.call.Operation.TheVariants as operation;
ghost use Rattle.atomicity.specs.Atomic.{IsSequence, IsRegister, KeepsOrder, MayStand, entry_at};
ghost use Rattle.history.specs.Check.{AreLawfulEntries, MayAllStand, must_stand, entries_listed};

use record::{Entry, Operation};
use tag::{CallId, Stamp};

/// Returns whether the entries are lawful and `order`, a list of call numbers, is a sequence of them. Both may be
/// anything. No memory is allocated.
///
/// The time grows with the length of the list times the number of calls that overlap one call. Apart from a few passes,
/// it goes into the search for repeats, which looks back from each call over the calls that overlap it.
pub fn check(entries: &[Entry], order: &[CallId]) -> bool
    ensures { IsTrue result ↔ (AreLawfulEntries entries.now × IsSequence entries.now order.now) }
{
    are_lawful(entries) && is_sequence(entries, order)
}

fn is_sequence(entries: &[Entry], order: &[CallId]) -> bool
    requires { AreLawfulEntries entries.now }
    ensures { IsTrue result ↔ IsSequence entries.now order.now }
{
    may_all_stand(entries, order)
        && keeps_order(entries, order)
        && has_no_repeat(entries, order)
        && holds_answered(entries, order)
        && is_register(entries, order)
}

/// Returns whether entry i, counted from 1, is that of call i, and each write and each answered read has a value.
fn are_lawful(entries: &[Entry]) -> bool
    ensures { IsTrue result ↔ AreLawfulEntries entries.now }
{
    for (place, entry) in entries.iter().enumerate() {
        if !is_lawful_as(entry, place as u64 + 1) {
            return false;
        }
    }
    true
}

fn is_lawful_as(entry: &Entry, call: CallId) -> bool
    ensures { IsTrue result ↔ ((entry.now.call ≡ call) × (MayStand entry.now → IsSome entry.now.value)) }
{
    entry.call == call && (!may_stand(entry) || entry.value.is_some())
}

/// Returns whether the list names only writes and answered reads.
fn may_all_stand(entries: &[Entry], order: &[CallId]) -> bool
    ensures { IsTrue result ↔ MayAllStand entries.now order.now }
{
    order.iter().all(|call| may_stand_at(entries, *call))
}

fn may_stand_at(entries: &[Entry], call: CallId) -> bool
    ensures { IsTrue result ↔ MayStand (entry_at entries.now call) }
{
    call > 0 && call <= entries.len() as u64 && may_stand(entry_at(entries, call))
}

/// Returns whether each call comes after all calls that were answered before it was called. That is so if no answer
/// lies before the greatest step at which an earlier element was called.
fn keeps_order(entries: &[Entry], order: &[CallId]) -> bool
    requires { MayAllStand entries.now order.now }
    ensures { IsTrue result ↔ KeepsOrder (entries_listed entries.now order.now) }
{
    let mut latest = 0;
    for call in order {
        let entry = entry_at(entries, *call);
        if is_before(entry.answered, latest) {
            return false;
        }
        latest = latest.max(entry.called);
    }
    true
}

fn has_no_repeat(entries: &[Entry], order: &[CallId]) -> bool
    requires standing { MayAllStand entries.now order.now }
    requires in_order { KeepsOrder (entries_listed entries.now order.now) }
    ensures { IsTrue result ↔ IsDistinct nat_eq order.now }
{
    for place in 0..order.len() {
        if !is_new(entries, order, place) {
            return false;
        }
    }
    true
}

/// Returns whether the call at this place stands at no earlier place. The search goes back to the first element that
/// was answered before this call was made: if the same call stood before that element, it would break the order.
fn is_new(entries: &[Entry], order: &[CallId], place: usize) -> bool
    requires standing { MayAllStand entries.now order.now }
    requires in_order { KeepsOrder (entries_listed entries.now order.now) }
    requires within { place < length order.now }
    ensures { IsTrue result
        ↔ ((earlier : ℕ) → earlier < place → slice_index order.now earlier ≢ slice_index order.now place) }
{
    let call = order[place];
    let called = entry_at(entries, call).called;
    let mut rest = place;
    while rest > 0 {
        rest -= 1;
        let other = order[rest];
        if other == call {
            return false;
        }
        if is_before(entry_at(entries, other).answered, called) {
            return true;
        }
    }
    true
}

/// Returns whether the list has each answered read and each answered write. Since no call is repeated, it is enough to
/// count them.
fn holds_answered(entries: &[Entry], order: &[CallId]) -> bool
    requires standing { MayAllStand entries.now order.now }
    requires distinct { IsDistinct nat_eq order.now }
    ensures { IsTrue result ↔ ((call : ℕ) → (entry_at entries.now call).kind ≢ operation.Move →
        IsSome (entry_at entries.now call).answered → IsTrue (has order.now call)) }
{
    answered_among(entries) == answered_in(entries, order)
}

/// Returns the number of answered reads and writes among the entries.
fn answered_among(entries: &[Entry]) -> usize
    ensures { result ≡ count_by must_stand entries.now }
{
    entries.iter().filter(|entry| must_stand(entry)).count()
}

/// Returns the number of answered reads and writes in the list.
fn answered_in(entries: &[Entry], order: &[CallId]) -> usize
    requires { MayAllStand entries.now order.now }
    ensures { result ≡ count_by must_stand (entries_listed entries.now order.now) }
{
    let mut count = 0;
    for call in order {
        if must_stand(entry_at(entries, *call)) {
            count += 1;
        }
    }
    count
}

/// Returns whether each read of the list has the value of the nearest write before it, or the empty value if there is
/// none.
fn is_register(entries: &[Entry], order: &[CallId]) -> bool
    requires lawful { AreLawfulEntries entries.now }
    requires standing { MayAllStand entries.now order.now }
    ensures { IsTrue result ↔ IsRegister [] (entries_listed entries.now order.now) }
{
    let mut current: &[u8] = &[];
    for call in order {
        let entry = entry_at(entries, *call);
        let value = value_of(entry);
        match entry.kind {
            Operation::Write => current = value,
            Operation::Read => {
                if !are_same(value, current) {
                    return false;
                }
            }
            Operation::Move => return false,
        }
    }
    true
}

/// Returns the entry of the call with this number, from 1.
fn entry_at(entries: &[Entry], call: CallId) -> &Entry
    requires some { 0 < call }
    requires within { call ≤ length entries.now }
    ensures { result.now ≡ entry_at entries.now call }
{
    &entries[(call - 1) as usize]
}

/// Returns whether the call may stand in a sequence: a write, or an answered read.
fn may_stand(entry: &Entry) -> bool
    ensures { IsTrue result ↔ MayStand entry.now }
{
    match entry.kind {
        Operation::Read => entry.answered.is_some(),
        Operation::Write => true,
        Operation::Move => false,
    }
}

/// Returns whether the call has to stand in each sequence: an answered read or write has to.
fn must_stand(entry: &Entry) -> bool
    ensures { result ≡ must_stand entry.now }
{
    entry.kind != Operation::Move && entry.answered.is_some()
}

fn is_before(answered: Option<Stamp>, step: Stamp) -> bool
    ensures { IsTrue result ↔ ((stamp : ℕ) × (answered ≡ Some stamp) × (stamp < step)) }
{
    match answered {
        Some(answered) => answered < step,
        None => false,
    }
}

/// Returns the entry's value, which it must have.
fn value_of(entry: &Entry) -> &[u8]
    requires { IsSome entry.now.value }
    ensures { entry.now.value ≡ Some result.now }
{
    match &entry.value {
        Some(value) => value.as_slice(),
        None => unreachable!(),
    }
}

fn are_same(left: &[u8], right: &[u8]) -> bool
    ensures { IsTrue result ↔ (left.now ≡ right.now) }
{
    left == right
}
