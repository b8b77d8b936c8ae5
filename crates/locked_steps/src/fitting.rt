//! Whether the seats fit the history, and how many receipts they have.
ghost use Rattle.std.specs.Prelude.{◌≡◌, ◌+◌, ◌^◌, ◌<◌, ◌==◌, ◌↔◌, ◌++◌, true, Ok, IsTrue, IfOk, IfErr, count_by};
ghost use Rattle.std.specs.Prelude.{length, map, vec_len};
ghost use Rattle.std.specs.List.{AllByRecursion};
ghost use Rattle.tag.specs.declared.refusal.Refusal.TheVariants.{NoMemory};
ghost use Rattle.locked_steps.specs.Closing.{AllStand, AreAllSeats, Fit};
ghost use Rattle.locked_steps.specs.Closing.{all_records, are_distinct, key_of, receipts_of};
ghost use Rattle.locked_steps.specs.Seats.{IsRising, records_of};

use crate::booked::StoreName;
use crate::call_record::CallRecord;
use crate::compare::stands;
use crate::seat::Seat;
use cluster::Cluster;
use std::alloc::Global;
use std::sync::ledger::{Book, Share};
use tag::Refusal;

/// Returns whether all seats are there and fit the history. `NoMemory` is the only refusal.
pub(crate) fn fit<L: StoreName>(
    alloc: Global,
    cluster: &Cluster,
    count: u32,
    seats: &[Seat<L>],
) -> Result<bool, Refusal>
    ensures fit { IfOk result (λ all. IsTrue all ↔ Fit count cluster.now seats.now) }
    ensures order { result ≡ Ok true → AllByRecursion (λ s. IsRising 0 (records_of s) s.floor) seats.now }
    ensures few { result ≡ Ok true → length (all_records seats.now) < 2 ^ 64 }
    ensures refused { IfErr result (λ e. e ≡ NoMemory) }
{
    if !are_numbered(seats, count) {
        return Ok(false);
    }
    let mut keys = Vec::new(alloc);
    for seat in seats {
        if !check_seat(cluster, seat, &mut keys)? {
            return Ok(false);
        }
    }
    Ok(have_no_repeat(&mut keys))
}

// Whether the records of a seat agree with the history. Adds their calls to `keys`.
fn check_seat<L: StoreName>(
    cluster: &Cluster,
    seat: &Seat<L>,
    keys: &mut Vec<(u32, u64)>,
) -> Result<bool, Refusal>
    ensures stand { IfOk result (λ all. IsTrue all ↔ AllStand cluster.now (records_of seat.now)) }
    ensures keys { result ≡ Ok true → keys.new.items ≡ keys.old.items ++ map key_of (records_of seat.now) }
    ensures order { IsRising 0 (records_of seat.now) seat.now.floor }
    ensures refused { IfErr result (λ e. e ≡ NoMemory) }
{
    if !check_records(cluster, seat.records.as_slice(), keys)? {
        return Ok(false);
    }
    if let Some(record) = &seat.pending {
        if !stands(cluster, record)? {
            return Ok(false);
        }
        keys.push((record.object, record.call))?;
    }
    Ok(true)
}

// Whether these records agree with the history. Adds their calls to `keys`.
fn check_records(
    cluster: &Cluster,
    records: &[CallRecord],
    keys: &mut Vec<(u32, u64)>,
) -> Result<bool, Refusal>
    ensures stand { IfOk result (λ all. IsTrue all ↔ AllStand cluster.now records.now) }
    ensures keys { result ≡ Ok true → keys.new.items ≡ keys.old.items ++ map key_of records.now }
    ensures refused { IfErr result (λ e. e ≡ NoMemory) }
{
    for record in records {
        if !stands(cluster, record)? {
            return Ok(false);
        }
        keys.push((record.object, record.call))?;
    }
    Ok(true)
}

// Whether the seats are numbered from 0, each number once.
fn are_numbered<L: StoreName>(seats: &[Seat<L>], count: u32) -> bool
    ensures { IsTrue result ↔ AreAllSeats count seats.now }
{
    if seats.len() != count as usize {
        return false;
    }
    for number in 0..count {
        if seats_with(seats, number) != 1 {
            return false;
        }
    }
    true
}

fn seats_with<L: StoreName>(seats: &[Seat<L>], number: u32) -> usize
    ensures { result ≡ count_by (λ s. s.number == number) seats.now }
{
    seats.iter().filter(|s| s.number() == number).count()
}

// Whether no key occurs twice. Sorts the keys.
fn have_no_repeat(keys: &mut [(u32, u64)]) -> bool
    ensures { result ≡ are_distinct keys.old }
{
    keys.sort_unstable();
    keys.is_sorted_by(|first, second| first < second)
}

/// Returns how many receipts the records of the seats have.
pub(crate) fn receipts<L: StoreName>(seats: &[Seat<L>]) -> u64
    requires { length (all_records seats.now) < 2 ^ 64 }
    ensures { result ≡ receipts_of (all_records seats.now) }
{
    let mut total = 0;
    for seat in seats {
        total += receipts_in(seat);
    }
    total
}

fn receipts_in<L: StoreName>(seat: &Seat<L>) -> u64
    ensures { result ≡ receipts_of (records_of seat.now) }
{
    answered_in(seat.records.as_slice())
}

fn answered_in(records: &[CallRecord]) -> u64
    ensures { result ≡ receipts_of records.now }
{
    records.iter().filter(|r| r.receipt.is_some()).count() as u64
}

/// Merges all shares. From this the prover knows that the book's total is the number of records.
pub(crate) fn account<L: StoreName>(mut book: Book<L>, mut own: Share<L>, mut seats: Vec<Seat<L>>)
    requires parts { (own.parts ≡ 1) × (own.amount ≡ 0) × (L.parts ≡ vec_len seats + 1) }
    ensures { book.total ≡ length (all_records seats.items) }
{
    while let Some(seat) = seats.pop() {
        own.merge(seat.into_share());
    }
    book.audit(&mut own);
}
