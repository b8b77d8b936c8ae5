//! A client's seat: its calls with their receipts, and what it has seen.

ghost use Rattle.std.specs.Prelude.{◌≡◌, ◌<◌, ◌≤◌, ◌↔◌, IsTrue, IsSome, IfErr, OnOk, length};
ghost use Rattle.std.specs.Prelude.{vec_len, vec_capacity};
ghost use Rattle.std.specs.String.{string_bytes};
ghost use Rattle.tag.specs.declared.refusal.Refusal.TheVariants.{NoMemory};
ghost use Rattle.locked_steps.specs.Seats.{IsReceiptOfPending, SettlesPending};
ghost use Rattle.locked_steps.specs.Seats.{abandoned, asked_once, learnt, new_seat, records_of};

use crate::booked::StoreName;
use crate::call_record::CallRecord;
use bytes::Bytes;
use register::Receipt;
use std::alloc::Global;
use std::marker::Model;
use std::sync::ledger::Share;
use tag::{Refusal, Stamp};

/// The right of one client to make calls through the store of this name, one at a time. It keeps a record of each call,
/// and its floor: the greatest answer step that it has seen.
pub struct Seat<L: StoreName> {
    pub(crate) number: u32,
    pub(crate) floor: Stamp,
    // How many rounds of its calls were made with `asks_again`. It never wraps, since a store has fewer steps.
    pub(crate) asked: u64,
    // The calls that are answered or abandoned. Where a call is pending, there is room for its record.
    pub(crate) records: Vec<CallRecord>,
    pub(crate) pending: Option<CallRecord>,
    // The name of the object of the pending call.
    pub(crate) name: String,
    // Its share of the store's book, with one unit for each record.
    pub(crate) share: Share<L>,
}

impl<L: StoreName> Drop for Seat<L> {
    fn drop(self) {
        let Self {
            number: _,
            floor: _,
            asked: _,
            records: _,
            pending: _,
            name: _,
            share: _,
        } = self;
    }
}

impl<L: StoreName> Model for Seat<L> {
    ghost use Rattle.std.specs.Prelude.{◌≡◌, ◌+◌, ◌≤◌, ◌++◌, length, vec_len, vec_capacity};
    ghost use Rattle.std.specs.String.{string_bytes};
    ghost use Rattle.locked_steps.specs.Seats.{SeatState, IsRising, IsUnanswered, pending_list, pending_of};

    ghost Value = { SeatState };

    ghost view = { λ s. record {
      number = s.number;
      floor = s.floor;
      asked = s.asked;
      records = s.records.items;
      pending = pending_of (string_bytes s.name) s.pending;
    } };

    ghost invariant = { λ s. let pending = pending_of (string_bytes s.name) s.pending in
        (s.share.parts ≡ 1) × (s.share.amount ≡ length (s.records.items ++ pending_list pending))
        × IsRising 0 (s.records.items ++ pending_list pending) s.floor × IsUnanswered pending
        × (vec_len s.records + length (pending_list pending) ≤ vec_capacity s.records) };
}

impl<L: StoreName> Seat<L> {
    /// Returns the number of the seat in its store, from 0.
    pub fn number(&self) -> u32
        ensures { result ≡ self.now.number }
    {
        self.number
    }

    /// Returns whether the seat has a pending call: one that is neither answered nor abandoned. A resume continues that
    /// call (`round_in`).
    pub fn is_pending(&self) -> bool
        ensures { IsTrue result ↔ IsSome self.now.pending }
    {
        self.pending.is_some()
    }

    /// Returns the seat's floor: the greatest answer step that it has seen, or 0.
    pub fn floor(&self) -> Stamp
        ensures { result ≡ self.now.floor }
    {
        self.floor
    }

    /// Returns how many rounds of the seat's calls were made with `asks_again`.
    pub fn asked(&self) -> u64
        ensures { result ≡ self.now.asked }
    {
        self.asked
    }

    /// Returns its share of the store's book, and drops the rest.
    pub(crate) fn into_share(self) -> Share<L>
        ensures parts { result.parts ≡ 1 }
        ensures amount { result.amount ≡ length (records_of self) }
    {
        let Self {
            number: _,
            floor: _,
            asked: _,
            records: _,
            pending: _,
            name: _,
            share,
        } = self;
        share
    }

    /// Counts a round that was made with `asks_again`.
    pub(crate) fn note_asked(&mut self)
        ensures { self.new ≡ asked_once self.old }
    {
        self.asked = self.asked.wrapping_add(1);
    }

    /// Learns another seat's receipt. The floor rises to the receipt's answer step, unless the floor is higher already.
    /// So later calls of this seat begin after that step. It allocates no memory.
    pub fn learn(&mut self, receipt: &Receipt)
        ensures { self.new ≡ learnt self.old receipt.now }
    {
        let answered = receipt.answered;
        self.floor = self.floor.max(answered);
    }

    /// Gives up the pending call, if there is one. Its record stays, without a receipt. It allocates no memory.
    pub fn abandon(&mut self)
        ensures { self.new ≡ abandoned self.old }
    {
        if let Some(record) = self.pending.take() {
            self.records.push_reserved(record);
        }
    }

    /// Answers the pending call with a receipt. The seat keeps a copy of the receipt with this copy of the value. It
    /// allocates no memory.
    pub(crate) fn settle(&mut self, receipt: &Receipt, value: Option<Bytes>)
        requires pending { IsSome self.old.pending }
        requires call { IsReceiptOfPending self.old.pending receipt.now }
        requires later { receipt.now.called < receipt.now.answered }
        requires floor { self.old.floor < receipt.now.answered }
        requires value { value ≡ receipt.now.value }
        ensures { SettlesPending self.old.pending self.old receipt.now self.new }
    {
        let kept = Receipt {
            object: receipt.object,
            kind: receipt.kind,
            call: receipt.call,
            called: receipt.called,
            answered: receipt.answered,
            value,
        };
        self.floor = self.floor.max(receipt.answered);
        if let Some(mut record) = self.pending.take() {
            record.receipt = Some(kept);
            self.records.push_reserved(record);
        }
    }

    /// Makes room for the record of a call of an object of this name, so that `begin_in` does not grow the seat under
    /// the lock. It does nothing if a call is pending. `NoMemory` is the only refusal.
    pub fn make_room(&mut self, name: &str) -> Result<(), Refusal>
        ensures same { self.new ≡ self.old }
        ensures refused { IfErr result (λ r. r ≡ NoMemory) }
    {
        if self.is_pending() {
            return Ok(());
        }
        make_room_for(&mut self.name, &mut self.records, name)
    }
}

/// Makes a seat without calls. It allocates no memory.
pub(crate) fn empty_seat<L: StoreName>(alloc: Global, number: u32, share: Share<L>) -> Seat<L>
    requires parts { share.parts ≡ 1 }
    requires amount { share.amount ≡ 0 }
    ensures { result ≡ new_seat number }
{
    Seat {
        number,
        floor: 0,
        asked: 0,
        records: Vec::new(alloc),
        pending: None,
        name: String::new(alloc),
        share,
    }
}

/// Copies the name of an object into `kept`, and makes room for one more record. It allocates only if the name differs
/// or there is no room. `NoMemory` is the only refusal.
pub(crate) fn make_room_for(
    kept: &mut String,
    records: &mut Vec<CallRecord>,
    name: &str,
) -> Result<(), Refusal>
    ensures copy { OnOk result (string_bytes kept.new ≡ name.now) }
    ensures room { OnOk result (vec_len records.new < vec_capacity records.new) }
    ensures capacity { vec_capacity records.old ≤ vec_capacity records.new }
    ensures len { vec_len records.new ≡ vec_len records.old }
    ensures same { records.new.items ≡ records.old.items }
    ensures refused { IfErr result (λ r. r ≡ NoMemory) }
{
    hold(kept, name)?;
    records.reserve(1)?;
    Ok(())
}

/// Copies `text` into `kept`, if they differ. `NoMemory` is the only refusal.
pub(crate) fn hold(kept: &mut String, text: &str) -> Result<(), Refusal>
    ensures copy { OnOk result (string_bytes kept.new ≡ text.now) }
    ensures refused { IfErr result (λ r. r ≡ NoMemory) }
{
    if kept.as_str() != text {
        kept.clear();
        kept.push_str(text)?;
    }
    Ok(())
}
