//! Whole reads and writes.

ghost use Rattle.std.specs.Prelude.{◌≡◌, ◌⊎◌, None, IfErr, IfOk, OnErr};
ghost use Rattle.locked_steps.specs.Seats.{AddsAnswered, BeginsNot, SettlesPending, asked_once};
ghost use Rattle.locked_steps.specs.declared.call_record.Begin.TheVariants as begins;
ghost use Rattle.client.specs.Refusals.{IsFreeRefused, LeavesPending, SeatIsRefused};

use crate::store::Store;
use bytes::Bytes;
use coding_pool::{Gate, NoGate};
use driver::Chooser;
use locked_steps::{Begin, Seat, StoreName, begin_in};
use register::Receipt;
use std::sync::Wait;
use std::thread::Threads;
use tag::Refusal;

impl<L: StoreName> Store<L> {
    /// Writes a value of at most `LONGEST_VALUE` bytes to an object, in at most `turns` steps besides the one that
    /// begins the call. If the call wants replies, `chooser` chooses which of its messages is handled next.
    ///
    /// If the call does not begin, the seat is unchanged: `Stranger` if its floor is above the store's counter,
    /// `NoObject` if no object has this name, `NotNow` if it has a pending call, `TooLong` if the value is too long,
    /// `Full` if the limit of steps, of the object's calls or of its waiting messages is met, and otherwise `NoMemory`.
    /// A later refusal leaves the call pending in the seat, and is one of those of `resume`.
    pub fn write<R: Threads + Wait + Sync, C: Chooser>(
        &self,
        rt: &R,
        seat: &mut Seat<L>,
        name: &str,
        value: Bytes,
        chooser: &mut C,
        turns: u64,
    ) -> Result<Receipt, Refusal>
        ensures ok { IfOk result
            (λ receipt. AddsAnswered L.first seat.old name.now (begins.Write value) receipt seat.new) }
        ensures err { IfErr result
            (λ r. ((seat.new ≡ seat.old) × BeginsNot L.first seat.old name.now (begins.Write value) r)
            ⊎ LeavesPending L.first seat.old name.now (begins.Write value) seat.new r) }
    {
        self.call(rt, &NoGate, seat, name, Begin::Write(value), chooser, turns)
    }

    /// Reads an object, in at most `turns` steps besides the one that begins the call. It is refused as `write` is, but
    /// never for the value.
    pub fn read<R: Threads + Wait + Sync, C: Chooser>(
        &self,
        rt: &R,
        seat: &mut Seat<L>,
        name: &str,
        chooser: &mut C,
        turns: u64,
    ) -> Result<Receipt, Refusal>
        ensures ok { IfOk result (λ receipt. AddsAnswered L.first seat.old name.now begins.Read receipt seat.new) }
        ensures err { IfErr result (λ r. ((seat.new ≡ seat.old) × BeginsNot L.first seat.old name.now begins.Read r)
            ⊎ LeavesPending L.first seat.old name.now begins.Read seat.new r) }
    {
        self.call(rt, &NoGate, seat, name, Begin::Read, chooser, turns)
    }

    /// Continues the seat's pending call, in at most `turns` steps. The first round resends the requests of the current
    /// phase of a call that wants replies, and restarts a call whose fetch lacks pieces.
    ///
    /// - `Stranger` if the seat's floor is above the store's counter.
    /// - `NoCall` if the seat has no pending call.
    /// - `GaveUp` once `turns` steps were made.
    /// - `Stuck` if the call wants replies and none of its messages can be handled.
    /// - `Full` if a limit is met.
    /// - `Collected` if the call's fetch lacks pieces after the first round; the next resume restarts the call.
    /// - `NoMemory` if an allocation is refused.
    ///
    /// After a refusal, a pending call stays pending in the seat.
    pub fn resume<R: Threads + Wait + Sync, C: Chooser>(
        &self,
        rt: &R,
        seat: &mut Seat<L>,
        chooser: &mut C,
        turns: u64,
    ) -> Result<Receipt, Refusal>
        ensures ok { IfOk result
            (λ receipt. SettlesPending seat.old.pending (asked_once seat.old) receipt seat.new) }
        ensures err { OnErr result ((seat.new ≡ seat.old) ⊎ (seat.new ≡ asked_once seat.old)) }
        ensures refused { IfErr result (λ r. SeatIsRefused L.first seat.new r) }
        ensures without_call { IfErr result
            (λ r. (seat.old.pending ≡ None) → IsFreeRefused L.first seat.old.floor r) }
    {
        self.finish(rt, &NoGate, seat, true, chooser, turns)
    }

    /// Makes a whole read or write, as `read` and `write` do. The gate is called when a worker begins and when it ends
    /// to make a piece, with the number of the piece, and when the thread of the seat begins and ends a decoding, with
    /// 0. The room for the call's record is made before the lock is taken, if there is memory for it.
    pub fn call<G: Gate, R: Threads + Wait + Sync, C: Chooser>(
        &self,
        rt: &R,
        gate: &G,
        seat: &mut Seat<L>,
        name: &str,
        what: Begin,
        chooser: &mut C,
        turns: u64,
    ) -> Result<Receipt, Refusal>
        ensures ok { IfOk result (λ receipt. AddsAnswered L.first seat.old name.now what receipt seat.new) }
        ensures err { IfErr result (λ r. ((seat.new ≡ seat.old) × BeginsNot L.first seat.old name.now what r)
            ⊎ LeavesPending L.first seat.old name.now what seat.new r) }
    {
        let _ = seat.make_room(name);
        begin_in(&mut *self.booked.lock(rt), seat, name, what)?;
        self.finish(rt, gate, seat, false, chooser, turns)
    }
}
