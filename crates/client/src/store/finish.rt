//! Whole calls through the lock.

ghost use Rattle.std.specs.Prelude.{◌≡◌, ◌≤◌, IfErr, IfOk, OnErr, length};
ghost use Rattle.tag.specs.declared.limits.TheConstants.{MOST_WORKERS};
ghost use Rattle.tag.specs.declared.refusal.Refusal.TheVariants.{NoMemory};
ghost use Rattle.driver.specs.Coding.{GiveBack};
ghost use Rattle.client.specs.Callers.{CanBeCoded, IsCodedFrom, IsRoundWithoutAnswer, StaysOpen};
ghost use Rattle.client.specs.Refusals.{IsRefusedThen};
ghost use Rattle.locked_steps.specs.Moves.{asked_if};
ghost use Rattle.locked_steps.specs.declared.handed_in.HandedIn.TheVariants as hands;

use crate::store::Store;
use crate::store::caller::Caller;
use coding_pool::{Gate, encode_all};
use decoder::{Decoded, decode};
use driver::{Chooser, Round};
use locked_steps::{HandedIn, StoreName};
use piece::Piece;
use register::Receipt;
use std::alloc::Global;
use std::sync::Wait;
use std::thread::Threads;
use tag::Refusal;

impl<L: StoreName> Store<L> {
    // Makes rounds until the call is answered. Values are encoded and decoded while the lock is free.
    pub(crate) fn finish<G: Gate, R: Threads + Wait + Sync, C: Chooser, K: Caller<L>>(
        &self,
        rt: &R,
        gate: &G,
        caller: &mut K,
        resumed: bool,
        chooser: &mut C,
        turns: u64,
    ) -> Result<Receipt, Refusal>
        requires { K.holds caller.old hands.Empty }
        ensures ok { IfOk result
            (λ receipt. K.ends (asked_if K.asks resumed caller.old) receipt caller.new) }
        ensures err { OnErr result (StaysOpen K.asks resumed caller.old caller.new) }
        ensures refused { IfErr result (λ e. IsRefusedThen L.first K.is_refused caller.new e) }
    {
        let mut asks_again = resumed;
        let mut left = turns;
        let mut hand = HandedIn::Empty;
        for _ in rt.forever() {
            if !asks_again
                && hand.is_empty()
                && caller.step(&mut *self.booked.lock(rt), chooser, left)?
            {
                left = left.saturating_sub(1);
                continue;
            }
            let round = caller.round(&mut *self.booked.lock(rt), chooser, hand, asks_again, left)?;
            asks_again = false;
            match round {
                Round::Answered(receipt) => return Ok(receipt),
                Round::Stepped => {
                    left = left.saturating_sub(1);
                    hand = HandedIn::Empty;
                }
                other => hand = coded(rt, self.alloc, self.workers, gate, other)?,
            }
        }
        unreachable!()
    }
}

// What the next round is to hand in: the encoded value, or the value of the decoded pieces.
fn coded<G: Gate, R: Threads + Wait + Sync>(
    rt: &R,
    alloc: Global,
    workers: usize,
    gate: &G,
    round: Round,
) -> Result<HandedIn, Refusal>
    requires codable { CanBeCoded round }
    requires few { workers ≤ MOST_WORKERS }
    ensures coded { IfOk result (λ hand. IsRoundWithoutAnswer round → IsCodedFrom round hand) }
    ensures refused { IfErr result (λ e. e ≡ NoMemory) }
{
    match round {
        Round::Encode { value, k, n } => Ok(HandedIn::Coded(encode_all(
            rt, alloc, workers, gate, k, n, value,
        )?)),
        Round::Decode { pieces, k, len } => {
            Ok(HandedIn::Decoded(decode_at_gate(alloc, gate, pieces, k, len)?))
        }
        _ => Ok(HandedIn::Empty),
    }
}

// Decodes a value while the gate is told of it.
fn decode_at_gate<G: Gate>(
    alloc: Global,
    gate: &G,
    pieces: Vec<Piece>,
    k: u8,
    len: u32,
) -> Result<Decoded, Refusal>
    requires { GiveBack k len pieces.items }
    ensures decoded { IfOk result
        (λ d. (d.k ≡ k) × (d.pieces ≡ pieces.items) × (length d.value ≡ len)) }
    ensures refused { IfErr result (λ e. e ≡ NoMemory) }
{
    gate.enter(0);
    let decoded = decode(alloc, k, len, pieces);
    gate.leave(0);
    decoded
}
