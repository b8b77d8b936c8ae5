ghost use Rattle.std.specs.Prelude.{◌≡◌, ◌<◌, ◌^◌, length, is_some, not, if◌then◌else◌, Some, IfOk, IfErr, IsOk};
ghost use Rattle.std.specs.Prelude.{IsNone};
ghost use Rattle.std.specs.Prelude.{option_copied};
ghost use Rattle.tag.specs.declared.refusal.Refusal.TheVariants.{NoMemory};

use crate::HeldPiece;
use piece::Piece;
use std::alloc::Global;
use tag::{Refusal, Stamp};

/// The label of a tag at a bank, with the number of the step at which the tag got it.
#[derive(Clone, Copy, Debug, PartialEq, Eq, Hash)]
pub enum Label {
    /// The tag was pre-written at step `since`, and is not finalized.
    PreWritten { since: Stamp },
    /// The tag was finalized at step `since`.
    Finalized { since: Stamp },
}

/// The arrival of a piece: the step at which it arrived, and the piece itself while the bank keeps it.
#[derive(Clone, Debug, PartialEq, Eq, Drop)]
pub struct Arrival {
    /// The piece, while the bank keeps it.
    pub piece: Option<Piece>,
    /// The number of the step at which the piece arrived.
    pub step: Stamp,
}

/// What a bank keeps for one tag.
#[derive(Debug, Drop)]
pub struct Row {
    /// Whether the tag is pre-written or finalized.
    pub label: Label,
    /// The first arrival of a piece for the tag, if one arrived.
    pub arrival: Option<Arrival>,
}

impl Row {
    ghost use Rattle.bank.specs.Bank.{finalized_row, filled_row, piece_of_row};
    ghost use Rattle.bank.specs.Knowledge.{is_finalized, row_arrived};
    ghost use Rattle.bank.specs.Collect.{emptied_row};
    ghost use Rattle.bank.specs.Bytes.{row_bytes};

    /// Returns whether the tag is finalized.
    pub fn is_finalized(&self) -> bool
        ensures { result ≡ is_finalized self.now.label }
    {
        match self.label {
            Label::PreWritten { since: _ } => false,
            Label::Finalized { since: _ } => true,
        }
    }

    /// Returns the piece, if one arrived and the bank keeps it.
    pub fn piece(&self) -> Option<&Piece>
        ensures { option_copied result ≡ piece_of_row (Some self.now) }
    {
        match &self.arrival {
            Some(arrival) => arrival.piece.as_ref(),
            None => None,
        }
    }

    /// Returns the number of bytes of the piece, or 0 if there is none.
    pub fn bytes(&self) -> u64
        ensures value { result ≡ row_bytes self.now }
        ensures bound { result < 2 ^ 63 }
    {
        match self.piece() {
            Some(piece) => piece.bytes.len() as u64,
            None => 0,
        }
    }

    /// Returns a copy of the piece, if there is one, which shares its bytes. `NoMemory` is the only refusal.
    pub(crate) fn copy_of_piece(&self, alloc: Global) -> Result<Option<HeldPiece>, Refusal>
        ensures copy { IfOk result (λ p. p ≡ piece_of_row (Some self.now)) }
        ensures refused { IfErr result (λ e. e ≡ NoMemory) }
        ensures none { IsNone (piece_of_row (Some self.now)) → IsOk result }
    {
        match self.piece() {
            Some(piece) => {
                let copy = piece.clone()?;
                Ok(Some(HeldPiece::new(alloc, copy)?))
            }
            None => Ok(None),
        }
    }

    /// Finalizes the tag at step `now`, unless it is finalized already. Returns whether it was not.
    pub(crate) fn finalize(&mut self, now: Stamp) -> bool
        ensures row { self.new ≡ finalized_row self.old now }
        ensures anew { result ≡ not (is_finalized self.old.label) }
    {
        if self.is_finalized() {
            return false;
        }
        self.label = Label::Finalized { since: now };
        true
    }

    /// Keeps `piece`, which arrives at step `now`, unless a piece arrived before. Returns how many bytes this adds.
    pub(crate) fn fill(&mut self, piece: Piece, now: Stamp) -> u64
        ensures row { self.new ≡ filled_row self.old piece now }
        ensures added { result ≡ (if is_some (row_arrived (Some self.old)) then 0 else length piece.bytes) }
    {
        if self.arrival.is_some() {
            return 0;
        }
        let added = piece.bytes.len() as u64;
        self.arrival = Some(Arrival {
            piece: Some(piece),
            step: now,
        });
        added
    }

    /// Drops the piece, if there is one. The step at which it arrived stays. Returns how many bytes this frees.
    pub(crate) fn empty(&mut self) -> u64
        ensures row { self.new ≡ emptied_row self.old }
        ensures freed { result ≡ row_bytes self.old }
    {
        let freed = self.bytes();
        if let Some(arrival) = &mut self.arrival {
            arrival.piece = None;
        }
        freed
    }
}
