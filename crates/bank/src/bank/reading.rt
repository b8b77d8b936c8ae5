ghost use Rattle.std.specs.Prelude.{◌≡◌, ◌<◌, ◌-◌, ◌^◌, min, Some, slice_get, option_copied};
ghost use Rattle.std.specs.Prelude.{IfOk, IfErr, IsOk, IsNone};
ghost use Rattle.tag.specs.declared.refusal.Refusal.TheVariants.{NoMemory};

use super::Bank;
use crate::{HeldPiece, Pointer, Row, rows, window};
use std::collections::btree_map::Iter;
use tag::{Refusal, Stamp, Tag};

impl Bank {
    ghost use Rattle.std.specs.FinMap as map;
    ghost use Rattle.bank.specs.Bytes.{bank_bytes};
    ghost use Rattle.bank.specs.Collect.{IsCollected, fetched_piece};
    ghost use Rattle.bank.specs.Floor.{is_forgotten};

    /// Returns the pointer to the next position.
    pub fn pointer(&self) -> Pointer
        ensures { result ≡ self.now.pointer }
    {
        self.pointer
    }

    /// Returns how many finalized tags below the greatest keep their pieces, or none if the bank has no such limit.
    pub fn delta(&self) -> Option<u32>
        ensures { result ≡ self.now.delta }
    {
        match self.window {
            Some(window) => Some(window.delta),
            None => None,
        }
    }

    /// Returns the step at which the bank was retired, if it was.
    pub fn retired(&self) -> Option<Stamp>
        ensures { result ≡ self.now.retired }
    {
        self.retired
    }

    /// Returns how many tags the bank knows.
    pub fn count(&self) -> usize
        ensures { result ≡ map.len self.now.rows }
    {
        self.rows.len()
    }

    /// The tags that the bank knows, in rising order, each with its row. A walk over all of them takes linear time.
    pub fn rows(&self) -> Iter<'_, Tag, Row>
        ensures { result ≡ map.entries self.now.rows }
    {
        self.rows.iter()
    }

    /// Returns the tag at place `i`, from 0, in rising order of the tags, with its row. It is found by a walk over the
    /// `i` tags below.
    pub fn kept(&self, i: usize) -> (Tag, &Row)
        requires { i < map.len self.now.rows }
        ensures { slice_get (map.entries self.now.rows) i ≡ Some (result.0, result.1.now) }
    {
        match self.rows().nth(i) {
            Some((tag, row)) => (*tag, row),
            None => unreachable!(),
        }
    }

    /// Returns the number of bytes of all pieces. It is kept as a running total.
    pub fn bytes(&self) -> u64
        requires { bank_bytes self.now < 2 ^ 64 }
        ensures { result ≡ bank_bytes self.now }
    {
        self.bytes
    }

    /// Returns the number of bytes of all pieces, added up by a walk over all tags. It is `u64::MAX` if the sum is
    /// greater.
    pub fn bytes_anew(&self) -> u64
        ensures { result ≡ min (bank_bytes self.now) (2 ^ 64 - 1) }
    {
        rows::bytes(&self.rows)
    }

    /// Returns whether the bank may forget the tag, because no answer depends on it any more. It may if the tag is not
    /// the opening tag, the bank has a `delta`, and it has finalized `delta` + 1 or more greater tags.
    pub fn is_forgotten(&self, tag: Tag) -> bool
        ensures { result ≡ is_forgotten self.now tag }
    {
        !tag.is(Tag::OPENING) && window::is_excluded(self.window, tag)
    }

    /// A copy of the piece that a fetch of the tag returns, if there is one.
    pub(super) fn copy_to_answer(&self, tag: Tag) -> Result<Option<HeldPiece>, Refusal>
        ensures copy { IfOk result (λ p. p ≡ fetched_piece self.now tag) }
        ensures refused { IfErr result (λ e. e ≡ NoMemory) }
        ensures none { IsNone (fetched_piece self.now tag) → IsOk result }
        ensures collected { IsCollected self.now }
    {
        if self.retired.is_some() || window::is_excluded(self.window, tag) {
            return Ok(None);
        }
        match self.row_of(tag) {
            Some(row) => row.copy_of_piece(self.alloc),
            None => Ok(None),
        }
    }

    // The row of the tag, if the bank knows the tag.
    fn row_of(&self, tag: Tag) -> Option<&Row>
        ensures { option_copied result ≡ map.get self.now.rows tag }
    {
        self.rows.get(&tag)
    }
}
