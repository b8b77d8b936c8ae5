//! The start of an object: the position at which its calls begin.

ghost use Rattle.std.specs.Prelude.{◌≡◌, ◌^◌, [], nat_lt, IfOk, IfErr};
ghost use Rattle.tag.specs.declared.refusal.Refusal.TheVariants.{NoMemory};
ghost use Rattle.open_calls.specs.OpenCalls.{open_call};
ghost use Rattle.local_object.specs.Doing.{IsOutcome};
ghost use Rattle.local_object.specs.Anew.{can_grow};
ghost use Rattle.local_object.specs.ReadingOn.{read_on_events};
ghost use Rattle.local_object.specs.Taking.{IsOutcomeWithAnswers, grow_events, grows_by};

use crate::LocalObject;
use crate::calls::has_raised;
use crate::reading::{is_reading, read_at};
use letter::Letter;
use tag::{CallId, Refusal};

impl LocalObject {
    /// The call with this id goes on at the object's start, if it is open here and reads the sequence of layouts at an
    /// earlier position. Returns its requests. Returns no letters, and changes nothing, if no such call is open here,
    /// if it has settled a value, if its phase has a quorum of replies, or if there is no number in 32 bits for its new
    /// phase.
    ///
    /// `NoMemory` is the only refusal.
    pub fn read_on(&mut self, id: CallId) -> Result<Vec<Letter>, Refusal>
        ensures done { IfOk result (λ letters.
            IsOutcome self.old (read_on_events self.old id) self.new letters.items) }

        ensures refused { IfErr result (λ e. e ≡ NoMemory) }
    {
        let Some(index) = self.calls.index_of(id) else {
            return Ok(Vec::new(self.alloc));
        };
        let call = self.calls.at(index);
        if !is_reading(&self.places, call) {
            return Ok(Vec::new(self.alloc));
        }
        let position = call.phase().position();
        if position >= self.start {
            return Ok(Vec::new(self.alloc));
        }
        let letters = read_at(
            self.alloc,
            &self.places,
            &mut self.calls,
            index,
            2 * (self.start - position),
            self.start,
        )?;
        Ok(letters)
    }

    /// The start grows by one if the call with this id has raised its pointer to final at a quorum, the node has heard
    /// of the next position, and numbers of phases are left for calls that begin there.
    pub(crate) fn grow(&mut self, id: CallId)
        ensures { IsOutcomeWithAnswers self.old (grow_events self.old id) self.new [] [] }
    {
        if self.grows_by(id) {
            self.start += 1;
        }
    }

    // Whether the start grows by the call with this id.
    fn grows_by(&self, id: CallId) -> bool
        ensures { result ≡ grows_by self.now (open_call self.now.calls id) }
    {
        let Some(index) = self.calls.index_of(id) else {
            return false;
        };
        has_raised(self.calls.at(index), self.start) && self.can_grow()
    }

    // Whether the node has heard of the position after the start, and numbers of phases are left for calls that begin
    // there.
    fn can_grow(&self) -> bool
        ensures { result ≡ can_grow self.now }
    {
        match self.places.layout_of(u64::from(self.start) + 1) {
            Some(_) => is_below_limit(self.start + 1),
            None => false,
        }
    }
}

// Whether the numbers of the phases of a call that begins at this start have 32 bits.
pub(crate) fn is_below_limit(start: u32) -> bool
    ensures { result ≡ nat_lt start (2 ^ 31) }
{
    start < 1 << 31
}
