//! Read access to a call.

ghost use Rattle.std.specs.Prelude.{◌≡◌, ℕ, Option, is_some, length, option_copied, slice_get, Some, IfOk};
ghost use Rattle.std.specs.Prelude.{IfErr};
ghost use Rattle.tag.specs.declared.refusal.Refusal.TheVariants.{NoMemory};
ghost use Rattle.record.specs.Journals.{operation_of, entry_of, entry_value};
ghost use Rattle.record.specs.Sending.{sent_value};
ghost use Rattle.record.specs.Wants.{current_phase};

use crate::tracked_call::TrackedCall;
use bytes::Bytes;
use mail::Phase;
use record::{Entry, Operation, Stage};
use tag::{Refusal, Stamp};

impl TrackedCall {
    /// Returns the kind of the call, without its value.
    pub(crate) fn operation(&self) -> Operation
        ensures { result ≡ operation_of self.now.call.kind }
    {
        self.call.operation()
    }

    /// Returns the number of the step that began the call.
    pub(crate) fn called(&self) -> Stamp
        ensures { result ≡ self.now.call.called }
    {
        self.called
    }

    /// Returns whether the call is answered.
    pub(crate) fn is_answered(&self) -> bool
        ensures { result ≡ is_some self.now.call.answered }
    {
        self.answered.is_some()
    }

    /// Returns whether the call has settled a value.
    pub(crate) fn is_settled(&self) -> bool
        ensures { result ≡ is_some self.now.call.settled }
    {
        self.call.is_settled()
    }

    /// Returns how many phases the call has.
    pub(crate) fn count(&self) -> usize
        ensures { result ≡ length self.now.call.phases }
    {
        self.finished.len() + 1
    }

    /// Returns the phase at an index, from 0, if there is one.
    pub(crate) fn phase_at(&self, index: usize) -> Option<&Phase>
        ensures { option_copied result ≡ slice_get self.now.call.phases index }
    {
        if index == self.finished.len() {
            return Some(self.call.phase());
        }
        self.finished.get(index)
    }

    /// Returns the value that the call writes, or has settled so far.
    pub(crate) fn value(&self) -> Option<&Bytes>
        ensures { option_copied result ≡ sent_value self.now.call.kind self.now.call.settled }
    {
        self.call.value()
    }

    /// Returns a copy of the value that the call writes, or that a read returns once it is answered. The copy shares
    /// its bytes.
    pub(crate) fn returned(&self, is_answered: bool) -> Result<Option<Bytes>, Refusal>
        ensures value { (answered : Option ℕ) → is_answered ≡ is_some answered
            → IfOk result (λ v. v ≡ entry_value self.now.call.kind answered self.now.call.settled) }

        ensures refused { IfErr result (λ e. e ≡ NoMemory) }
    {
        self.call.returned(is_answered)
    }

    /// Returns the entry of the call in the object's history.
    pub(crate) fn entry(&self) -> Result<Entry, Refusal>
        ensures entry { IfOk result (λ e. e ≡ entry_of self.now.call.id self.now.call) }
        ensures refused { IfErr result (λ e. e ≡ NoMemory) }
    {
        let value = self.returned(self.answered.is_some())?;
        Ok(Entry {
            call: self.call.id(),
            kind: self.operation(),
            called: self.called,
            answered: self.answered,
            value,
        })
    }

    /// Returns the current phase: the one that began last.
    pub(crate) fn current(&self) -> &Phase
        ensures { Some result.now ≡ current_phase self.now.call.phases }
    {
        self.call.phase()
    }

    /// Returns the stage to which the phases lead.
    pub(crate) fn stage(&self) -> Stage
        ensures { result ≡ self.now.stage }
    {
        self.stage
    }
}
