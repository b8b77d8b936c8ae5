//! Read access to a call.

ghost use Rattle.std.specs.Prelude.{◌≡◌, ℕ, Option, is_some, option_copied, IfOk, IfErr};
ghost use Rattle.tag.specs.declared.refusal.Refusal.TheVariants.{NoMemory};
ghost use Rattle.record.specs.Journals.{operation_of, entry_value};
ghost use Rattle.record.specs.Sending.{sent_value};
ghost use Rattle.call.specs.Call.{IsCall};

use crate::call::Call;
use bytes::Bytes;
use mail::{Ask, Phase};
use record::{CallKind, Operation, Stage};
use tag::{CallId, Refusal};

impl Call {
    /// Returns the id of the call, which no other call of its object has.
    pub fn id(&self) -> CallId
        ensures { result ≡ self.now.id }
    {
        self.id
    }

    /// Returns the kind of the call, without its value.
    pub fn operation(&self) -> Operation
        ensures { result ≡ operation_of self.now.kind }
    {
        match &self.kind {
            CallKind::Read => Operation::Read,
            CallKind::Write(_) => Operation::Write,
            CallKind::Move => Operation::Move,
        }
    }

    /// Returns the current phase.
    pub fn phase(&self) -> &Phase
        ensures value { result.now ≡ self.now.phase }
        ensures lawful { IsCall self.now }
    {
        &self.phase
    }

    /// Returns what the current phase asks, as `requests` and `request_to` need it.
    pub fn ask(&self) -> Ask
        ensures { result ≡ record {
          call = self.now.id;
          number = self.now.phase.number;
          position = self.now.phase.position;
          kind = self.now.phase.kind;
        } }
    {
        Ask {
            call: self.id,
            number: self.phase.number(),
            position: self.phase.position(),
            kind: self.phase.kind(),
        }
    }

    /// Returns the stage at which the current phase began.
    pub fn stage(&self) -> Stage
        ensures { result ≡ self.now.stage }
    {
        self.stage
    }

    /// Returns whether the call has settled a value.
    pub fn is_settled(&self) -> bool
        ensures { result ≡ is_some self.now.settled }
    {
        self.settled.is_some()
    }

    /// Returns the value that the call writes, or has settled so far.
    pub fn value(&self) -> Option<&Bytes>
        ensures { option_copied result ≡ sent_value self.now.kind self.now.settled }
    {
        match &self.kind {
            CallKind::Write(value) => Some(value),
            CallKind::Read | CallKind::Move => self.settled.as_ref(),
        }
    }

    /// Returns a copy of the value that the call writes, or that a read returns once it is answered. The copy shares
    /// its bytes.
    ///
    /// `NoMemory` is the only refusal.
    pub fn returned(&self, is_answered: bool) -> Result<Option<Bytes>, Refusal>
        ensures value { (answered : Option ℕ) → is_answered ≡ is_some answered
            → IfOk result (λ v. v ≡ entry_value self.now.kind answered self.now.settled) }

        ensures refused { IfErr result (λ e. e ≡ NoMemory) }
    {
        match &self.kind {
            CallKind::Write(value) => Ok(Some(value.clone()?)),
            CallKind::Read => {
                if !is_answered {
                    return Ok(None);
                }
                match &self.settled {
                    Some(value) => Ok(Some(value.clone()?)),
                    None => Ok(None),
                }
            }
            CallKind::Move => Ok(None),
        }
    }
}
