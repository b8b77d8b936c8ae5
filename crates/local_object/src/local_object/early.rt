//! Calls that end early, by what members told them with their replies.

ghost use Rattle.std.specs.Prelude.{◌≡◌, ℕ, List, Option, IfOk, IfErr, OnOk, MatchOption, option_to_list};
ghost use Rattle.tag.specs.declared.refusal.Refusal.TheVariants.{NoMemory};
ghost use Rattle.record.specs.Journals.{operation_of};
ghost use Rattle.open_calls.specs.OpenCalls.{open_call};
ghost use Rattle.local_object.specs.Ended.{early_value_of, told_early_if};
ghost use Rattle.local_object.specs.EarlyEnds.{CanEndEarly, EndedIf};
ghost use Rattle.local_object.specs.Events.{ended_here};

use crate::calls::is_read;
use crate::early::early_value;
use crate::{Ended, LocalObject};
use bytes::Bytes;
use call::Call;
use tag::{CallId, Refusal};

impl LocalObject {
    /// The call with this id ends early, if it can. Returns what its client is told then.
    ///
    /// `NoMemory` is the only refusal.
    pub(crate) fn end_early(&mut self, id: CallId) -> Result<Option<Ended>, Refusal>
        ensures done { IfOk result (λ ended. EndedIf self.old id self.new ended) }
        ensures refused { IfErr result (λ e. e ≡ NoMemory) }
    {
        match self.early(id)? {
            Some(returned) => {
                let ended = self.end(id, returned)?;
                Ok(ended)
            }
            None => Ok(None),
        }
    }

    // What the call with this id returns, if it ends early.
    fn early(&self, id: CallId) -> Result<Option<Option<Bytes>>, Refusal>
        ensures value { IfOk result (λ value. MatchOption value
            ((r : Option (List ℕ)) → CanEndEarly self.now id r → ⊥) (CanEndEarly self.now id)) }

        ensures refused { IfErr result (λ e. e ≡ NoMemory) }
    {
        let Some(index) = self.calls.index_of(id) else {
            return Ok(None);
        };
        let call = self.calls.at(index);
        let Some(layout) = self.places.layout_of(u64::from(call.phase().position())) else {
            return Ok(None);
        };
        early_value(self.alloc, &self.places, call, layout, self.reports.all())
    }

    // The call with this id ends, if it is open here, and what it was told is dropped. Returns what its client is told.
    fn end(&mut self, id: CallId, returned: Option<Bytes>) -> Result<Option<Ended>, Refusal>
        ensures local { OnOk result (self.new ≡ ended_here self.old id) }
        ensures told { IfOk result (λ ended.
            option_to_list ended ≡ told_early_if (open_call self.old.calls id) returned) }

        ensures refused { IfErr result (λ e. e ≡ NoMemory) }
    {
        self.reports.forget(id);
        let Some(index) = self.calls.index_of(id) else {
            return Ok(None);
        };
        let call = self.calls.remove(index);
        Ok(Some(ended_early(&call, returned)?))
    }
}

// What the client of a call is told that ends early and returns this.
fn ended_early(call: &Call, returned: Option<Bytes>) -> Result<Ended, Refusal>
    ensures told { IfOk result (λ ended. ended ≡ record {
      id = call.now.id;
      kind = operation_of call.now.kind;
      value = early_value_of call.now.kind returned;
    }) }

    ensures refused { IfErr result (λ e. e ≡ NoMemory) }
{
    Ok(Ended {
        id: call.id(),
        kind: call.operation(),
        value: value_at_end(call, returned)?,
    })
}

// The value that the client of a call is told that ends early and returns this: a read returns it, and a write has its
// own. `NoMemory` is the only refusal.
fn value_at_end(call: &Call, returned: Option<Bytes>) -> Result<Option<Bytes>, Refusal>
    ensures value { IfOk result (λ value. value ≡ early_value_of call.now.kind returned) }
    ensures refused { IfErr result (λ e. e ≡ NoMemory) }
{
    if is_read(call) {
        Ok(returned)
    } else {
        call.returned(true)
    }
}
