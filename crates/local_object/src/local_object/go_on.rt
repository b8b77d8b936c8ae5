//! How a call goes on once its phase is complete.

ghost use Rattle.std.specs.Prelude.{◌≡◌, ℕ, List, IfOk, IfErr, MatchOption, OnOk, option_to_list};
ghost use Rattle.tag.specs.declared.refusal.Refusal.TheVariants.{NoMemory};
ghost use Rattle.local_object.specs.Going.{settled_here};
ghost use Rattle.local_object.specs.Taking.{CanSettle, IsOutcomeWithAnswers, SettlesFetched, lead_events};

use crate::going::{advance, ended, fetched, next_here, next_if};
use crate::reading::begin_anew;
use crate::{LocalObject, Progress};
use bytes::Bytes;
use call::Next;
use tag::{CallId, Refusal};

impl LocalObject {
    /// If the call with this id is to settle the value that it fetched, and the pieces decode, it settles the value.
    ///
    /// `NoMemory` is the only refusal.
    pub(crate) fn settle(&mut self, id: CallId) -> Result<(), Refusal>
        ensures done { OnOk result (SettlesFetched self.old id self.new) }
        ensures refused { IfErr result (λ e. e ≡ NoMemory) }
    {
        let Some(value) = self.fetched(id)? else {
            return Ok(());
        };
        self.put_value(id, value);
        Ok(())
    }

    // The value that the call with this id is to settle, if it is to settle one, and the pieces decode.
    fn fetched(&self, id: CallId) -> Result<Option<Bytes>, Refusal>
        ensures value { IfOk result (λ value. MatchOption value
            ((v : List ℕ) → CanSettle self.now id v → ⊥) (CanSettle self.now id)) }

        ensures refused { IfErr result (λ e. e ≡ NoMemory) }
    {
        let Some(index) = self.calls.index_of(id) else {
            return Ok(None);
        };
        let call = self.calls.at(index);
        let Next::Settle = next_here(call) else {
            return Ok(None);
        };
        fetched(self.alloc, &self.places, call)
    }

    // The call with this id settles a value, if it is open here.
    fn put_value(&mut self, id: CallId, value: Bytes)
        ensures { self.new ≡ (settled_here self.old id value).local }
    {
        match self.calls.index_of(id) {
            Some(index) => self.calls.settle(index, value),
            None => (),
        }
    }

    /// The call with this id begins the phase that is due, or is answered if none is due. It waits if it cannot go on,
    /// and also if its complete fetch lacks pieces, unless `again` says that it is to begin anew.
    ///
    /// `NoMemory` is the only refusal.
    pub(crate) fn lead(&mut self, id: CallId, again: bool) -> Result<Progress, Refusal>
        ensures done { IfOk result (λ progress. IsOutcomeWithAnswers self.old (lead_events again self.old id) self.new
            progress.letters.items (option_to_list progress.ended)) }

        ensures refused { IfErr result (λ e. e ≡ NoMemory) }
    {
        let Some(index) = self.calls.index_of(id) else {
            return Ok(Progress::none(self.alloc));
        };
        match next_if(self.calls.at(index), again) {
            Next::Wait | Next::Settle => Ok(Progress::none(self.alloc)),
            Next::Restart(kind, position) => {
                let letters = begin_anew(
                    self.alloc,
                    &self.places,
                    &mut self.calls,
                    index,
                    self.start,
                    (kind, position),
                )?;
                Ok(Progress::sent(letters))
            }
            Next::Begin(kind, position) => {
                let letters = advance(
                    self.alloc,
                    &self.places,
                    self.start,
                    &mut self.calls,
                    index,
                    kind,
                    position,
                )?;
                Ok(Progress::sent(letters))
            }
            Next::Answer => {
                let call = self.calls.remove(index);
                self.reports.forget(id);
                Ok(Progress::answered(self.alloc, ended(&call)?))
            }
        }
    }
}
