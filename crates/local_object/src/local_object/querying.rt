//! Calls whose first reading stands for their query.

ghost use Rattle.std.specs.Prelude.{◌≡◌, [], IfErr, OnOk};
ghost use Rattle.tag.specs.declared.refusal.Refusal.TheVariants.{NoMemory};
ghost use Rattle.local_object.specs.Querying.{query_events};
ghost use Rattle.local_object.specs.Taking.{IsOutcomeWithAnswers};

use crate::LocalObject;
use crate::querying::stands_for_query;
use tag::{CallId, Refusal};

impl LocalObject {
    /// The first reading of the call with this id stands for the query that it is to make next, if it can: it asked for
    /// the pointers of the first position that counts, all that it took are unset, and as many members as are a quorum
    /// told it with their replies that theirs are unset, and their greatest finalized tags. The call then is as after a
    /// query that these members answered with these tags. No request is sent.
    ///
    /// It does so only if there is a number in 32 bits for the query's phase. `NoMemory` is the only refusal.
    pub(crate) fn query(&mut self, id: CallId) -> Result<(), Refusal>
        ensures done { OnOk result (IsOutcomeWithAnswers self.old (query_events self.old id) self.new [] []) }
        ensures refused { IfErr result (λ e. e ≡ NoMemory) }
    {
        let Some(index) = self.calls.index_of(id) else {
            return Ok(());
        };
        let call = self.calls.at(index);
        let Some(layout) = self.places.layout_of(u64::from(call.phase().position())) else {
            return Ok(());
        };
        if !stands_for_query(call, layout, self.reports.all()) {
            return Ok(());
        }
        self.calls.query(index, layout, self.reports.all())
    }
}
