//! What is checked before a call begins the phase that is due, sends pieces or settles a value.

ghost use Rattle.std.specs.Prelude.{◌≡◌, ◌≤◌, ◌<◌, suc, pred, length, true, Some, IfOk, IfErr};
ghost use Rattle.tag.specs.Refusal.{IsExactlyByCause};
ghost use Rattle.tag.specs.declared.limits.TheConstants.{MOST_STEPS};
ghost use Rattle.decoder.specs.Decoded.{IsDecoded};
ghost use Rattle.record.specs.Legal.{due_of};
ghost use Rattle.record.specs.Records.{Call as Asked, layout_at};
ghost use Rattle.record.specs.Sending.{sent_value, value_or_empty};
ghost use Rattle.record.specs.Wants.{want_of};
ghost use Rattle.register.specs.Coding.{is_coded_for, pieces_due};
ghost use Rattle.register.specs.Causes.{call_at, due_cause, settle_cause, supply_cause, wants_due};

use crate::pieces::{is_coded_for, is_decoded_from};
use crate::register::Register;
use crate::register::coding::pieces_position;
use crate::register::phases::{index_of, want_of, wants_due};
use bank::Kind;
use call::{begun_at, due};
use decoder::Decoded;
use encoder::Coded;
use record::Want;
use tag::{CallId, MOST_STEPS, Refusal, Stamp};

impl Register {
    // The index of the call of this number, with the kind and the position of the phase that is due, if the call wants
    // to begin it at step `now`: as an advance, or if `anew` as a restart.
    pub(super) fn due_phase(
        &self,
        call: CallId,
        anew: bool,
        now: Stamp,
    ) -> Result<(usize, Kind, u32), Refusal>
        ensures place { IfOk result (λ r. (suc r.0 ≡ call) × (r.0 < length self.now.object.calls)) }
        ensures wants { IfOk result (λ r. (asked : Asked) → call_at self.now.object call ≡ Some asked
            → wants_due anew (want_of self.now.object (pred call) asked) ≡ true) }

        ensures due { IfOk result (λ r. (asked : Asked) → call_at self.now.object call ≡ Some asked
            → due_of self.now.object (pred call) asked ≡ Some (r.1, r.2)) }

        ensures within { IfOk result (λ r. now ≤ MOST_STEPS) }
        ensures cause { IfErr result (λ e. due_cause anew now self.now.object call ≡ Some e) }
    {
        let index = index_of(&self.calls, call)?;
        let tracked = &self.calls[index];
        let Some((kind, position)) = due(begun_at(tracked.stage(), self.base)) else {
            return Err(Refusal::NotNow);
        };
        if !wants_due(anew, want_of(&self.positions, tracked)) {
            return Err(Refusal::NotNow);
        }
        if now > MOST_STEPS {
            return Err(Refusal::Full);
        }
        Ok((index, kind, position))
    }

    // The index of the call of this number, with the position that gets the pieces of its value, if this is its encoded
    // value and it may send them at step `now`.
    pub(super) fn supplied_call(
        &self,
        call: CallId,
        coded: &Coded,
        now: Stamp,
    ) -> Result<(usize, u32), Refusal>
        ensures place { IfOk result (λ r. (suc r.0 ≡ call) × (r.0 < length self.now.object.calls)) }
        ensures sends { IfOk result (λ r. (asked : Asked) → call_at self.now.object call ≡ Some asked
            → (pieces_due self.now.object (pred call) asked ≡ Some r.1)
            × (is_coded_for (layout_at self.now.object r.1) (value_or_empty (sent_value asked.kind asked.settled))
            coded.now ≡ true)) }

        ensures within { IfOk result (λ r. now ≤ MOST_STEPS) }
        ensures cause { IfErr result (λ e. supply_cause now self.now.object call coded.now ≡ Some e) }
    {
        let index = index_of(&self.calls, call)?;
        let tracked = &self.calls[index];
        let Some(value) = tracked.value() else {
            return Err(Refusal::NotNow);
        };
        let Some(position) = pieces_position(&self.positions, tracked) else {
            return Err(Refusal::NotNow);
        };
        let layout = self.positions[position as usize].layout();
        if !is_coded_for(layout, value, coded) {
            return Err(Refusal::WrongCode);
        }
        if now > MOST_STEPS {
            return Err(Refusal::Full);
        }
        Ok((index, position))
    }

    // The index of the call of this number, if it may settle this value at step `now`.
    pub(super) fn settling_call(
        &self,
        call: CallId,
        decoded: &Decoded,
        now: Stamp,
    ) -> Result<usize, Refusal>
        ensures place { IfOk result (λ index. (suc index ≡ call) × (index < length self.now.object.calls)) }
        ensures decoded { IfOk result (λ index. IsDecoded decoded.now) }
        ensures cause { IsExactlyByCause (settle_cause now self.now.object call decoded.now) result }
    {
        let index = index_of(&self.calls, call)?;
        let k = match want_of(&self.positions, &self.calls[index]) {
            Want::Settle { k, len: _ } => k,
            Want::Again => return Err(Refusal::Collected),
            _ => return Err(Refusal::NotNow),
        };
        let phase = self.calls[index].current();
        if !is_decoded_from(k, phase.replies(), decoded) {
            return Err(Refusal::WrongCode);
        }
        if now > MOST_STEPS {
            return Err(Refusal::Full);
        }
        Ok(index)
    }
}
