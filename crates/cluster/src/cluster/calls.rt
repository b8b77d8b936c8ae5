//! How calls begin and end.

ghost use Rattle.std.specs.Prelude.{◌≡◌, suc, pred, length, Some, IfOk, OnOk, OnErr};
ghost use Rattle.tag.specs.Refusal.{IsByCause};
ghost use Rattle.record.specs.Steps.{Step};
ghost use Rattle.register.specs.Causes.{read_cause, write_cause, answer_cause};
ghost use Rattle.register.specs.View.{receipt_at};
ghost use Rattle.cluster.specs.Cluster.{next_call_id, if_named, layout_numbered, place_of};
ghost use Rattle.cluster.specs.Preconditions.{MayMake};
ghost use Rattle.cluster.specs.Steps.{with_step, moved};
ghost use Rattle.cluster.specs.Causes.{next, object_cause, moving_cause};

use crate::cluster::{Cluster, LayoutId};
use bytes::Bytes;
use register::{Act, Receipt};
use tag::{CallId, Refusal};

impl Cluster {
    /// Begins a read of an object: its first phase sends a request Next to each of the n members of the object's base.
    /// Returns the call's number.
    ///
    /// Is refused with `NoObject` if no object has this name. It is refused with `Full` if the counter is at
    /// `MOST_STEPS`, the object has `MOST_CALLS` calls, or the n requests would make more than `MOST_MESSAGES` waiting
    /// messages of the object.
    pub fn call_read(&mut self, name: &str) -> Result<CallId, Refusal>
        ensures step { OnOk result (self.new
            ≡ with_step self.old name.entry.now (Step.CallRead (next_call_id self.old name.entry.now))) }
        ensures may { OnOk result
            (MayMake self.old name.entry.now (Step.CallRead (next_call_id self.old name.entry.now))) }
        ensures number { IfOk result
            (λ n. if_named self.old name.entry.now (λ object. Some (suc (length object.calls))) ≡ Some n) }
        ensures cause { IsByCause
            (object_cause self.old name.entry.now (λ object. read_cause (next self.old) object)) result }
        ensures unchanged { OnErr result (self.new ≡ self.old) }
    {
        self.begin(name, Act::CallRead)
    }

    /// Begins a write of a value to an object: its first phase sends a request Next to each of the n members of the
    /// object's base. Returns the call's number.
    ///
    /// Is refused with `NoObject` if no object has this name, with `TooLong` if the value is longer than
    /// `LONGEST_VALUE` bytes, and with `Full` as for `call_read`.
    pub fn call_write(&mut self, name: &str, value: Bytes) -> Result<CallId, Refusal>
        ensures step { OnOk result (self.new
            ≡ with_step self.old name.entry.now (Step.CallWrite (next_call_id self.old name.entry.now) value)) }
        ensures may { OnOk result
            (MayMake self.old name.entry.now (Step.CallWrite (next_call_id self.old name.entry.now) value)) }
        ensures number { IfOk result
            (λ n. if_named self.old name.entry.now (λ object. Some (suc (length object.calls))) ≡ Some n) }
        ensures cause { IsByCause
            (object_cause self.old name.entry.now (λ object. write_cause value (next self.old) object)) result }
        ensures unchanged { OnErr result (self.new ≡ self.old) }
    {
        self.begin(name, Act::CallWrite(value))
    }

    /// Begins a move of an object to a layout. The object's next position exists from this step on, with a bank for
    /// each member of the layout. The first phase spreads Pending: it sends a request to each member of the position
    /// that was the last one so far. Returns the call's number.
    ///
    /// Is refused with `NoObject` if no object has this name, with `MovePending` if an earlier move of the object is
    /// not answered, and with `BadLayout` if there is no layout of this number. It is refused with `Full` if the
    /// counter is at `MOST_STEPS`, the object has `MOST_POSITIONS` positions or `MOST_CALLS` calls, or the requests
    /// would make more than `MOST_MESSAGES` waiting messages of the object.
    pub fn call_move(&mut self, name: &str, id: LayoutId) -> Result<CallId, Refusal>
        ensures step { OnOk result (self.new ≡ moved self.old name.entry.now id) }
        ensures may { OnOk result (MayMake self.old name.entry.now
            (Step.CallMove (next_call_id self.old name.entry.now) (layout_numbered self.old id))) }
        ensures number { IfOk result
            (λ n. if_named self.old name.entry.now (λ object. Some (suc (length object.calls))) ≡ Some n) }
        ensures cause { IsByCause (object_cause self.old name.entry.now (moving_cause self.old id)) result }
        ensures unchanged { OnErr result (self.new ≡ self.old) }
    {
        self.may_move(name, id)?;
        let layout = self.layouts[id as usize].clone()?;
        self.begin(name, Act::CallMove(layout))
    }

    /// Answers the call of this number. The receipt names the object by its place in the order of creation.
    ///
    /// Is refused with `NoObject` if no object has this name, with `NoCall` if it has no call of this number, with
    /// `NotNow` unless the call wants to be answered, and with `Full` if the counter is at `MOST_STEPS`.
    pub fn answer(&mut self, name: &str, call: CallId) -> Result<Receipt, Refusal>
        ensures step { OnOk result (self.new ≡ with_step self.old name.entry.now (Step.AnswerCall (pred call))) }
        ensures may { OnOk result (MayMake self.old name.entry.now (Step.AnswerCall (pred call))) }
        ensures receipt { IfOk result (λ r. if_named self.old name.entry.now (λ object.
            receipt_at object (place_of self.old.objects name.entry.now) call (next self.old)) ≡ Some r) }

        ensures cause { IsByCause
            (object_cause self.old name.entry.now (λ object. answer_cause (next self.old) object call)) result }
        ensures unchanged { OnErr result (self.new ≡ self.old) }
    {
        let Some(object) = self.find(name) else {
            return Err(Refusal::NoObject);
        };
        self.answer_at(name, object, call)
    }
}
