//! What a caller can ask of a cluster and of its calls before it makes a step.

ghost use Rattle.std.specs.Prelude.{◌≡◌, ℕ, nat_le, option_map, Some, None, IfOk, MatchOption};
ghost use Rattle.tag.specs.Refusal.{IsByCause, IsExactlyByCause};
ghost use Rattle.tag.specs.declared.limits.TheConstants.{LONGEST_VALUE};
ghost use Rattle.tag.specs.declared.refusal.Refusal.TheVariants.{TooLong};
ghost use Rattle.record.specs.Journals.{entry_of};
ghost use Rattle.register.specs.Causes.{unless, call_at, number_cause, read_cause, supplying_cause};
ghost use Rattle.cluster.specs.Cluster.{named, place_of};
ghost use Rattle.cluster.specs.Places.{IsObjectAt, if_placed, placed_cause};
ghost use Rattle.cluster.specs.Causes.{moving_cause, next, object_cause};
ghost use Rattle.cluster.specs.Kept.{IsKeptCluster};

use crate::cluster::{Cluster, LayoutId};
use record::Entry;
use tag::{CallId, LONGEST_VALUE, Refusal};

impl Cluster {
    /// A law: the limits hold, no two objects have the same name, and each member of a layout is a server. It changes
    /// nothing and allocates no memory.
    pub fn invariant(&self)
        ensures { (bytes : ℕ) × ((count : ℕ) × IsKeptCluster self.now bytes count) }
    {
        // Reading a field gives the prover the invariant of the type.
        let _ = &self.layouts;
    }

    /// Returns the index of an object in the order of creation, from 0. It allocates no memory.
    ///
    /// Is refused with `NoObject` if no object has this name.
    pub fn place(&self, name: &str) -> Result<u32, Refusal>
        ensures place { IfOk result (λ p. p ≡ place_of self.now.objects name.now) }
        ensures placed { IfOk result (λ p. IsObjectAt self.now name.now p) }
        ensures cause { IsExactlyByCause (object_cause self.now name.now (λ object. None)) result }
    {
        match self.find(name) {
            Some(object) => Ok(object),
            None => Err(Refusal::NoObject),
        }
    }

    // The index of the object of this name, if there is one.
    pub(crate) fn find(&self, name: &str) -> Option<u32>
        ensures { MatchOption result (named self.now.objects name.now ≡ None)
            (λ object. IsObjectAt self.now name.now object) }
    {
        match self.objects.get_index_of(name) {
            Some(place) => Some(place as u32),
            None => None,
        }
    }

    /// Returns the entry of the call of this number of an object, which is named by its index in the order of creation.
    ///
    /// Is refused with `NoObject` if there is no object of this index, and with `NoCall` if it has no call of this
    /// number.
    pub fn entry(&self, object: u32, call: CallId) -> Result<Entry, Refusal>
        ensures entry { IfOk result
            (λ e. if_placed self.now object (λ o. option_map (entry_of call) (call_at o call)) ≡ Some e) }
        ensures cause { IsByCause (placed_cause self.now object (λ o. number_cause o call)) result }
    {
        match self.objects.get_index(object as usize) {
            Some((_, register)) => register.entry(call),
            None => Err(Refusal::NoObject),
        }
    }

    /// Returns whether a read may begin, or a write of `len` bytes. It is no step and allocates no memory.
    ///
    /// Is refused with `NoObject` if no object has this name, with `TooLong` if `len` is above `LONGEST_VALUE`, and
    /// with `Full` as for `call_read`.
    pub fn may_call(&self, name: &str, len: usize) -> Result<(), Refusal>
        ensures cause { IsExactlyByCause (object_cause self.now name.now (λ object.
            unless (nat_le len LONGEST_VALUE) TooLong (read_cause (next self.now) object))) result }
    {
        let Some(object) = self.find(name) else {
            return Err(Refusal::NoObject);
        };
        let register = self.register_at(name, object);
        if len > LONGEST_VALUE {
            return Err(Refusal::TooLong);
        }
        register.may_call(self.counter + 1)
    }

    /// Returns whether a move to a layout may begin. It is no step and allocates no memory.
    ///
    /// Is refused with `NoObject`, `MovePending`, `BadLayout` and `Full` as for `call_move`.
    pub fn may_move(&self, name: &str, id: LayoutId) -> Result<(), Refusal>
        ensures cause { IsExactlyByCause (object_cause self.now name.now (moving_cause self.now id)) result }
    {
        let Some(object) = self.find(name) else {
            return Err(Refusal::NoObject);
        };
        let register = self.register_at(name, object);
        if register.is_moving() {
            return Err(Refusal::MovePending);
        }
        if id as usize >= self.layouts.len() {
            return Err(Refusal::BadLayout);
        }
        register.may_move(self.counter + 1)
    }

    /// Returns whether a call may be supplied with its own value, so that the value need not be encoded in vain. It is
    /// no step and allocates no memory.
    ///
    /// Is refused with `NoObject`, `NoCall` and `NotNow` as for `value_to_code`, and with `Full` as for `supply`.
    pub fn may_supply(&self, name: &str, call: CallId) -> Result<(), Refusal>
        ensures cause { IsExactlyByCause
            (object_cause self.now name.now (λ object. supplying_cause (next self.now) object call)) result }
    {
        match self.find(name) {
            Some(object) => self.may_supply_at(name, object, call),
            None => Err(Refusal::NoObject),
        }
    }
}
