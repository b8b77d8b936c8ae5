//! What calls want next, and the steps that continue them.

ghost use Rattle.std.specs.Prelude.{◌≡◌, pred, Some, IfOk, OnOk, OnErr};
ghost use Rattle.tag.specs.Refusal.{IsByCause, IsExactlyByCause};
ghost use Rattle.record.specs.Steps.{Step};
ghost use Rattle.register.specs.Causes.{number_cause, advance_cause, again_cause, post_cause, value_cause};
ghost use Rattle.register.specs.Causes.{supply_cause, pieces_cause, settle_cause};
ghost use Rattle.register.specs.View.{want_at, coding_at, fetched_pieces};
ghost use Rattle.cluster.specs.Cluster.{if_named};
ghost use Rattle.cluster.specs.Preconditions.{MayMake};
ghost use Rattle.cluster.specs.Steps.{with_step};
ghost use Rattle.cluster.specs.Causes.{next, object_cause};

use crate::cluster::Cluster;
use bytes::Bytes;
use decoder::Decoded;
use encoder::Coded;
use piece::Piece;
use record::Want;
use register::Act;
use tag::{CallId, Refusal};

impl Cluster {
    /// Returns what the call of this number wants next: `Done` if it is answered. It is no step and allocates no
    /// memory.
    ///
    /// Is refused with `NoObject` if no object has this name, and with `NoCall` if it has no call of this number.
    pub fn want(&self, name: &str, call: CallId) -> Result<Want, Refusal>
        ensures want { IfOk result (λ w. if_named self.now name.now (λ object. want_at object call) ≡ Some w) }
        ensures cause { IsExactlyByCause (object_cause self.now name.now (λ object. number_cause object call)) result }
    {
        match self.find(name) {
            Some(object) => self.want_at(name, object, call),
            None => Err(Refusal::NoObject),
        }
    }

    /// The call of this number begins the phase that is due, if that phase sends no pieces: a request goes to each of
    /// the n members of its position.
    ///
    /// Is refused with `NoObject` if no object has this name, with `NoCall` if it has no call of this number, and with
    /// `NotNow` unless the call wants to advance. It is refused with `Full` if the counter is at `MOST_STEPS`, the call
    /// has `MOST_PHASES` phases, or the requests would make more than `MOST_MESSAGES` waiting messages of the object.
    pub fn advance(&mut self, name: &str, call: CallId) -> Result<(), Refusal>
        ensures step { OnOk result (self.new ≡ with_step self.old name.entry.now (Step.Advance (pred call))) }
        ensures may { OnOk result (MayMake self.old name.entry.now (Step.Advance (pred call))) }
        ensures cause { IsByCause
            (object_cause self.old name.entry.now (λ object. advance_cause (next self.old) object call)) result }
        ensures unchanged { OnErr result (self.new ≡ self.old) }
    {
        self.make(name, Act::Advance(call))
    }

    /// Restarts the call of this number, whose fetch lacks pieces. A read restarts with a first reading, which begins
    /// at the object's base, and a move restarts with its query. The numbers of the call's phases continue.
    ///
    /// Is refused with `NoObject` if no object has this name, with `NoCall` if it has no call of this number, with
    /// `NotNow` unless the call wants to be restarted, and with `Full` as for `advance`.
    pub fn again(&mut self, name: &str, call: CallId) -> Result<(), Refusal>
        ensures step { OnOk result (self.new ≡ with_step self.old name.entry.now (Step.Again (pred call))) }
        ensures may { OnOk result (MayMake self.old name.entry.now (Step.Again (pred call))) }
        ensures cause { IsByCause
            (object_cause self.old name.entry.now (λ object. again_cause (next self.old) object call)) result }
        ensures unchanged { OnErr result (self.new ≡ self.old) }
    {
        self.make(name, Act::Again(call))
    }

    /// Returns the value whose pieces the call of this number is to send, with the k and the n of the layout that gets
    /// them. The value is a copy that shares its bytes. Asking for it is no step.
    ///
    /// Is refused with `NoObject` if no object has this name, and with `NoCall` if it has no call of this number. It is
    /// refused with `NotNow` unless the phase that is due sends pieces, or the current phase sends them and has no
    /// quorum of replies yet.
    pub fn value_to_code(&self, name: &str, call: CallId) -> Result<(Bytes, u8, u8), Refusal>
        ensures value { IfOk result (λ r. if_named self.now name.now (λ object. coding_at object call) ≡ Some r) }
        ensures cause { IsByCause (object_cause self.now name.now (λ object. value_cause object call)) result }
    {
        match self.find(name) {
            Some(object) => self.value_to_code_at(name, object, call),
            None => Err(Refusal::NoObject),
        }
    }

    /// Hands in the encoded value of the call of this number. The phase that is due begins, and sends the n pieces. If
    /// that phase has begun already, its pieces are sent again to each member that has no recorded reply and no waiting
    /// message of the phase.
    ///
    /// Is refused with `NoObject`, `NoCall` and `NotNow` as for `value_to_code`, and with `WrongCode` unless `coded`
    /// has the value, the k and the n that `value_to_code` gives. It is refused with `Full` if the counter is at
    /// `MOST_STEPS`, the call has `MOST_PHASES` phases and would begin one more, or the requests would make more than
    /// `MOST_MESSAGES` waiting messages of the object.
    pub fn supply(&mut self, name: &str, call: CallId, coded: Coded) -> Result<(), Refusal>
        ensures step { OnOk result (self.new ≡ with_step self.old name.entry.now (Step.Supply (pred call))) }
        ensures may { OnOk result (MayMake self.old name.entry.now (Step.Supply (pred call))) }
        ensures cause { IsByCause
            (object_cause self.old name.entry.now (λ object. supply_cause (next self.old) object call coded)) result }
        ensures unchanged { OnErr result (self.new ≡ self.old) }
    {
        self.make(name, Act::Supply(call, coded))
    }

    /// Resends the requests of the current phase of the call of this number: one to each member that has no recorded
    /// reply and no waiting message of the phase. It is a step even if there is no such member.
    ///
    /// Is refused with `NoObject` if no object has this name, with `NoCall` if it has no call of this number, and with
    /// `NotNow` unless the current phase lacks a quorum and sends no pieces (see `supply`). It is refused with `Full`
    /// if the counter is at `MOST_STEPS` or the requests would make more than `MOST_MESSAGES` waiting messages of the
    /// object.
    pub fn post(&mut self, name: &str, call: CallId) -> Result<(), Refusal>
        ensures step { OnOk result (self.new ≡ with_step self.old name.entry.now (Step.Post (pred call))) }
        ensures may { OnOk result (MayMake self.old name.entry.now (Step.Post (pred call))) }
        ensures cause { IsByCause
            (object_cause self.old name.entry.now (λ object. post_cause (next self.old) object call)) result }
        ensures unchanged { OnErr result (self.new ≡ self.old) }
    {
        self.make(name, Act::Post(call))
    }

    /// Returns the pieces that the call of this number is to decode. Of the pieces that its current phase took, these
    /// are the k with the least points, in the order of their points. Asking for them is no step.
    ///
    /// Is refused with `NoObject` if no object has this name, with `NoCall` if it has no call of this number, with
    /// `NotNow` unless the call wants to settle a value, and with `Collected` if its fetch lacks pieces, so that it
    /// wants to be restarted.
    pub fn pieces(&self, name: &str, call: CallId) -> Result<Vec<Piece>, Refusal>
        ensures pieces { IfOk result
            (λ ps. if_named self.now name.now (λ object. Some (fetched_pieces object call)) ≡ Some ps.items) }
        ensures cause { IsByCause (object_cause self.now name.now (λ object. pieces_cause object call)) result }
    {
        match self.find(name) {
            Some(object) => self.pieces_at(name, object, call),
            None => Err(Refusal::NoObject),
        }
    }

    /// The call of this number settles the value that was decoded. It allocates no memory.
    ///
    /// Is refused with `NoObject` if no object has this name, with `NoCall` if it has no call of this number, with
    /// `NotNow` unless the call wants to settle a value, with `Collected` if its fetch lacks pieces, with `WrongCode`
    /// unless the value was decoded from k pieces that its current phase took, and with `Full` if the counter is at
    /// `MOST_STEPS`.
    pub fn settle(&mut self, name: &str, call: CallId, decoded: Decoded) -> Result<(), Refusal>
        ensures step { OnOk result
            (self.new ≡ with_step self.old name.entry.now (Step.Settle (pred call) decoded.value)) }
        ensures may { OnOk result (MayMake self.old name.entry.now (Step.Settle (pred call) decoded.value)) }
        ensures cause { IsExactlyByCause (object_cause self.old name.entry.now
            (λ object. settle_cause (next self.old) object call decoded)) result }
        ensures unchanged { OnErr result (self.new ≡ self.old) }
    {
        self.make(name, Act::Settle(call, decoded))
    }
}
