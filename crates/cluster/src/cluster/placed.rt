//! Steps of an object that the caller has looked up by `Cluster::place`, so that they look up nothing. They are for the
//! crates `driver` and `locked_steps`; other callers name the object alone.
//!
//! Each does what the method of the same name without `_at` does. `object` must be the index of the object of this
//! name, which stays the same in every step. The code uses the index, and the contract the name.

ghost use Rattle.std.specs.Prelude.{◌≡◌, pred, true, Some, None, IfOk, OnOk, OnErr};
ghost use Rattle.tag.specs.Refusal.{IsByCause, IsExactlyByCause};
ghost use Rattle.record.specs.Steps.{Step};
ghost use Rattle.register.specs.Causes.{number_cause, advance_cause, again_cause, answer_cause, post_cause};
ghost use Rattle.register.specs.Causes.{supply_cause, settle_cause, supplying_cause, value_cause, pieces_cause};
ghost use Rattle.register.specs.View.{receipt_at, want_at, coding_at, fetched_pieces};
ghost use Rattle.cluster.specs.Causes.{next, object_cause};
ghost use Rattle.cluster.specs.Cluster.{if_named, named, place_of};
ghost use Rattle.cluster.specs.Places.{IsObjectAt};
ghost use Rattle.cluster.specs.Preconditions.{MayMake};
ghost use Rattle.cluster.specs.Steps.{with_step};

use crate::cluster::Cluster;
use crate::cluster::mailing::{exchanged, waiting};
use bytes::Bytes;
use decoder::Decoded;
use encoder::Coded;
use piece::Piece;
use record::Want;
use register::{Act, Receipt, Register};
use tag::{CallId, Refusal};

impl Cluster {
    /// Returns the index of the object, as `place` returns it. A caller that knew the index in an earlier cluster gives
    /// it as `guess`: if the object of this index has this name, nothing is looked up.
    pub fn place_near(&self, name: &str, guess: u32) -> Result<u32, Refusal>
        ensures place { IfOk result (λ p. p ≡ place_of self.now.objects name.now) }
        ensures placed { IfOk result (λ p. IsObjectAt self.now name.now p) }
        ensures cause { IsExactlyByCause (object_cause self.now name.now (λ object. None)) result }
    {
        if self.is_named_at(name, guess) {
            return Ok(guess);
        }
        self.place(name)
    }

    // Whether the object at this index has this name.
    fn is_named_at(&self, name: &str, object: u32) -> bool
        ensures { result ≡ true → IsObjectAt self.now name.now object }
    {
        match self.objects.get_index(object as usize) {
            Some((key, _)) => name == key.as_str(),
            None => false,
        }
    }

    /// Returns the object, for reading. It allocates no memory.
    pub fn register_at(&self, _name: &str, object: u32) -> &Register
        requires { IsObjectAt self.now _name.now object }
        ensures { named self.now.objects _name.now ≡ Some result.now }
    {
        &self.objects[object as usize]
    }

    /// Returns what the call of this number wants next, as `want` does.
    pub fn want_at(&self, name: &str, object: u32, call: CallId) -> Result<Want, Refusal>
        requires { IsObjectAt self.now name.now object }
        ensures want { IfOk result (λ w. if_named self.now name.now (λ object. want_at object call) ≡ Some w) }
        ensures cause { IsExactlyByCause (object_cause self.now name.now (λ object. number_cause object call)) result }
    {
        self.register_at(name, object).want(call)
    }

    /// The call of this number begins the phase that is due, as by `advance`.
    pub fn advance_at(&mut self, name: &str, object: u32, call: CallId) -> Result<(), Refusal>
        requires { IsObjectAt self.old name.now object }
        ensures step { OnOk result (self.new ≡ with_step self.old name.entry.now (Step.Advance (pred call))) }
        ensures may { OnOk result (MayMake self.old name.entry.now (Step.Advance (pred call))) }
        ensures cause { IsByCause
            (object_cause self.old name.entry.now (λ object. advance_cause (next self.old) object call)) result }
        ensures unchanged { OnErr result (self.new ≡ self.old) }
    {
        self.make_at(name, object, Act::Advance(call))
    }

    /// Restarts the call of this number, as `again` does.
    pub fn again_at(&mut self, name: &str, object: u32, call: CallId) -> Result<(), Refusal>
        requires { IsObjectAt self.old name.now object }
        ensures step { OnOk result (self.new ≡ with_step self.old name.entry.now (Step.Again (pred call))) }
        ensures may { OnOk result (MayMake self.old name.entry.now (Step.Again (pred call))) }
        ensures cause { IsByCause
            (object_cause self.old name.entry.now (λ object. again_cause (next self.old) object call)) result }
        ensures unchanged { OnErr result (self.new ≡ self.old) }
    {
        self.make_at(name, object, Act::Again(call))
    }

    /// Returns whether the call of this number may be supplied with its own value, as `may_supply` does.
    pub fn may_supply_at(&self, name: &str, object: u32, call: CallId) -> Result<(), Refusal>
        requires { IsObjectAt self.now name.now object }
        ensures cause { IsExactlyByCause
            (object_cause self.now name.now (λ object. supplying_cause (next self.now) object call)) result }
    {
        self.register_at(name, object)
            .may_supply(call, self.counter + 1)
    }

    /// Returns the value whose pieces the call of this number is to send, with k and n, as `value_to_code` does.
    pub fn value_to_code_at(
        &self,
        name: &str,
        object: u32,
        call: CallId,
    ) -> Result<(Bytes, u8, u8), Refusal>
        requires { IsObjectAt self.now name.now object }
        ensures value { IfOk result (λ r. if_named self.now name.now (λ object. coding_at object call) ≡ Some r) }
        ensures cause { IsByCause (object_cause self.now name.now (λ object. value_cause object call)) result }
    {
        self.register_at(name, object).value_to_code(call)
    }

    /// Returns the pieces that the call of this number is to decode, as `pieces` does.
    pub fn pieces_at(&self, name: &str, object: u32, call: CallId) -> Result<Vec<Piece>, Refusal>
        requires { IsObjectAt self.now name.now object }
        ensures pieces { IfOk result
            (λ ps. if_named self.now name.now (λ object. Some (fetched_pieces object call)) ≡ Some ps.items) }
        ensures cause { IsByCause (object_cause self.now name.now (λ object. pieces_cause object call)) result }
    {
        self.register_at(name, object).pieces(call)
    }

    /// Hands in the encoded value of the call of this number, as `supply` does.
    pub fn supply_at(
        &mut self,
        name: &str,
        object: u32,
        call: CallId,
        coded: Coded,
    ) -> Result<(), Refusal>
        requires { IsObjectAt self.old name.now object }
        ensures step { OnOk result (self.new ≡ with_step self.old name.entry.now (Step.Supply (pred call))) }
        ensures may { OnOk result (MayMake self.old name.entry.now (Step.Supply (pred call))) }
        ensures cause { IsByCause
            (object_cause self.old name.entry.now (λ object. supply_cause (next self.old) object call coded)) result }
        ensures unchanged { OnErr result (self.new ≡ self.old) }
    {
        self.make_at(name, object, Act::Supply(call, coded))
    }

    /// Resends the requests of the current phase of the call of this number, as `post` does.
    pub fn post_at(&mut self, name: &str, object: u32, call: CallId) -> Result<(), Refusal>
        requires { IsObjectAt self.old name.now object }
        ensures step { OnOk result (self.new ≡ with_step self.old name.entry.now (Step.Post (pred call))) }
        ensures may { OnOk result (MayMake self.old name.entry.now (Step.Post (pred call))) }
        ensures cause { IsByCause
            (object_cause self.old name.entry.now (λ object. post_cause (next self.old) object call)) result }
        ensures unchanged { OnErr result (self.new ≡ self.old) }
    {
        self.make_at(name, object, Act::Post(call))
    }

    /// The call of this number settles the value that was decoded, as by `settle`.
    pub fn settle_at(
        &mut self,
        name: &str,
        object: u32,
        call: CallId,
        decoded: Decoded,
    ) -> Result<(), Refusal>
        requires { IsObjectAt self.old name.now object }
        ensures step { OnOk result
            (self.new ≡ with_step self.old name.entry.now (Step.Settle (pred call) decoded.value)) }
        ensures may { OnOk result (MayMake self.old name.entry.now (Step.Settle (pred call) decoded.value)) }
        ensures cause { IsExactlyByCause (object_cause self.old name.entry.now
            (λ object. settle_cause (next self.old) object call decoded)) result }
        ensures unchanged { OnErr result (self.new ≡ self.old) }
    {
        self.make_at(name, object, Act::Settle(call, decoded))
    }

    /// Answers the call of this number, as `answer` does.
    pub fn answer_at(&mut self, name: &str, object: u32, call: CallId) -> Result<Receipt, Refusal>
        requires { IsObjectAt self.old name.now object }
        ensures step { OnOk result (self.new ≡ with_step self.old name.entry.now (Step.AnswerCall (pred call))) }
        ensures may { OnOk result (MayMake self.old name.entry.now (Step.AnswerCall (pred call))) }
        ensures receipt { IfOk result (λ r. if_named self.old name.entry.now (λ object.
            receipt_at object (place_of self.old.objects name.entry.now) call (next self.old)) ≡ Some r) }

        ensures cause { IsByCause
            (object_cause self.old name.entry.now (λ object. answer_cause (next self.old) object call)) result }
        ensures unchanged { OnErr result (self.new ≡ self.old) }
    {
        let now = self.counter + 1;
        let register = &mut self.objects[object as usize];
        register.allowed_steps_may_be_made();
        let waited = waiting(register);
        let receipt = register.answer(call, object, now)?;
        self.mailed = exchanged(self.mailed, waited, waiting(register));
        self.counter = now;
        Ok(receipt)
    }
}
