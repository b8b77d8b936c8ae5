//! A step that a caller asks for, as one value.

ghost use Rattle.std.specs.Prelude.{◌≡◌, ◌<◌, Some, IfOk, OnOk, OnErr};
ghost use Rattle.std.specs.Result.{result_map_both};
ghost use Rattle.record.specs.Fragments.{AreBytes};
ghost use Rattle.register.specs.Act.{HasLawfulValues, IsActCause, act_cause, answered_by, step_of};
ghost use Rattle.register.specs.State.{made, next_id};
ghost use Rattle.register.specs.declared.act.Answered.TheVariants.{Call, Nothing};

use crate::register::Register;
use bytes::Bytes;
use call::Receipt;
use decoder::Decoded;
use encoder::Coded;
use layout::Layout;
use mail::Took;
use tag::{CallId, Refusal, Stamp};

/// A step that a caller asks of an object. It names a call by its number, from 1, and a message by its place in the
/// mail, from 0.
#[derive(Debug, Drop)]
pub enum Act {
    /// Begins a read.
    CallRead,
    /// Begins a write of this value.
    CallWrite(Bytes),
    /// Begins a move to this layout.
    CallMove(Layout),
    /// The call of this number begins the phase that is due.
    Advance(CallId),
    /// Restarts the call of this number.
    Again(CallId),
    /// Hands in the encoded value of the call of this number.
    Supply(CallId, Coded),
    /// Resends the requests of the current phase of the call of this number.
    Post(CallId),
    /// Hands in the value that was decoded for the call of this number.
    Settle(CallId, Decoded),
    /// Answers the call of this number.
    Answer(CallId),
    /// The request at this place is served.
    Serve(usize),
    /// The reply at this place is taken.
    Take(usize),
    /// The message at this place is lost.
    Lose(usize),
    /// The message at this place is repeated.
    Repeat(usize),
}

/// The result of an act.
#[derive(Debug, Drop)]
pub enum Answered {
    /// The number of the call that began.
    Call(CallId),
    /// The receipt of the call that was answered.
    Receipt(Receipt),
    /// What the call did with the reply.
    Took(Took),
    /// Any other act returns nothing.
    Nothing,
}

impl Act {
    /// A law: the values in an act satisfy the invariants of their types. It changes nothing and allocates no memory.
    pub fn values_are_lawful(&self)
        ensures { HasLawfulValues self.now }
    {
        // Reading a value gives the prover what its type promises.
        match self {
            Act::CallWrite(value) => are_bytes(value.as_slice()),
            Act::CallMove(layout) => {
                layout.k();
            }
            Act::Settle(_, decoded) => {
                decoded.value();
            }
            _ => (),
        }
    }
}

// A law: a value consists of bytes.
fn are_bytes(value: &[u8])
    ensures { AreBytes value.now }
{
    let _ = value.len();
}

impl Register {
    /// Makes the step that an act asks for, at step `now`. A receipt gets `object` as the object's place.
    ///
    /// It is refused as the method of the act's name is.
    pub fn act(&mut self, act: Act, object: u32, now: Stamp) -> Result<Answered, Refusal>
        requires after { self.old.last < now }
        ensures step { OnOk result (self.new ≡ made (step_of (next_id self.old.object) act) now self.old) }
        ensures answered { IfOk result (λ a. answered_by act object now self.old.object ≡ Some a) }
        ensures cause { IsActCause act (act_cause act now self.old.object) result }
        ensures unchanged { OnErr result (self.new ≡ self.old) }
    {
        match act {
            Act::CallRead => called(self.call_read(now)),
            Act::CallWrite(value) => called(self.call_write(value, now)),
            Act::CallMove(layout) => called(self.call_move(layout, now)),
            Act::Advance(call) => nothing(self.advance(call, now)),
            Act::Again(call) => nothing(self.again(call, now)),
            Act::Supply(call, coded) => nothing(self.supply(call, coded, now)),
            Act::Post(call) => nothing(self.post(call, now)),
            Act::Settle(call, decoded) => nothing(self.settle(call, decoded, now)),
            Act::Answer(call) => Ok(Answered::Receipt(self.answer(call, object, now)?)),
            Act::Serve(place) => nothing(self.serve(place, now)),
            Act::Take(place) => Ok(Answered::Took(self.take(place, now)?)),
            Act::Lose(place) => nothing(self.lose(place, now)),
            Act::Repeat(place) => nothing(self.repeat(place, now)),
        }
    }
}

// The result of an act that begins a call.
fn called(made: Result<CallId, Refusal>) -> Result<Answered, Refusal>
    ensures { result ≡ result_map_both (λ number. Call number) (λ e. e) made }
{
    Ok(Answered::Call(made?))
}

// The result of an act that returns nothing.
fn nothing(made: Result<(), Refusal>) -> Result<Answered, Refusal>
    ensures { result ≡ result_map_both (λ u. Nothing) (λ e. e) made }
{
    made?;
    Ok(Answered::Nothing)
}
