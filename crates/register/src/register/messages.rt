//! Steps that handle messages. A place is the index of a message in the object's mail, from 0.

ghost use Rattle.std.specs.Prelude.{◌≡◌, ◌<◌, OnOk, OnErr, IfOk};
ghost use Rattle.tag.specs.Refusal.{IsByCause, IsExactlyByCause};
ghost use Rattle.record.specs.Steps.{Step};
ghost use Rattle.register.specs.State.{made};
ghost use Rattle.register.specs.Causes.{serve_cause, take_cause, lose_cause, repeat_cause};
ghost use Rattle.register.specs.View.{took_at};

use crate::register::Register;
use mail::{Body, Took};
use tag::{MOST_BYTES, MOST_STEPS, Refusal, Stamp};

impl Register {
    /// The member to which the request at a place is sent serves the request. Its reply takes the place of the request.
    ///
    /// Is refused with `NoMessage` if there is no message at this place, with `NotNow` if it is a reply, and with
    /// `Full` if `now` is above `MOST_STEPS`, or the bytes of the request's piece and all that the object stores are
    /// together more than `MOST_BYTES`.
    pub fn serve(&mut self, place: usize, now: Stamp) -> Result<(), Refusal>
        requires after { self.old.last < now }
        ensures step { OnOk result (self.new ≡ made (Step.Serve place) now self.old) }
        ensures cause { IsByCause (serve_cause now self.old.object place) result }
        ensures unchanged { OnErr result (self.new ≡ self.old) }
    {
        if self.mail.len() <= place {
            return Err(Refusal::NoMessage);
        }
        let message = self.mail.at(place);
        let Body::Request(request) = &message.body else {
            return Err(Refusal::NotNow);
        };
        if now > MOST_STEPS {
            return Err(Refusal::Full);
        }
        if message.bytes() > MOST_BYTES - self.stored {
            return Err(Refusal::Full);
        }
        let member = message.member;
        let position = &mut self.positions[message.position as usize];
        let before = position.bytes(member);
        let reply = position.serve(member, request, now)?;
        self.stored = self.stored - before + position.bytes(member);
        self.mail.reply_in_place(place, reply);
        self.last = now;
        Ok(())
    }

    /// The call that the reply at a place names takes the reply. Returns what the call did with it. The message leaves
    /// the mail, and later ones move down by one place. It allocates no memory.
    ///
    /// Is refused with `NoMessage` if there is no message at this place, with `NotNow` if it is a request, and with
    /// `Full` if `now` is above `MOST_STEPS`.
    pub fn take(&mut self, place: usize, now: Stamp) -> Result<Took, Refusal>
        requires after { self.old.last < now }
        ensures step { OnOk result (self.new ≡ made (Step.Take place) now self.old) }
        ensures took { IfOk result (λ t. t ≡ took_at self.old.object place) }
        ensures cause { IsExactlyByCause (take_cause now self.old.object place) result }
        ensures unchanged { OnErr result (self.new ≡ self.old) }
    {
        if self.mail.len() <= place {
            return Err(Refusal::NoMessage);
        }
        let Body::Reply { kind: _, reply: _ } = &self.mail.at(place).body else {
            return Err(Refusal::NotNow);
        };
        if now > MOST_STEPS {
            return Err(Refusal::Full);
        }
        let message = self.mail.take_out(place);
        let index = (message.call - 1) as usize;
        let took = self.calls[index].take(message, now);
        self.last = now;
        Ok(took)
    }

    /// The message at a place is lost. Later ones move down by one place. It allocates no memory.
    ///
    /// Is refused with `NoMessage` if there is no message at this place, and with `Full` if `now` is above
    /// `MOST_STEPS`.
    pub fn lose(&mut self, place: usize, now: Stamp) -> Result<(), Refusal>
        requires after { self.old.last < now }
        ensures step { OnOk result (self.new ≡ made (Step.Lose place) now self.old) }
        ensures cause { IsExactlyByCause (lose_cause now self.old.object place) result }
        ensures unchanged { OnErr result (self.new ≡ self.old) }
    {
        if self.mail.len() <= place {
            return Err(Refusal::NoMessage);
        }
        if now > MOST_STEPS {
            return Err(Refusal::Full);
        }
        self.mail.lose(place);
        self.last = now;
        Ok(())
    }

    /// A copy of the message at a place is put at the end of the mail.
    ///
    /// Is refused with `NoMessage` if there is no message at this place, and with `Full` if `now` is above `MOST_STEPS`
    /// or `MOST_MESSAGES` messages wait.
    pub fn repeat(&mut self, place: usize, now: Stamp) -> Result<(), Refusal>
        requires after { self.old.last < now }
        ensures step { OnOk result (self.new ≡ made (Step.Repeat place) now self.old) }
        ensures cause { IsByCause (repeat_cause now self.old.object place) result }
        ensures unchanged { OnErr result (self.new ≡ self.old) }
    {
        if self.mail.len() <= place {
            return Err(Refusal::NoMessage);
        }
        if now > MOST_STEPS {
            return Err(Refusal::Full);
        }
        self.mail.repeat(place)?;
        self.last = now;
        Ok(())
    }
}
