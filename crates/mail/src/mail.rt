ghost use Rattle.std.specs.Prelude.{◌≡◌, ◌+◌, ◌<◌, ◌≤◌, ◌==◌, ◌++◌, [], length, nat_le, slice_get};
ghost use Rattle.std.specs.Prelude.{remove, Some, OnOk, OnErr};
ghost use Rattle.tag.specs.Refusal.{IsByCause};
ghost use Rattle.tag.specs.declared.limits.TheConstants.{MOST_BYTES, MOST_MESSAGES};
ghost use Rattle.bank.specs.Answer.{answer_bytes};
ghost use Rattle.mail.specs.Bounds.{AreOthers};
ghost use Rattle.mail.specs.Mail.{is_within, mail_bytes, mail_cause, replied, repeated};

use crate::Message;
use crate::bounds::{add_bounds, first_at_least};
use bank::Reply;
use std::alloc::Global;
use std::marker::Model;
use std::slice;
use tag::{CallId, MOST_BYTES, MOST_MESSAGES, Refusal};

/// The mail of an object: its messages that wait to be handled. The place of a message is its index in the list, from
/// 0.
#[derive(Debug)]
pub struct Mail {
    messages: Vec<Message>,
    // For each message an upper bound of the call numbers of all messages up to it. It does not change when earlier
    // messages are removed.
    bounds: Vec<CallId>,
    // The number of bytes of the pieces in all messages.
    bytes: u64,
}

impl Drop for Mail {
    fn drop(self) {
        let Self {
            messages: _,
            bounds: _,
            bytes: _,
        } = self;
    }
}

impl Model for Mail {
    ghost use Rattle.std.specs.Prelude.{List};
    ghost use Rattle.mail.specs.declared.message.Message.{Message};
    ghost use Rattle.mail.specs.Mail.{IsKeptMail};

    ghost Value = { List Message };

    ghost view = { λ m. m.messages.items };

    ghost invariant = { λ m. IsKeptMail m.messages.items m.bounds.items m.bytes };
}

impl Mail {
    /// Makes an empty mail. It allocates no memory.
    pub fn new(alloc: Global) -> Mail
        ensures { result ≡ [] }
    {
        Mail {
            messages: Vec::new(alloc),
            bounds: Vec::new(alloc),
            bytes: 0,
        }
    }

    /// Returns how many messages wait.
    pub fn len(&self) -> usize
        ensures value { result ≡ length self.now }
        ensures within { result ≤ MOST_MESSAGES }
    {
        self.messages.len()
    }

    /// Returns whether no message waits.
    pub fn is_empty(&self) -> bool
        ensures { result ≡ (length self.now == 0) }
    {
        self.messages.is_empty()
    }

    /// Returns the message at a place, from 0.
    pub fn at(&self, place: usize) -> &Message
        requires { place < length self.now }
        ensures { slice_get self.now place ≡ Some result.now }
    {
        &self.messages[place]
    }

    /// Returns a place before which there is no message of the call. The search looks at this place and the later ones.
    /// From this place on there may be messages of other calls, but none that was posted before the first message of
    /// this call or of a call with a greater number.
    pub fn first_place(&self, call: CallId) -> usize
        ensures { AreOthers call result self.now }
    {
        first_at_least(&self.bounds, call)
    }

    /// Returns the number of bytes of the pieces in all messages. It is kept as a running total.
    pub fn bytes(&self) -> u64
        ensures value { result ≡ mail_bytes self.now }
        ensures within { result ≤ MOST_BYTES }
    {
        self.bytes
    }

    /// Appends all messages, or none. Is refused with `Full` if more than `MOST_MESSAGES` messages would then wait, or
    /// their pieces would have more than `MOST_BYTES` bytes, and otherwise with `NoMemory` if the list cannot grow.
    pub fn post_all(&mut self, messages: Vec<Message>) -> Result<(), Refusal>
        ensures posted { OnOk result (self.new ≡ self.old ++ messages.items) }
        ensures unchanged { OnErr result (self.new ≡ self.old) }
        ensures cause { IsByCause (mail_cause (self.old ++ messages.items)) result }
    {
        if !self.has_room(&messages) {
            return Err(Refusal::Full);
        }
        let bytes = bytes_of(&messages);
        self.messages.reserve(messages.len())?;
        add_bounds(&mut self.bounds, &messages)?;
        let mut messages = messages;
        self.messages.append(&mut messages)?;
        self.bytes += bytes;
        Ok(())
    }

    // Whether the messages may wait together with those that wait already.
    fn has_room(&self, messages: &[Message]) -> bool
        ensures { result ≡ is_within (self.now ++ messages.now) }
    {
        messages.len() <= MOST_MESSAGES - self.messages.len()
            && are_within(messages, MOST_BYTES - self.bytes)
    }

    /// Replaces the request at a place by the reply, and allocates no memory. There must be room for the reply's piece:
    /// the bytes of the mail and those of the answer are together at most `MOST_BYTES`.
    pub fn reply_in_place(&mut self, place: usize, reply: Reply)
        requires place { place < length self.old }
        requires room { mail_bytes self.old + answer_bytes reply.answer ≤ MOST_BYTES }
        ensures { self.new ≡ replied self.old place reply }
    {
        let message = &mut self.messages[place];
        self.bytes -= message.bytes();
        message.answer(reply);
        self.bytes += message.bytes();
    }

    /// Removes the message at a place, and returns it. Later messages move forward by one place.
    pub fn take_out(&mut self, place: usize) -> Message
        requires { place < length self.old }
        ensures message { slice_get self.old place ≡ Some result }
        ensures rest { self.new ≡ remove self.old place }
    {
        self.bytes -= self.messages[place].bytes();
        self.bounds.remove(place);
        self.messages.remove(place)
    }

    /// Removes the message at a place, so that it is lost. Later messages move forward by one place.
    pub fn lose(&mut self, place: usize)
        requires { place < length self.old }
        ensures { self.new ≡ remove self.old place }
    {
        self.take_out(place);
    }

    /// Appends a copy of the message at a place. A piece shares its bytes with the copy. Is refused with `Full` and
    /// `NoMemory` as `post_all` is.
    pub fn repeat(&mut self, place: usize) -> Result<(), Refusal>
        requires { place < length self.old }
        ensures posted { OnOk result (self.new ≡ repeated self.old place) }
        ensures unchanged { OnErr result (self.new ≡ self.old) }
        ensures cause { IsByCause (mail_cause (repeated self.old place)) result }
    {
        let message = self.at(place);
        if !self.has_room(slice::from_ref(message)) {
            return Err(Refusal::Full);
        }
        let copy = message.clone()?;
        let bytes = copy.bytes();
        self.messages.reserve(1)?;
        add_bounds(&mut self.bounds, slice::from_ref(&copy))?;
        self.messages.push_reserved(copy);
        self.bytes += bytes;
        Ok(())
    }
}

// The number of bytes of the pieces in the messages.
fn bytes_of(messages: &[Message]) -> u64
    requires { mail_bytes messages.now ≤ MOST_BYTES }
    ensures { result ≡ mail_bytes messages.now }
{
    let mut total = 0;
    for message in messages {
        total += message.bytes();
    }
    total
}

// Whether the pieces in the messages have at most `most` bytes.
fn are_within(messages: &[Message], most: u64) -> bool
    ensures { result ≡ nat_le (mail_bytes messages.now) most }
{
    let mut left = most;
    for message in messages {
        let bytes = message.bytes();
        if left < bytes {
            return false;
        }
        left -= bytes;
    }
    true
}
