//! Replies that calls take.

ghost use Rattle.std.specs.Prelude.{◌≡◌, ◌∷◌, [], true, IfOk, IfErr, OnOk, option_to_list};
ghost use Rattle.tag.specs.declared.refusal.Refusal.TheVariants.{NoMemory};
ghost use Rattle.local_object.specs.Doing.{is_taken};
ghost use Rattle.local_object.specs.Events.{LocalEvent};
ghost use Rattle.local_object.specs.Going.{IsSomeOutcome, taken_here};
ghost use Rattle.local_object.specs.Replies.{IsReplyOutcome};
ghost use Rattle.local_object.specs.Reports.{told_to};
ghost use Rattle.local_object.specs.Taking.{IsOutcomeWithAnswers, is_repeat_in, repeats};

use super::has_next;
use crate::calls::is_move;
use crate::{LocalObject, Progress};
use call::Call;
use letter::{Letter, Telling};
use mail::{Body, Message};
use tag::Refusal;

impl LocalObject {
    /// A call of the node takes a reply, and ends early if what members told its current phase is enough. Otherwise it
    /// goes on as far as it can: it settles the value that it fetched, and begins its next phase or is answered. If it
    /// has raised the pointer of the object's start to final at a quorum, the start grows by one. Nothing changes if
    /// the letter is no reply to a call that is open here, or if there is no number in 32 bits for the next position.
    ///
    /// A read or a write that asked for the pointers of the first position that counts sends no query to its members if
    /// as many of them as are a quorum told it unset pointers. They told their greatest finalized tags with the same
    /// replies, so the call goes on as after a query that they answered with these tags.
    ///
    /// If its complete fetch lacks pieces, the call does not begin anew at once. It waits until its requests are sent
    /// again (`resend`), and begins anew when it takes a reply to this fetch from a member whose reply it had recorded.
    /// A read then reads the sequence of layouts from the start on.
    ///
    /// If the call cannot go on, it waits, and `give_up` ends it: the node has not heard of the layout that it needs,
    /// or there is no number for its next position, phase or tag, or the pieces that it fetched do not decode. This
    /// does not happen while all nodes follow the rules and numbers are left.
    ///
    /// `NoMemory` is the only refusal.
    pub fn take(&mut self, letter: Letter) -> Result<Progress, Refusal>
        ensures done { IfOk result (λ progress.
            IsSomeOutcome self.old self.new progress.letters.items (option_to_list progress.ended)) }

        ensures taken { IfOk result (λ progress. IsReplyOutcome (is_taken self.old letter) self.old letter self.new
            progress.letters.items (option_to_list progress.ended)) }

        ensures refused { IfErr result (λ e. e ≡ NoMemory) }
    {
        if !self.is_taken(&letter) {
            return Ok(Progress::none(self.alloc));
        }
        let id = letter.message.call;
        let again = self.repeats(&letter);
        self.take_reply(letter)?;
        if let Some(ended) = self.end_early(id)? {
            return Ok(Progress::answered(self.alloc, ended));
        }
        self.query(id)?;
        self.settle(id)?;
        self.grow(id);
        self.lead(id, again)
    }

    // Whether the letter repeats a reply that the current phase of its call has recorded.
    fn repeats(&self, letter: &Letter) -> bool
        ensures { result ≡ repeats self.now letter.now }
    {
        match self.calls.index_of(letter.message.call) {
            Some(index) => is_repeat_in(self.calls.at(index), &letter.message),
            None => false,
        }
    }

    // Whether the letter is a reply to a call that is open here, and its position has a next one.
    fn is_taken(&self, letter: &Letter) -> bool
        ensures { result ≡ is_taken self.now letter.now }
    {
        let Body::Reply { kind: _, reply: _ } = &letter.message.body else {
            return false;
        };
        if !has_next(letter.message.position) {
            return false;
        }
        match self.calls.index_of(letter.message.call) {
            Some(_) => true,
            None => false,
        }
    }

    // The call that the reply names takes it, and the node hears of its layouts.
    fn take_reply(&mut self, letter: Letter) -> Result<(), Refusal>
        requires { is_taken self.old letter ≡ true }
        ensures done { OnOk result (IsOutcomeWithAnswers self.old (LocalEvent.Take letter ∷ []) self.new [] []) }
        ensures refused { IfErr result (λ e. e ≡ NoMemory) }
    {
        self.learn(&letter)?;
        let Letter {
            layout: _,
            next: _,
            start: _,
            asks_piece: _,
            told,
            message,
        } = letter;
        self.take_message(message, told)
    }

    // The call that a message names takes it, if the call is open here, and what its member told with it is kept.
    fn take_message(&mut self, message: Message, told: Option<Telling>) -> Result<(), Refusal>
        ensures taken { OnOk result (self.new ≡ (taken_here self.old message told).local) }
        ensures refused { IfErr result (λ e. e ≡ NoMemory) }
    {
        let Some(index) = self.calls.index_of(message.call) else {
            return Ok(());
        };
        let call = self.calls.at(index);
        let number = call.phase().number();
        let told = told_to(call, told);
        self.reports.heed(number, &message, told)?;
        self.calls.take(index, message);
        Ok(())
    }
}

// What a call is told: a move need not be told anything.
fn told_to(call: &Call, told: Option<Telling>) -> Option<Telling>
    ensures { result ≡ told_to call.now.kind told }
{
    if is_move(call) { None } else { told }
}

// Whether a message repeats a reply that the current phase of a call has recorded.
fn is_repeat_in(call: &Call, message: &Message) -> bool
    ensures { result ≡ is_repeat_in call.now.phase message.now }
{
    let phase = call.phase();
    message.phase == phase.number() && phase.has_taken(message.member)
}
