//! What a node hears from letters: layouts of positions, and later starts.

ghost use Rattle.std.specs.Prelude.{◌≡◌, ◌+◌, ◌<◌, ◌^◌, [], ◌∷◌, false, if◌then◌else◌, is_some, IfOk, IfErr, OnOk};
ghost use Rattle.std.specs.Prelude.{option_to_list};
ghost use Rattle.tag.specs.declared.refusal.Refusal.TheVariants.{NoMemory};
ghost use Rattle.local_object.specs.Doing.{IsOutcome, is_askable, is_earlier_start_if, is_sent_back, is_served};
ghost use Rattle.local_object.specs.Doing.{serve_events};
ghost use Rattle.local_object.specs.Events.{redirected_here};
ghost use Rattle.local_object.specs.Local.{heard_start_if, is_later_start, is_later_start_if};
ghost use Rattle.local_object.specs.Outcomes.{layouts_learnt, learnt_from};

use super::has_next;
use super::starts::is_below_limit;
use crate::LocalObject;
use crate::letters::told_start;
use letter::{Letter, Start};
use mail::Body;
use tag::Refusal;

impl LocalObject {
    /// What the node does with a letter that it does not serve: see `serve`.
    ///
    /// `NoMemory` is the only refusal.
    pub(crate) fn answer_stray(&mut self, letter: Letter) -> Result<Option<Letter>, Refusal>
        requires { is_served self.old letter ≡ false }
        ensures done { IfOk result (λ reply.
            IsOutcome self.old (serve_events self.old letter) self.new (option_to_list reply)) }

        ensures refused { IfErr result (λ e. e ≡ NoMemory) }
    {
        if !is_askable(&letter) {
            return Ok(None);
        }
        let is_sent_back = self.is_sent_back(&letter);
        self.hear_told(&letter)?;
        if !is_sent_back {
            return Ok(None);
        }
        Ok(Some(self.redirected(letter)?))
    }

    // The letter with the node's own start, which is to be sent back. `NoMemory` is the only refusal.
    fn redirected(&self, letter: Letter) -> Result<Letter, Refusal>
        ensures sent { IfOk result (λ sent. sent ∷ [] ≡ (redirected_here self.now letter).sent) }
        ensures refused { IfErr result (λ e. e ≡ NoMemory) }
    {
        let Letter {
            layout,
            next,
            start: _,
            asks_piece,
            told,
            message,
        } = letter;
        Ok(Letter {
            layout,
            next,
            start: told_start(&self.places, self.start)?,
            asks_piece,
            told,
            message,
        })
    }

    // The node hears of a letter, if that tells of a start.
    fn hear_told(&mut self, letter: &Letter) -> Result<(), Refusal>
        requires { letter.now.message.position + 1 < 2 ^ 32 }
        ensures heard { OnOk result (self.new
            ≡ (if is_some letter.now.start then learnt_from self.old letter.now else self.old)) }

        ensures refused { IfErr result (λ e. e ≡ NoMemory) }
    {
        if letter.start.is_none() {
            return Ok(());
        }
        self.learn(letter)
    }

    /// The node hears of the layouts in a letter, and of the start that it tells.
    ///
    /// `NoMemory` is the only refusal.
    pub(crate) fn learn(&mut self, letter: &Letter) -> Result<(), Refusal>
        requires { letter.now.message.position + 1 < 2 ^ 32 }
        ensures learnt { OnOk result (self.new ≡ learnt_from self.old letter.now) }
        ensures refused { IfErr result (λ e. e ≡ NoMemory) }
    {
        self.learn_layouts(letter)?;
        self.hear_start(&letter.start)
    }

    // The node hears of the layouts of a letter's position and of the next one.
    fn learn_layouts(&mut self, letter: &Letter) -> Result<(), Refusal>
        requires { letter.now.message.position + 1 < 2 ^ 32 }
        ensures learnt { OnOk result (self.new ≡ layouts_learnt self.old letter.now) }
        ensures refused { IfErr result (λ e. e ≡ NoMemory) }
    {
        let position = letter.message.position;
        self.places.learn(position, &letter.layout)?;
        if let Some(next) = &letter.next {
            self.places.learn(position + 1, next)?;
        }
        Ok(())
    }

    // Whether a request that the node does not serve is sent back with the node's start.
    fn is_sent_back(&self, letter: &Letter) -> bool
        ensures { result ≡ is_sent_back self.now letter.now }
    {
        letter.message.position < self.start && self.is_earlier_start_if(&letter.start)
    }

    // The node hears of a start, if there is one, and takes it for its own if it is later.
    fn hear_start(&mut self, start: &Option<Start>) -> Result<(), Refusal>
        ensures heard { OnOk result (self.new ≡ heard_start_if self.old start.now) }
        ensures refused { IfErr result (λ e. e ≡ NoMemory) }
    {
        let Some(start) = start else {
            return Ok(());
        };
        let is_later = self.is_later_start(start);
        self.places.learn(start.position, &start.layout)?;
        if !is_later {
            return Ok(());
        }
        self.start = start.position;
        Ok(())
    }

    // Whether a start is later than the node's, and numbers of 32 bits are left for phases of calls that begin there.
    fn is_later_start(&self, start: &Start) -> bool
        ensures { result ≡ is_later_start self.now start.now }
    {
        start.position > self.start && is_below_limit(start.position)
    }

    /// Returns whether there is a start, and it is later than the node's.
    pub(crate) fn is_later_start_if(&self, start: &Option<Start>) -> bool
        ensures { result ≡ is_later_start_if self.now start.now }
    {
        match start {
            Some(start) => self.is_later_start(start),
            None => false,
        }
    }

    // Whether there is no start, or one that is earlier than the node's.
    fn is_earlier_start_if(&self, start: &Option<Start>) -> bool
        ensures { result ≡ is_earlier_start_if self.now start.now }
    {
        match start {
            Some(start) => start.position < self.start,
            None => true,
        }
    }
}

// Whether the letter is a request at a position that has a next one.
fn is_askable(letter: &Letter) -> bool
    ensures { result ≡ is_askable letter.now }
{
    match &letter.message.body {
        Body::Request(_) => has_next(letter.message.position),
        _ => false,
    }
}
