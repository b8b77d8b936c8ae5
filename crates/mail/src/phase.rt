ghost use Rattle.std.specs.Prelude.{◌≡◌, ◌≤◌, IsNone, IfOk, IfErr, is_some, false, if◌then◌else◌};
ghost use Rattle.tag.specs.declared.refusal.Refusal.TheVariants.{NoMemory};
ghost use Rattle.mail.specs.Complete.{CompleteMeansQuorum};
ghost use Rattle.mail.specs.Phase.{has_piece};

use crate::{Body, Message};
use bank::{Answer, Kind, Reply};
use std::alloc::Global;
use std::marker::Model;
use tag::{CallId, Refusal, Stamp};

mod views;

/// What a phase asks of the members of a position, and for which call.
#[derive(Clone, Copy, Debug, PartialEq, Eq)]
pub struct Ask {
    /// The call's number in its object, from 1.
    pub call: CallId,
    /// The phase's number in its call, from 1.
    pub number: u32,
    /// The position whose members are asked, from 0.
    pub position: u32,
    /// What each member is asked.
    pub kind: Kind,
}

/// A member's reply, with the step at which it was taken.
#[derive(Debug, PartialEq, Eq, Drop)]
pub struct Taken {
    /// The member's place in the position's layout, from 0.
    pub member: u8,
    /// The reply, which names the step at which it was made.
    pub reply: Reply,
    /// The number of the step at which the reply was taken.
    pub step: Stamp,
}

/// The outcome of taking a message.
#[derive(Clone, Copy, Debug, PartialEq, Eq, Hash)]
pub enum Took {
    /// The reply was recorded, and the phase still lacks a quorum.
    Recorded,
    /// The reply was recorded, and it completes the quorum.
    Complete,
    /// The message is no reply to this phase, or the phase has a quorum already.
    Stale,
    /// A reply of this member was recorded before.
    Doubled,
}

/// A phase of a call: what it asks of the members of a position, and the replies that it took.
#[derive(Debug)]
pub struct Phase {
    ask: Ask,
    start: Stamp,
    // The replies in the order in which they were taken, at most a quorum of them. Room for all is reserved. The phase
    // ended when the last of a quorum was taken.
    replies: Vec<Taken>,
    members: u8,
    quorum: u8,
    // How many pieces a fetch needs.
    needed: u8,
}

impl Drop for Phase {
    fn drop(self) {
        let Self {
            ask: _,
            start: _,
            replies: _,
            members: _,
            quorum: _,
            needed: _,
        } = self;
    }
}

impl Model for Phase {
    ghost use Rattle.mail.specs.Phase.{Phase as Record, IsRecord, end_of};
    ghost use Rattle.std.specs.Prelude.{◌≤◌, vec_capacity};

    ghost Value = { Record };

    ghost view = { λ p. record {
      call = p.ask.call;
      number = p.ask.number;
      kind = p.ask.kind;
      position = p.ask.position;
      members = p.members;
      quorum = p.quorum;
      needed = p.needed;
      start = p.start;
      replies = p.replies.items;
      end = end_of p.quorum p.replies.items;
    } };

    ghost invariant = { λ p.
        IsRecord p.members p.quorum p.replies.items (end_of p.quorum p.replies.items)
        × (p.quorum ≤ vec_capacity p.replies) };
}

impl Phase {
    ghost use Rattle.mail.specs.Phase.{IsRecord, begun, after_take, took_by};
    ghost use Rattle.mail.specs.Phase.{is_current, has_taken, makes_quorum, with_reply, lacks_pieces};
    ghost use Rattle.mail.specs.declared.phase.Took.TheVariants as took;

    /// Makes a phase that begins at step `now`. It is complete once `quorum` of the position's `members` have replied.
    /// If it is a fetch, it needs `needed` pieces.
    ///
    /// Room for the replies of a quorum is reserved, so that no take is refused. `NoMemory` is the only refusal.
    pub fn new(
        alloc: Global,
        ask: Ask,
        members: u8,
        quorum: u8,
        needed: u8,
        now: Stamp,
    ) -> Result<Phase, Refusal>
        requires some { 1 ≤ quorum }
        requires within { quorum ≤ members }
        ensures phase { IfOk result (λ p. p
            ≡ begun ask.call ask.number ask.kind ask.position members quorum needed now) }
        ensures refused { IfErr result (λ e. e ≡ NoMemory) }
    {
        Ok(Phase {
            ask,
            start: now,
            replies: Vec::with_capacity(alloc, usize::from(quorum))?,
            members,
            quorum,
            needed,
        })
    }

    /// Returns whether the phase has the replies of a quorum.
    pub fn complete(&self) -> bool
        ensures value { result ≡ is_some self.now.end }
        ensures kept { IsRecord self.now.members self.now.quorum self.now.replies self.now.end }
    {
        self.replies.len() >= usize::from(self.quorum)
    }

    /// Returns whether a reply of the member was recorded.
    pub fn has_taken(&self, member: u8) -> bool
        ensures { result ≡ has_taken self.now.replies member }
    {
        self.replies.iter().any(|taken| taken.member == member)
    }

    /// Returns whether fewer replies carry a piece than a fetch needs.
    pub fn lacks_pieces(&self) -> bool
        ensures { result ≡ lacks_pieces self.now }
    {
        self.replies
            .iter()
            .filter(|taken| brings_piece(&taken.reply))
            .count()
            < usize::from(self.needed)
    }

    /// Takes a message at step `now`, and returns the outcome. The reply is recorded if it is the first of its member
    /// to this phase and the phase lacks a quorum. It allocates no memory.
    pub fn take(&mut self, message: Message, now: Stamp) -> Took
        ensures phase { self.new ≡ after_take self.old message now }
        ensures took { result ≡ took_by self.old message }
    {
        let Message {
            call,
            phase,
            position: _,
            member,
            body,
        } = message;
        let Body::Reply { kind: _, reply } = body else {
            return Took::Stale;
        };
        if !self.is_current(call, phase) {
            return Took::Stale;
        }
        if self.has_taken(member) {
            return Took::Doubled;
        }
        self.add(Taken {
            member,
            reply,
            step: now,
        })
    }

    // Whether the call and the number are those of this phase, and it lacks a quorum.
    fn is_current(&self, call: CallId, number: u32) -> bool
        ensures { result ≡ is_current self.now call number }
    {
        call == self.ask.call && number == self.ask.number && !self.complete()
    }

    // Records the first reply of a member.
    fn add(&mut self, taken: Taken) -> Took
        requires open { IsNone self.old.end }
        requires missing { has_taken self.old.replies taken.member ≡ false }
        ensures phase { self.new ≡ with_reply self.old taken.member taken.reply taken.step }
        ensures took { result ≡ if makes_quorum self.old then took.Complete else took.Recorded }
    {
        self.replies.push_reserved(taken);
        if self.replies.len() < usize::from(self.quorum) {
            return Took::Recorded;
        }
        Took::Complete
    }
}

// Whether a reply carries a piece.
fn brings_piece(reply: &Reply) -> bool
    ensures { result ≡ has_piece reply.now.answer }
{
    matches!(&reply.answer, Answer::Piece(Some(_)))
}

/// A law: if all takes were lawful and came at rising steps, a complete phase has the replies of a quorum of its
/// position, one for each member. Each was taken from a message that names this call and phase, was made after the
/// phase began, and was taken by the step at which the phase ended.
pub fn complete_means_quorum()
    ensures { CompleteMeansQuorum }
{}
