ghost use Rattle.std.specs.Prelude.{◌≡◌, ◌+◌, ◌<◌, ◌^◌, [], IfOk, IfErr, OnOk, IsSome, nat_lt, option_to_list};
ghost use Rattle.tag.specs.declared.refusal.Refusal.TheVariants.{NoMemory};
ghost use Rattle.local_object.specs.Local.{new_local, heard_place, with_heard};
ghost use Rattle.local_object.specs.Events.{served_here};
ghost use Rattle.local_object.specs.Outcomes.{learnt_from};
ghost use Rattle.local_object.specs.Doing.{IsOutcome, can_close, close_events, has_member, is_served, serve_events};

use crate::calls::Calls;
use crate::letters::{letter_of, with_told};
use crate::places::Places;
use crate::reports::Reports;
use layout::Layout;
use letter::{Letter, SharedLayout};
use mail::{Body, Message};
use std::alloc::Global;
use std::marker::Model;
use tag::Refusal;

mod agreement;
mod begin;
mod early;
mod go_on;
mod hear;
mod passed;
mod querying;
mod resend;
mod starts;
mod take;
mod views;

/// What one node of a cluster keeps of one object: the positions that it has heard of, with their layouts; its banks;
/// the calls that it carries out; and what members told these calls with their replies.
///
/// If a function is refused with `NoMemory`, an allocation was refused, and its contract says nothing of the object:
/// the node stops, and starts again from its log. Every other refusal changes nothing. If several refusals apply, the
/// first in the order NotNow, MovePending, TooLong, Full, NoMemory is returned.
#[derive(Debug)]
pub struct LocalObject {
    // The number of the node.
    node: u8,
    // How many finalized versions the banks keep beside the newest. None where they keep all.
    delta: Option<u32>,
    // The position at which calls begin: at each position before it, the pointer is final at a quorum.
    start: u32,
    places: Places,
    // What members told the current phases of the calls.
    reports: Reports,
    calls: Calls,
    alloc: Global,
}

impl Drop for LocalObject {
    fn drop(self) {
        let Self {
            node: _,
            delta: _,
            start: _,
            places: _,
            reports: _,
            calls: _,
            alloc: _,
        } = self;
    }
}

impl Model for LocalObject {
    ghost use Rattle.std.specs.Coded.{codes};
    ghost use Rattle.local_object.specs.contracts.place.Place as heard;
    ghost use Rattle.local_object.specs.Local.{LocalObject as Local};
    ghost use Rattle.local_object.specs.Codes.{carried, local_code};
    ghost use Rattle.local_object.specs.Distinct.{KnowsStart};

    ghost Value = { Local };

    ghost coded = { local_code heard.the_row.coded (Prim.hlevel codes) (Prim.hlevel codes) };

    ghost view = { λ o. record {
      node = o.node;
      delta = o.delta;
      start = o.start;
      places = o.places;
      reports = o.reports;
      calls = carried o.node o.calls;
    } };

    ghost invariant = { λ o. KnowsStart o.places o.start };
}

impl LocalObject {
    /// What the node with this number keeps of an object of which it has not heard: position 0 with its layout.
    ///
    /// `delta` is the number of finalized versions of which the node's banks keep pieces, besides the newest; without
    /// it they keep all pieces. `NoMemory` is the only refusal.
    pub fn new(
        alloc: Global,
        node: u8,
        delta: Option<u32>,
        first: Layout,
    ) -> Result<LocalObject, Refusal>
        ensures new { IfOk result (λ o. o ≡ new_local node delta first) }
        ensures refused { IfErr result (λ e. e ≡ NoMemory) }
    {
        Ok(LocalObject {
            node,
            delta,
            start: 0,
            places: Places::new(alloc, first)?,
            reports: Reports::new(alloc),
            calls: Calls::new(alloc),
            alloc,
        })
    }

    /// The node serves a request. The reply has to be sent to the node from which the request came. Returns none, and
    /// changes nothing, if the letter is no request. Returns none, too, if the node's bank is closed and declines the
    /// request, which then changes no bank.
    ///
    /// If this node is not the member that the request names, it serves nothing. If then the letter tells of a start,
    /// the node hears of the letter. If the request is at a position before this node's start, and tells of no start or
    /// of an earlier one, the node returns the request itself, with its own start; otherwise it returns none. If there
    /// is no number in 32 bits for the position after the request's, it returns none, and changes nothing.
    ///
    /// `NoMemory` is the only refusal.
    pub fn serve(&mut self, letter: Letter) -> Result<Option<Letter>, Refusal>
        ensures done { IfOk result (λ reply.
            IsOutcome self.old (serve_events self.old letter) self.new (option_to_list reply)) }

        ensures refused { IfErr result (λ e. e ≡ NoMemory) }
    {
        if self.is_served(&letter) {
            self.learn(&letter)?;
            return self.handle(letter);
        }
        self.answer_stray(letter)
    }

    /// The node hears of a position and its layout. Nothing changes if it had heard of the position before.
    ///
    /// `NoMemory` is the only refusal.
    pub fn hear(&mut self, position: u32, layout: Layout) -> Result<(), Refusal>
        ensures heard { OnOk result (self.new ≡ with_heard self.old position layout) }
        ensures refused { IfErr result (λ e. e ≡ NoMemory) }
    {
        let layout = SharedLayout::new(self.alloc, layout)?;
        self.places.learn(position, &layout)?;
        Ok(())
    }

    /// Returns whether the node can close its bank of a position: whether it keeps an open bank there, whose pointer is
    /// final.
    pub fn can_close(&self, position: u32) -> bool
        ensures { result ≡ can_close self.now position }
    {
        match self.places.bank_of(position) {
            Some(bank) => bank.can_close(),
            None => false,
        }
    }

    /// The node closes its bank of a position, which then has no piece any more. Returns whether it did so: if it
    /// cannot close the bank, nothing changes.
    pub fn close(&mut self, position: u32) -> bool
        ensures done { IsOutcome self.old (close_events self.old position) self.new [] }
        ensures closed { result ≡ can_close self.old position }
    {
        if !self.can_close(position) {
            return false;
        }
        self.places.close(position);
        true
    }

    // Whether the node serves the letter.
    fn is_served(&self, letter: &Letter) -> bool
        ensures { result ≡ is_served self.now letter.now }
    {
        let Body::Request(_) = &letter.message.body else {
            return false;
        };
        if !has_next(letter.message.position) {
            return false;
        }
        match self.places.layout_of(u64::from(letter.message.position)) {
            Some(layout) => has_member(layout, letter.message.member, self.node),
            None => has_member(letter.layout.layout(), letter.message.member, self.node),
        }
    }

    // The node's bank serves the request in a letter. None where it is none, or where the bank declines it.
    fn handle(&mut self, letter: Letter) -> Result<Option<Letter>, Refusal>
        requires { IsSome (heard_place self.old.places letter.message.position) }
        ensures local { OnOk result (self.new ≡ (served_here self.old letter letter.message.body).local) }
        ensures sent { IfOk result (λ reply.
            option_to_list reply ≡ (served_here self.old letter letter.message.body).sent) }

        ensures refused { IfErr result (λ e. e ≡ NoMemory) }
    {
        let Letter {
            layout,
            next: _,
            start: _,
            asks_piece,
            told: _,
            message,
        } = letter;
        let Message {
            call,
            phase,
            position,
            member,
            body,
        } = message;
        let Body::Request(request) = body else {
            return Ok(None);
        };
        let Some(reply) = self.places.serve(position, member, self.delta, &request)? else {
            return Ok(None);
        };
        let answer = Message {
            call,
            phase,
            position,
            member,
            body: Body::Reply {
                kind: request.kind(),
                reply,
            },
        };
        let told = self.places.tell(position, member, self.delta, asks_piece)?;
        let letter = letter_of(&self.places, self.start, false, layout, answer)?;
        Ok(Some(with_told(letter, told)))
    }
}

// Whether there is a number for the position after this one.
fn has_next(position: u32) -> bool
    ensures { result ≡ nat_lt (position + 1) (2 ^ 32) }
{
    position < u32::MAX
}

// Whether the layout has this node as the member.
fn has_member(layout: &Layout, member: u8, node: u8) -> bool
    ensures { result ≡ has_member layout.now member node }
{
    if member >= layout.n() {
        return false;
    }
    layout.member(member) == node
}
