//! What is read from an object without a step. Positions, members and servers count from 0, and calls from 1.

ghost use Rattle.std.specs.Prelude.{◌≡◌, ◌≤◌, option_copied, length, option_map, slice_get, IfOk, IfErr, Some};
ghost use Rattle.tag.specs.declared.limits.TheConstants.{MOST_BYTES};
ghost use Rattle.tag.specs.declared.refusal.Refusal.TheVariants.{NoMemory};
ghost use Rattle.tag.specs.Refusal.{IsByCause, IsExactlyByCause};
ghost use Rattle.record.specs.Accounts.{stored, mailed};
ghost use Rattle.record.specs.Journals.{entries, entry_of, stage_tag};
ghost use Rattle.record.specs.Records.{base_of, layout_at};
ghost use Rattle.record.specs.Wants.{fetched_or};
ghost use Rattle.register.specs.Kept.{has_open_move};
ghost use Rattle.register.specs.Causes.{call_at, number_cause};
ghost use Rattle.register.specs.Position.{all_bytes};
ghost use Rattle.register.specs.State.{next_id};
ghost use Rattle.register.specs.View.{view_at, value_at, phases_at, tag_at, bank_there};

use crate::register::Register;
use crate::register::phases::{index_of, want_of};
use bank::{Bank, Kind};
use bytes::Bytes;
use call::{CallView, stage_tag};
use layout::Layout;
use mail::{Mail, Phase};
use record::{Entry, Stage};
use tag::{CallId, Refusal, Tag};

impl Register {
    /// Returns whether the object has a move that is not answered.
    pub fn is_moving(&self) -> bool
        ensures { result ≡ has_open_move self.now.object.calls }
    {
        self.is_moving
    }

    /// Returns the number of the call that begins next: one more than the object has calls.
    pub fn next_call(&self) -> CallId
        ensures { result ≡ next_id self.now.object }
    {
        self.calls.len() as u64 + 1
    }

    /// Returns one entry for each call, in the order of their numbers. `NoMemory` is the only refusal.
    pub fn entries(&self) -> Result<Vec<Entry>, Refusal>
        ensures entries { IfOk result (λ es. es.items ≡ entries self.now.object) }
        ensures refused { IfErr result (λ e. e ≡ NoMemory) }
    {
        let mut entries = Vec::with_capacity(*self.calls.allocator(), self.calls.len())?;
        for call in &self.calls {
            entries.push(call.entry()?)?;
        }
        Ok(entries)
    }

    /// Returns the entry of the call of this number.
    ///
    /// Is refused with `NoCall` if there is no call of this number.
    pub fn entry(&self, call: CallId) -> Result<Entry, Refusal>
        ensures entry { IfOk result (λ e. option_map (entry_of call) (call_at self.now.object call) ≡ Some e) }
        ensures cause { IsByCause (number_cause self.now.object call) result }
    {
        let index = index_of(&self.calls, call)?;
        self.calls[index].entry()
    }

    /// Returns how many bytes of pieces this server stores, over all positions of which it is a member.
    pub fn stored(&self, server: u8) -> u64
        ensures value { result ≡ stored self.now.object server }
        ensures within { result ≤ MOST_BYTES }
    {
        let mut total = 0;
        for position in &self.positions {
            total += position.stored(server);
        }
        total
    }

    /// Returns how many bytes of pieces all banks store.
    pub fn stored_in_all(&self) -> u64
        ensures value { result ≡ all_bytes self.now.object.banks }
        ensures within { result ≤ MOST_BYTES }
    {
        self.stored
    }

    /// Returns how many bytes of pieces wait in messages.
    pub fn mailed(&self) -> u64
        ensures value { result ≡ mailed self.now.object }
        ensures within { result ≤ MOST_BYTES }
    {
        self.mail.bytes()
    }

    /// Returns how far the call of this number has come. It allocates no memory.
    ///
    /// Is refused with `NoCall` if there is no call of this number.
    pub fn call_view(&self, call: CallId) -> Result<CallView, Refusal>
        ensures view { IfOk result (λ v. view_at self.now.object call ≡ Some v) }
        ensures cause { IsExactlyByCause (number_cause self.now.object call) result }
    {
        let index = index_of(&self.calls, call)?;
        let tracked = &self.calls[index];
        let phase = tracked.current();
        Ok(CallView {
            kind: tracked.operation(),
            number: phase.number(),
            phase: phase.kind(),
            position: phase.position(),
            replies: phase.replies().len() as u8,
            quorum: phase.quorum(),
            tag: viewed_tag(phase.kind(), tracked.stage()),
            want: want_of(&self.positions, tracked),
        })
    }

    /// Returns how many phases the call of this number has: 0 if there is no such call.
    pub fn phase_count(&self, call: CallId) -> usize
        ensures { result ≡ length (phases_at self.now.object call) }
    {
        match index_of(&self.calls, call) {
            Ok(index) => self.calls[index].count(),
            Err(_) => 0,
        }
    }

    /// Returns the phase at an index, from 0, of the call of this number, or none if there is no such call or phase.
    pub fn phase_view(&self, call: CallId, index: usize) -> Option<&Phase>
        ensures { option_copied result ≡ slice_get (phases_at self.now.object call) index }
    {
        match index_of(&self.calls, call) {
            Ok(place) => self.calls[place].phase_at(index),
            Err(_) => None,
        }
    }

    /// Returns the waiting messages, by place.
    pub fn mail_view(&self) -> &Mail
        ensures { result.now ≡ self.now.object.mail }
    {
        &self.mail
    }

    /// Returns the bank of a member of a position, or none if there is no such position or member.
    pub fn bank_view(&self, position: u32, member: u8) -> Option<&Bank>
        ensures { option_copied result ≡ bank_there self.now.object position member }
    {
        match self.positions.get(position as usize) {
            Some(position) => position.bank(member),
            None => None,
        }
    }

    /// Returns the base: the first position that is not retired. A first reading that begins now begins there.
    pub fn base(&self) -> u32
        ensures { result ≡ base_of self.now.object }
    {
        self.base
    }

    /// Returns the layout of a position, or none if there is no such position.
    pub fn layout_view(&self, position: u32) -> Option<&Layout>
        ensures { option_copied result ≡ slice_get self.now.object.layouts position }
    {
        let place = self.positions.get(position as usize)?;
        Some(place.layout())
    }

    /// Returns the tag of the call of this number, or none if there is no such call, or its queries are not complete.
    pub fn tag_view(&self, call: CallId) -> Option<Tag>
        ensures { result ≡ tag_at self.now.object call }
    {
        match index_of(&self.calls, call) {
            Ok(index) => stage_tag(self.calls[index].stage()),
            Err(_) => None,
        }
    }

    /// Returns the server that is this member of a position, or none if there is no such position or member.
    pub fn server(&self, position: u32, member: u8) -> Option<u8>
        ensures { result ≡ slice_get (layout_at self.now.object position).members member }
    {
        let position = self.positions.get(position as usize)?;
        let layout = position.layout();
        if member < layout.n() {
            Some(layout.member(member))
        } else {
            None
        }
    }

    /// Returns the value that the call of this number writes, or has settled, or none if there is no such call, or a
    /// read or a move has settled none yet.
    pub fn value_view(&self, call: CallId) -> Option<&Bytes>
        ensures { option_copied result ≡ value_at self.now.object call }
    {
        match index_of(&self.calls, call) {
            Ok(index) => self.calls[index].value(),
            Err(_) => None,
        }
    }
}

// The tag that a phase of this kind fetches, or the tag of the stage if it is no fetch.
fn viewed_tag(kind: Kind, stage: Stage) -> Option<Tag>
    ensures { result ≡ fetched_or kind (stage_tag stage) }
{
    match kind {
        Kind::Fetch(tag) => Some(tag),
        _ => stage_tag(stage),
    }
}
