//! The positions that a node has heard of.

ghost use Rattle.std.specs.Prelude.{◌≡◌, ◌==◌, [], ◌∷◌, None, IfOk, IfErr, OnOk, IsSome, MatchOption, option_copied};
ghost use Rattle.std.specs.Prelude.{ℕ, if◌then◌else◌, nat_lt, position, ◌-◌, ◌^◌, min, sum_by};
ghost use Rattle.tag.specs.declared.refusal.Refusal.TheVariants.{NoMemory};
ghost use Rattle.local_object.specs.Local.{added_place, bank_in, bank_or_opened, greatest_position, layout_in};
ghost use Rattle.local_object.specs.Local.{heard_place, with_bank_here};
ghost use Rattle.local_object.specs.ChangedBanks.{kept_bank};
ghost use Rattle.local_object.specs.KeptBanks.{after_closing, closing, kept_reply};
ghost use Rattle.local_object.specs.Changing.{place_bytes};
ghost use Rattle.local_object.specs.Distinct.{IsBankInOrderIfOpen, IsPlaceAt, KnowsStart};
ghost use Rattle.local_object.specs.New.{are_new_places};
ghost use Rattle.local_object.specs.Reports.{told_by};

use crate::kept_bank::KeptBank;
use crate::place::Place;
use crate::tellings::{opened_telling, told_of};
use bank::{Reply, Request};
use layout::Layout;
use letter::{SharedLayout, Telling};
use std::alloc::Global;
use std::marker::Model;
use tag::Refusal;

/// The positions of an object that a node has heard of, in the order in which it heard of them. Position 0 is among
/// them.
#[derive(Debug)]
pub struct Places {
    places: Vec<Place>,
}

impl Drop for Places {
    fn drop(self) {
        let Self { places: _ } = self;
    }
}

impl Model for Places {
    ghost use Rattle.std.specs.Prelude.{List};
    ghost use Rattle.std.specs.Coded.{coded_list};
    ghost use Rattle.local_object.specs.contracts.place.Place as heard;
    ghost use Rattle.local_object.specs.Local.{Place as Heard};
    ghost use Rattle.local_object.specs.Distinct.{KnowsFirst};

    ghost Value = { List Heard };

    ghost coded = { coded_list heard.the_row.coded };

    ghost view = { λ p. p.places.items };

    ghost invariant = { λ p. KnowsFirst p.places.items };
}

impl Places {
    /// Position 0 alone, with this layout. `NoMemory` is the only refusal.
    pub(crate) fn new(alloc: Global, first: Layout) -> Result<Places, Refusal>
        ensures places { IfOk result (λ p. p ≡ record { position = 0; layout = first; bank = None } ∷ []) }
        ensures refused { IfErr result (λ e. e ≡ NoMemory) }
    {
        let mut places = Vec::new(alloc);
        places.push(Place::new(0, SharedLayout::new(alloc, first)?))?;
        Ok(Places { places })
    }

    /// All positions, in the order in which the node heard of them.
    pub(crate) fn all(&self) -> &[Place]
        ensures { result.now ≡ self.now }
    {
        &self.places
    }

    /// Returns the layout of a position, if the node has heard of it. The number of the position has 64 bits, so that
    /// each position has a next one.
    pub(crate) fn layout_of(&self, position: u64) -> Option<&Layout>
        ensures { option_copied result ≡ layout_in (heard_place self.now position) }
    {
        match place_of(&self.places, position) {
            Some(index) => Some(self.places[index].layout()),
            None => None,
        }
    }

    /// Returns the same layout, to be shared.
    pub(crate) fn shared_layout_of(&self, position: u64) -> Option<&SharedLayout>
        ensures { option_copied result ≡ layout_in (heard_place self.now position) }
    {
        match place_of(&self.places, position) {
            Some(index) => Some(self.places[index].shared_layout()),
            None => None,
        }
    }

    /// The bank that the node keeps for a position, if a request has changed it.
    pub(crate) fn bank_of(&self, position: u32) -> Option<&KeptBank>
        ensures bank { option_copied result ≡ bank_in (heard_place self.now position) }
        ensures order { IsBankInOrderIfOpen (bank_in (heard_place self.now position)) }
    {
        match place_of(&self.places, u64::from(position)) {
            Some(index) => self.places[index].bank(),
            None => None,
        }
    }

    /// Returns whether position 0 with this layout, and without a bank, is the only position.
    pub(crate) fn are_new(&self, first: &Layout) -> bool
        ensures { result ≡ are_new_places first.now self.now }
    {
        self.places.len() == 1 && self.places[0].is_new(first)
    }

    /// The number of bytes of all pieces in the banks, or `u64::MAX` if there are more.
    pub(crate) fn bytes(&self) -> u64
        ensures { result ≡ min (sum_by place_bytes self.now) (2 ^ 64 - 1) }
    {
        bytes_of(&self.places)
    }

    /// Returns the last position that the node has heard of.
    pub(crate) fn last(&self) -> u32
        ensures last { result ≡ greatest_position self.now 0 }
        ensures known { IsSome (layout_in (heard_place self.now result)) }
    {
        last_of(&self.places)
    }

    /// The node hears of a position and its layout. Nothing changes if it had heard of it before. `NoMemory` is the
    /// only refusal.
    pub(crate) fn learn(&mut self, position: u32, layout: &SharedLayout) -> Result<(), Refusal>
        ensures places { OnOk result
            (self.new ≡ added_place self.old (heard_place self.old position) position layout.now) }

        ensures refused { IfErr result (λ e. e ≡ NoMemory) }
        ensures start { (start : ℕ) → KnowsStart self.old start → KnowsStart self.new start }
    {
        match place_of(&self.places, u64::from(position)) {
            Some(_) => Ok(()),
            None => {
                self.places.push(Place::new(position, layout.clone()?))?;
                Ok(())
            }
        }
    }

    /// The node's bank for a position serves a request as this member. A bank that this opens is kept if the request
    /// may change it. Returns none if the bank is closed and declines the request.
    ///
    /// `NoMemory` is the only refusal.
    pub(crate) fn serve(
        &mut self,
        position: u32,
        member: u8,
        delta: Option<u32>,
        request: &Request,
    ) -> Result<Option<Reply>, Refusal>
        requires known { IsSome (heard_place self.old position) }
        ensures places { OnOk result (self.new ≡ with_bank_here self.old position
            (kept_bank (bank_in (heard_place self.old position)) member delta request.now)) }

        ensures reply { IfOk result (λ r. r
            ≡ kept_reply (bank_or_opened (bank_in (heard_place self.old position)) member delta) request.now) }

        ensures refused { IfErr result (λ e. e ≡ NoMemory) }
        ensures start { (start : ℕ) → KnowsStart self.old start → KnowsStart self.new start }
    {
        let Some(index) = place_of(&self.places, u64::from(position)) else {
            unreachable!();
        };
        let alloc = *self.places.allocator();
        self.places[index].serve(alloc, member, delta, request)
    }

    /// What the node tells of its bank of a position as this member, with the piece if it is asked for. A bank that is
    /// not there counts as a newly opened one. `NoMemory` is the only refusal.
    pub(crate) fn tell(
        &self,
        position: u32,
        member: u8,
        delta: Option<u32>,
        asks_piece: bool,
    ) -> Result<Option<Telling>, Refusal>
        ensures told { IfOk result (λ t. t
            ≡ told_by (bank_or_opened (bank_in (heard_place self.now position)) member delta) asks_piece) }

        ensures refused { IfErr result (λ e. e ≡ NoMemory) }
    {
        match self.bank_of(position) {
            Some(bank) => told_of(bank, asks_piece),
            None => Ok(Some(opened_telling(member, delta, asks_piece))),
        }
    }

    /// The node closes its bank for a position, which is open and has a final pointer.
    pub(crate) fn close(&mut self, position: u32)
        requires open { IsSome (closing (bank_in (heard_place self.old position))) }
        ensures places { self.new
            ≡ with_bank_here self.old position (after_closing (bank_in (heard_place self.old position))) }

        ensures start { (start : ℕ) → KnowsStart self.old start → KnowsStart self.new start }
    {
        let Some(index) = place_of(&self.places, u64::from(position)) else {
            unreachable!();
        };
        self.places[index].close();
    }
}

// The number of bytes of all pieces in the banks of these places, or `u64::MAX` where it is greater.
fn bytes_of(places: &[Place]) -> u64
    ensures { result ≡ min (sum_by place_bytes places.now) (2 ^ 64 - 1) }
{
    let mut total: u64 = 0;
    for place in places {
        total = total.saturating_add(place.bytes());
    }
    total
}

// The greatest of these positions, or 0 where there are none.
fn last_of(places: &[Place]) -> u32
    ensures { result ≡ greatest_position places.now 0 }
{
    let mut greatest = 0;
    for place in places {
        greatest = later(greatest, place.position());
    }
    greatest
}

// The later of two positions.
fn later(a: u32, b: u32) -> u32
    ensures { result ≡ (if nat_lt a b then b else a) }
{
    if a < b { b } else { a }
}

// Where in the list a position is, if it is there.
fn place_of(places: &[Place], number: u64) -> Option<usize>
    ensures { MatchOption result (heard_place places.now number ≡ None) (IsPlaceAt places.now number) }
{
    first_of(places, number)
}

// The index of the first place with this position, if there is one.
fn first_of(places: &[Place], number: u64) -> Option<usize>
    ensures { result ≡ position (λ place. place.position == number) places.now }
{
    places
        .iter()
        .position(|place| u64::from(place.position()) == number)
}
