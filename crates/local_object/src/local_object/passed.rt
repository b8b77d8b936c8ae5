//! Banks of positions before the object's start.

ghost use Rattle.std.specs.Prelude.{◌≡◌, [], if◌then◌else◌, is_some, Some, None, IfOk, IfErr, OnOk, option_copied};
ghost use Rattle.tag.specs.declared.refusal.Refusal.TheVariants.{NoMemory};
ghost use Rattle.local_object.specs.Doing.{IsOutcome};
ghost use Rattle.local_object.specs.Local.{layout_here};
ghost use Rattle.local_object.specs.Passed.{can_raise, is_below_final, is_open, member_of, passed_in, passed_positions};
ghost use Rattle.local_object.specs.Passed.{raise_events};

use crate::LocalObject;
use crate::kept_bank::KeptBank;
use crate::place::Place;
use bank::{Request, Status};
use layout::Layout;
use tag::Refusal;

impl LocalObject {
    /// Returns the positions before the object's start at which the node keeps an open bank, in the order in which it
    /// heard of them. No call that begins from now on needs the pieces of these banks.
    ///
    /// `NoMemory` is the only refusal.
    pub fn passed_positions(&self) -> Result<Vec<u32>, Refusal>
        ensures positions { IfOk result (λ positions. positions.items ≡ passed_positions self.now) }
        ensures refused { IfErr result (λ e. e ≡ NoMemory) }
    {
        let start = self.start;
        let positions = self
            .places
            .all()
            .iter()
            .filter_map(|place| passed_in(start, place))
            .collect(self.alloc)?;
        Ok(positions)
    }

    /// Returns whether the node can raise the pointer of its bank of a position to final: whether the position is
    /// before the object's start, the node keeps an open bank there, whose pointer is not final, it is a member of the
    /// position, and it has heard of the next one. At each position before a start, the pointer is final at a quorum,
    /// so each member was asked to raise it.
    pub fn can_raise(&self, position: u32) -> bool
        ensures { result ≡ can_raise self.now position }
    {
        position < self.start
            && is_below_final(self.places.bank_of(position))
            && self.member_at(position).is_some()
            && self.places.layout_of(u64::from(position) + 1).is_some()
    }

    /// The node raises the pointer of its bank of a position to final. If it cannot do so, nothing changes.
    ///
    /// `NoMemory` is the only refusal.
    pub fn raise(&mut self, position: u32) -> Result<(), Refusal>
        ensures done { OnOk result (IsOutcome self.old (raise_events self.old position) self.new []) }
        ensures refused { IfErr result (λ e. e ≡ NoMemory) }
    {
        if !self.can_raise(position) {
            return Ok(());
        }
        let spread = Request::Spread(Status::Final);
        let _reply = self.places.serve(position, 0, self.delta, &spread)?;
        Ok(())
    }

    /// Returns the number of the node as a member of a position, if it has heard of the position, and is a member.
    pub fn member_at(&self, position: u32) -> Option<u8>
        ensures { result ≡ member_of (layout_here self.now position) self.now.node }
    {
        match self.places.layout_of(u64::from(position)) {
            Some(layout) => layout.point_of(self.node),
            None => None,
        }
    }
}

// The position of a place, if it is before this start, and the place has an open bank.
fn passed_in(start: u32, place: &Place) -> Option<u32>
    ensures { result ≡ passed_in start place.now }
{
    if place.position() < start && is_open(place.bank()) {
        Some(place.position())
    } else {
        None
    }
}

// Whether there is a bank, and it is open.
fn is_open(bank: Option<&KeptBank>) -> bool
    ensures { result ≡ is_open (option_copied bank.entry) }
{
    match bank {
        Some(KeptBank::Open(_)) => true,
        Some(KeptBank::Closed(_)) | None => false,
    }
}

// Whether there is a bank, it is open, and its pointer is not final.
fn is_below_final(bank: Option<&KeptBank>) -> bool
    ensures { result ≡ is_below_final (option_copied bank.entry) }
{
    match bank {
        Some(bank) => bank.is_changed_by(&Request::Spread(Status::Final)),
        None => false,
    }
}
