//! How many open banks a node keeps, how many tags they know, and how many closed banks it keeps.
ghost use Rattle.std.specs.Prelude.{◌≡◌, ◌-◌, ◌^◌, min, sum_by};
ghost use Rattle.node_keeper.specs.Sizes.{closed_banks, known_tags, open_banks, place_banks, place_closed, place_tags};

use super::Objects;
use local_object::{KeptBank, Place};

impl Objects {
    /// Returns how many open banks the node keeps, or `u64::MAX` if there are more. An object has at most one for each
    /// of its positions. It takes time linear in the number of positions of all objects in the map.
    pub fn open_banks(&self) -> u64
        ensures { result ≡ min (open_banks self.now) (2 ^ 64 - 1) }
    {
        let mut banks = 0u64;
        for object in self.by_name.values() {
            banks = banks.saturating_add(banks_in(object.places()));
        }
        banks
    }

    /// Returns how many closed banks the node keeps, or `u64::MAX` if there are more. An object has at most one for
    /// each of its positions. It takes time linear in the number of positions of all objects in the map.
    pub fn closed_banks(&self) -> u64
        ensures { result ≡ min (closed_banks self.now) (2 ^ 64 - 1) }
    {
        let mut closed = 0u64;
        for object in self.by_name.values() {
            closed = closed.saturating_add(closed_in(object.places()));
        }
        closed
    }

    /// Returns how many tags the open banks know, or `u64::MAX` if there are more. It takes time linear in the number
    /// of positions of all objects in the map.
    pub fn known_tags(&self) -> u64
        ensures { result ≡ min (known_tags self.now) (2 ^ 64 - 1) }
    {
        let mut tags = 0u64;
        for object in self.by_name.values() {
            tags = tags.saturating_add(tags_in(object.places()));
        }
        tags
    }
}

// How many open banks there are in these places, or `u64::MAX` if there are more.
fn banks_in(places: &[Place]) -> u64
    ensures { result ≡ min (sum_by place_banks places.now) (2 ^ 64 - 1) }
{
    let mut banks = 0u64;
    for place in places {
        banks = banks.saturating_add(banks_of(place));
    }
    banks
}

// How many closed banks there are in these places, or `u64::MAX` if there are more.
fn closed_in(places: &[Place]) -> u64
    ensures { result ≡ min (sum_by place_closed places.now) (2 ^ 64 - 1) }
{
    let mut closed = 0u64;
    for place in places {
        closed = closed.saturating_add(closed_of(place));
    }
    closed
}

/// Returns how many tags the open banks in these places know, or `u64::MAX` if there are more.
pub(crate) fn tags_in(places: &[Place]) -> u64
    ensures { result ≡ min (sum_by place_tags places.now) (2 ^ 64 - 1) }
{
    let mut tags = 0u64;
    for place in places {
        tags = tags.saturating_add(tags_of(place));
    }
    tags
}

// How many open banks a place has: one or none.
fn banks_of(place: &Place) -> u64
    ensures { result ≡ place_banks place.now }
{
    match place.bank() {
        Some(KeptBank::Open(_)) => 1,
        Some(KeptBank::Closed(_)) | None => 0,
    }
}

// How many closed banks a place has: one or none.
fn closed_of(place: &Place) -> u64
    ensures { result ≡ place_closed place.now }
{
    match place.bank() {
        Some(KeptBank::Closed(_)) => 1,
        Some(KeptBank::Open(_)) | None => 0,
    }
}

// How many tags the bank of a place knows, if it is open.
fn tags_of(place: &Place) -> u64
    ensures { result ≡ place_tags place.now }
{
    match place.bank() {
        Some(KeptBank::Open(bank)) => bank.count() as u64,
        Some(KeptBank::Closed(_)) | None => 0,
    }
}
