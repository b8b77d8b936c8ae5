//! What a node keeps of an object at the last position of which it has heard.
ghost use Rattle.std.specs.Prelude.{◌≡◌, ◌==◌, if◌then◌else◌, nat_lt, position, MatchOption, None, option_copied};
ghost use Rattle.bank.specs.Serve.{greatest_final};
ghost use Rattle.local_object.specs.Distinct.{IsPlaceAt};
ghost use Rattle.local_object.specs.Local.{greatest_position, heard_place};
ghost use Rattle.node_keeper.specs.Objects.{first_layout_of};
ghost use Rattle.node_keeper.specs.Written.{greatest_kept, has_written, is_written, last_known, last_place};

use super::Objects;
use bank::{Answer, Bank};
use bytes::Bytes;
use local_object::{KeptBank, LocalObject, Place};
use tag::Tag;

impl Objects {
    /// Returns what the node keeps of the object of a name for the last position of which it has heard. None if it has
    /// not heard of the object: then this is position 0, with the layout that placement gives the name.
    pub fn last_known(&self, name: &Bytes) -> Option<&Place>
        ensures { MatchOption result
            (last_known self.now name.now
            ≡ record { position = 0; layout = first_layout_of self.now name.now; bank = None })
            (λ place. last_known self.now name.now ≡ place.now) }
    {
        match self.by_name.get(name) {
            Some(object) => last_place(object),
            None => None,
        }
    }
}

/// Returns whether the node keeps a written version of an object in its bank of the last position of which it has
/// heard.
pub(super) fn is_written(object: &LocalObject) -> bool
    ensures { result ≡ is_written object.now }
{
    match last_place(object) {
        Some(place) => has_written(place.bank()),
        None => false,
    }
}

// Whether there is a bank, and it has finalized a version that was written.
fn has_written(bank: Option<&KeptBank>) -> bool
    ensures { result ≡ has_written (option_copied bank.entry) }
{
    match bank {
        Some(bank) => !greatest_kept(bank).is(Tag::OPENING),
        None => false,
    }
}

// The greatest tag that a bank, open or closed, has finalized.
fn greatest_kept(bank: &KeptBank) -> Tag
    ensures { result ≡ greatest_kept bank.now }
{
    match bank {
        KeptBank::Open(bank) => greatest_of(bank),
        KeptBank::Closed(closed) => closed.greatest(),
    }
}

// The greatest finalized tag of an open bank.
fn greatest_of(bank: &Bank) -> Tag
    ensures { result ≡ greatest_final bank.now }
{
    match bank.query(0).answer {
        Answer::Greatest(tag) => tag,
        _ => Tag::OPENING,
    }
}

// The place of the last position of which the node has heard. There always is one, though this clause does not say so.
fn last_place(object: &LocalObject) -> Option<&Place>
    ensures { option_copied result ≡ last_place object.now }
{
    place_of(object.places(), last_of(object.places()))
}

/// Returns the first place with this position, if there is one.
pub(super) fn place_of(places: &[Place], number: u32) -> Option<&Place>
    ensures { option_copied result ≡ heard_place places.now number }
{
    match index_of(places, number) {
        Some(index) => Some(&places[index]),
        None => None,
    }
}

// Where in the list the first place with this position is, if there is one.
fn index_of(places: &[Place], number: u32) -> Option<usize>
    ensures { MatchOption result (heard_place places.now number ≡ None) (IsPlaceAt places.now number) }
{
    first_of(places, number)
}

// The index of the first place with this position, if there is one.
fn first_of(places: &[Place], number: u32) -> Option<usize>
    ensures { result ≡ position (λ place. place.position == number) places.now }
{
    places.iter().position(|place| place.position() == number)
}

// The greatest of these positions, or 0 if there are none.
fn last_of(places: &[Place]) -> u32
    ensures { result ≡ greatest_position places.now 0 }
{
    let mut greatest = 0;
    for place in places {
        greatest = later(greatest, place.position());
    }
    greatest
}

// The later of two positions.
fn later(a: u32, b: u32) -> u32
    ensures { result ≡ (if nat_lt a b then b else a) }
{
    if a < b { b } else { a }
}
