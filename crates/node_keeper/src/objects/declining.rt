//! Requests that the node serves, and to which its closed bank sends no reply.
ghost use Rattle.std.specs.Prelude.{◌≡◌, ◌+◌, ◌^◌, nat_lt, true, option_copied, Some};
ghost use Rattle.local_object.specs.Doing.{has_member};
ghost use Rattle.local_object.specs.Local.{layout_here};
ghost use Rattle.object_letters.specs.Closing.{is_closed};
ghost use Rattle.node_keeper.specs.Declining.{declines, fetches};
ghost use Rattle.node_keeper.specs.Objects.{objects_of};

use super::Objects;
use super::last::place_of;
use bank::Request;
use bytes::Bytes;
use layout::Layout;
use letter::Letter;
use local_object::{KeptBank, LocalObject};
use mail::Body;

impl Objects {
    /// Returns whether the node serves a letter about the object of a name, and its bank sends no reply, since it is
    /// closed, and the letter fetches a piece. It allocates no memory.
    pub fn declines(&self, name: &Bytes, letter: &Letter) -> bool
        ensures { result ≡ declines (objects_of self.now name.now) letter.now }
    {
        if !fetches(letter) {
            return false;
        }
        match self.by_name.get(name) {
            Some(object) => declines(object, letter),
            None => false,
        }
    }
}

// Whether the node serves a letter, which fetches a piece, and its bank is closed.
fn declines(object: &LocalObject, letter: &Letter) -> bool
    requires { fetches letter.now.message.body ≡ true }
    ensures { result ≡ declines object.now letter.now }
{
    if !has_next(letter.message.position) {
        return false;
    }
    match place_of(object.places(), letter.message.position) {
        Some(place) => {
            is_closed(place.bank())
                && is_member(
                    object,
                    letter.message.position,
                    place.layout(),
                    letter.message.member,
                )
        }
        None => false,
    }
}

// Whether the node is the member with this number of a position, which has this layout.
fn is_member(object: &LocalObject, position: u32, layout: &Layout, member: u8) -> bool
    requires { layout_here object.now position ≡ Some layout.now }
    ensures { result ≡ has_member layout.now member object.now.node }
{
    if member >= layout.n() {
        return false;
    }
    match object.member_at(position) {
        Some(own) => own == member,
        None => false,
    }
}

// Whether there is a bank, and it is closed.
fn is_closed(bank: Option<&KeptBank>) -> bool
    ensures { result ≡ is_closed (option_copied bank.entry) }
{
    match bank {
        Some(KeptBank::Closed(_)) => true,
        Some(KeptBank::Open(_)) | None => false,
    }
}

// Whether a letter fetches a piece.
fn fetches(letter: &Letter) -> bool
    ensures { result ≡ fetches letter.now.message.body }
{
    match &letter.message.body {
        Body::Request(Request::Fetch(_)) => true,
        _ => false,
    }
}

// Whether there is a number for the position after this one.
fn has_next(position: u32) -> bool
    ensures { result ≡ nat_lt (position + 1) (2 ^ 32) }
{
    position < u32::MAX
}
