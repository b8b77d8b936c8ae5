//! The letters that lead to an object.
ghost use Rattle.std.specs.Prelude.{◌≡◌, ◌==◌, ◌++◌, suc, map, position, MatchOption, None, IfOk, IfErr, OnOk};
ghost use Rattle.tag.specs.declared.refusal.Refusal.TheVariants.{NoMemory};
ghost use Rattle.object_letters.specs.Requests.{requests_for};
ghost use Rattle.local_object.specs.Distinct.{IsPlaceAt};
ghost use Rattle.local_object.specs.Outcomes.{next_in_request};
ghost use Rattle.local_object.specs.Local.{heard_place, layout_here, layout_in};
ghost use Rattle.object_letters.specs.Letters.{letter_to, letters_as, place_letters};

use crate::requests_of;
use bank::{Request, Status};
use letter::{Letter, SharedLayout, Start};
use local_object::{KeptBank, LocalObject, Place};
use mail::{Body, Message};
use std::alloc::Global;
use tag::Refusal;

/// The letters that lead a new object of a node to this one, if the node serves them in their order, and then closes
/// the banks that this object has closed: the banks are then the same. Each letter tells the object's start. `number`
/// is that of the object's node. The object's calls are in no letter, nor are positions without a bank.
///
/// The pieces in the letters share their bytes with those of the banks. `NoMemory` is the only refusal.
pub fn letters_of(alloc: Global, number: u8, local: &LocalObject) -> Result<Vec<Letter>, Refusal>
    ensures letters { IfOk result (λ letters. letters.items ≡ letters_as number local.now) }
    ensures refused { IfErr result (λ e. e ≡ NoMemory) }
{
    let mut letters = Vec::new(alloc);
    for place in local.places() {
        push_place(alloc, &mut letters, number, local, place)?;
    }
    Ok(letters)
}

// Appends the letters that lead to what the node keeps in a place.
fn push_place(
    alloc: Global,
    letters: &mut Vec<Letter>,
    number: u8,
    local: &LocalObject,
    place: &Place,
) -> Result<(), Refusal>
    ensures letters { OnOk result
        (letters.new.items ≡ letters.old.items ++ place_letters number local.now place.now) }

    ensures refused { IfErr result (λ e. e ≡ NoMemory) }
{
    match (place.layout().point_of(number), place.bank()) {
        (Some(member), Some(bank)) => push_bank(alloc, letters, local, place, member, bank),
        _ => Ok(()),
    }
}

// Appends the letters that lead to the bank of a place.
fn push_bank(
    alloc: Global,
    letters: &mut Vec<Letter>,
    local: &LocalObject,
    place: &Place,
    member: u8,
    bank: &KeptBank,
) -> Result<(), Refusal>
    ensures letters { OnOk result
        (letters.new.items ≡ letters.old.items ++ map (letter_to local.now place.now member) (requests_for bank.now)) }

    ensures refused { IfErr result (λ e. e ≡ NoMemory) }
{
    let requests = requests_for(alloc, bank)?;
    for request in requests {
        letters.push(letter_for(local, place, member, request)?)?;
    }
    Ok(())
}

// The requests that lead a newly opened bank to what is kept of one.
fn requests_for(alloc: Global, bank: &KeptBank) -> Result<Vec<Request>, Refusal>
    ensures requests { IfOk result (λ requests. requests.items ≡ requests_for bank.now) }
    ensures refused { IfErr result (λ e. e ≡ NoMemory) }
{
    match bank {
        KeptBank::Open(bank) => requests_of(alloc, bank),
        KeptBank::Closed(closed) => {
            let mut requests = Vec::new(alloc);
            requests.push(Request::Spread(Status::Final))?;
            requests.push(Request::Finalize(closed.greatest()))?;
            Ok(requests)
        }
    }
}

/// The request as a letter to this member of a place. `NoMemory` is the only refusal.
pub(crate) fn letter_for(
    local: &LocalObject,
    place: &Place,
    member: u8,
    request: Request,
) -> Result<Letter, Refusal>
    ensures letter { IfOk result (λ letter. letter ≡ letter_to local.now place.now member request) }
    ensures refused { IfErr result (λ e. e ≡ NoMemory) }
{
    let next = next_for(local, place.position(), &request)?;
    Ok(Letter {
        layout: place.shared_layout().clone()?,
        next,
        start: told_start(local)?,
        asks_piece: false,
        told: None,
        message: Message {
            call: 0,
            phase: 0,
            position: place.position(),
            member,
            body: Body::Request(request),
        },
    })
}

// The start that the letters tell: that of the object, unless it is position 0.
fn told_start(local: &LocalObject) -> Result<Option<Start>, Refusal>
    ensures start { IfOk result (λ start. start ≡ Rattle.local_object.specs.Local.told_start local.now) }
    ensures refused { IfErr result (λ e. e ≡ NoMemory) }
{
    let position = local.start();
    let Some(layout) = layout_at(local.places(), u64::from(position))? else {
        return Ok(None);
    };
    if position == 0 {
        return Ok(None);
    }
    Ok(Some(Start { position, layout }))
}

// The layout of the next position, if the request says that there is one and the node has heard of it.
fn next_for(
    local: &LocalObject,
    position: u32,
    request: &Request,
) -> Result<Option<SharedLayout>, Refusal>
    ensures layout { IfOk result (λ layout. layout
        ≡ next_in_request request.now (layout_here local.now (suc position))) }

    ensures refused { IfErr result (λ e. e ≡ NoMemory) }
{
    match request {
        Request::Spread(Status::Pending) | Request::Spread(Status::Final) => {
            layout_at(local.places(), u64::from(position) + 1)
        }
        _ => Ok(None),
    }
}

// The layout of a position, if the node has heard of it.
fn layout_at(places: &[Place], position: u64) -> Result<Option<SharedLayout>, Refusal>
    ensures layout { IfOk result (λ layout. layout ≡ layout_in (heard_place places.now position)) }
    ensures refused { IfErr result (λ e. e ≡ NoMemory) }
{
    match index_of(places, position) {
        Some(index) => Ok(Some(places[index].shared_layout().clone()?)),
        None => Ok(None),
    }
}

/// Where in the list a position is, if it is there.
pub(crate) fn index_of(places: &[Place], position: u64) -> Option<usize>
    ensures { MatchOption result (heard_place places.now position ≡ None) (IsPlaceAt places.now position) }
{
    first_of(places, position)
}

// The index of the first place with this position, if there is one.
fn first_of(places: &[Place], number: u64) -> Option<usize>
    ensures { result ≡ position (λ place. place.position == number) places.now }
{
    places
        .iter()
        .position(|place| u64::from(place.position()) == number)
}
