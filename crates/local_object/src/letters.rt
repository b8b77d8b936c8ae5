//! Messages as letters, with the layouts that their receivers may not have heard of.

ghost use Rattle.std.specs.Prelude.{◌≡◌, suc, map, is_some, IfOk, IfErr};
ghost use Rattle.tag.specs.declared.refusal.Refusal.TheVariants.{NoMemory};
ghost use Rattle.local_object.specs.Local.{layout_in, heard_place, told_start_in};
ghost use Rattle.local_object.specs.Letters.{letter_in};
ghost use Rattle.local_object.specs.Taking.{knows_next};
ghost use Rattle.mail.specs.Message.{names_next, status_names_next};

use crate::places::Places;
use bank::{Answer, Kind, Request, Status};
use letter::{Letter, SharedLayout, Start, Telling};
use mail::{Body, Message};
use std::alloc::Global;
use tag::Refusal;

/// Returns whether a phase of this kind does not say that there is a next position, or the node has heard of that
/// position.
pub(crate) fn knows_next(places: &Places, kind: Kind, position: u32) -> bool
    ensures { result ≡ knows_next places.now kind position }
{
    match kind {
        Kind::Spread(status) => !status_names_next(status) || is_known_after(places, position),
        _ => true,
    }
}

// Whether the node has heard of the position after this one.
fn is_known_after(places: &Places, position: u32) -> bool
    ensures { result ≡ is_some (layout_in (heard_place places.now (suc position))) }
{
    places.layout_of(u64::from(position) + 1).is_some()
}

/// Returns a letter for each message to or from members of a position with this layout, from a node with this start.
/// The letters ask for the members' pieces, too, if `asks_piece` is true.
///
/// `NoMemory` is the only refusal.
pub(crate) fn letters_of(
    alloc: Global,
    places: &Places,
    start: u32,
    asks_piece: bool,
    layout: &SharedLayout,
    messages: Vec<Message>,
) -> Result<Vec<Letter>, Refusal>
    ensures letters { IfOk result (λ ls.
        ls.items ≡ map (letter_in places.now start asks_piece layout.now) messages.items) }

    ensures refused { IfErr result (λ e. e ≡ NoMemory) }
{
    let mut letters = Vec::with_capacity(alloc, messages.len())?;
    for message in messages {
        letters.push(letter_of(places, start, asks_piece, layout.clone()?, message)?)?;
    }
    Ok(letters)
}

/// The message as a letter: with the layout of its position, that of the next position if the message says that there
/// is one, and the node's start. It asks for the member's piece, too, if `asks_piece` is true, and tells nothing.
///
/// `NoMemory` is the only refusal.
pub(crate) fn letter_of(
    places: &Places,
    start: u32,
    asks_piece: bool,
    layout: SharedLayout,
    message: Message,
) -> Result<Letter, Refusal>
    ensures letter { IfOk result (λ l. l ≡ letter_in places.now start asks_piece layout message) }
    ensures refused { IfErr result (λ e. e ≡ NoMemory) }
{
    let next = if names_next(&message.body) {
        next_layout(places, message.position)?
    } else {
        None
    };
    Ok(Letter {
        layout,
        next,
        start: told_start(places, start)?,
        asks_piece,
        told: None,
        message,
    })
}

/// The letter, as one that tells this.
pub(crate) fn with_told(letter: Letter, told: Option<Telling>) -> Letter
    ensures { result ≡ record letter { told = told } }
{
    Letter { told, ..letter }
}

/// The start of which a node tells others: this one with its layout, unless it is position 0. `NoMemory` is the only
/// refusal.
pub(crate) fn told_start(places: &Places, start: u32) -> Result<Option<Start>, Refusal>
    ensures start { IfOk result (λ s. s ≡ told_start_in places.now start) }
    ensures refused { IfErr result (λ e. e ≡ NoMemory) }
{
    if start == 0 {
        return Ok(None);
    }
    match places.shared_layout_of(u64::from(start)) {
        Some(layout) => Ok(Some(Start {
            position: start,
            layout: layout.clone()?,
        })),
        None => Ok(None),
    }
}

// The layout of the position after this one, if the node has heard of it.
fn next_layout(places: &Places, position: u32) -> Result<Option<SharedLayout>, Refusal>
    ensures layout { IfOk result (λ l. l ≡ layout_in (heard_place places.now (suc position))) }
    ensures refused { IfErr result (λ e. e ≡ NoMemory) }
{
    match places.shared_layout_of(u64::from(position) + 1) {
        Some(layout) => Ok(Some(layout.clone()?)),
        None => Ok(None),
    }
}

// Whether a message with this body says that there is a next position.
fn names_next(body: &Body) -> bool
    ensures { result ≡ names_next body.now }
{
    match body {
        Body::Request(Request::Spread(status)) => status_names_next(*status),
        Body::Reply { kind: _, reply } => match &reply.answer {
            Answer::Pointer(status) => status_names_next(*status),
            _ => false,
        },
        _ => false,
    }
}

// Whether a pointer with this status says that there is a next position.
fn status_names_next(status: Status) -> bool
    ensures { result ≡ status_names_next status }
{
    match status {
        Status::Unset => false,
        Status::Pending | Status::Final => true,
    }
}
