//! The kind of a request, and requests.
ghost use Rattle.std.specs.Prelude.{◌≡◌};
ghost use Rattle.node_messages.specs.Gives.{Agrees};
ghost use Rattle.node_messages.specs.Reading.{
  body_from,
  body_of_kind,
  kind_from,
  pre_write_of,
  request_from,
  status_in,
  tagged_from,
};

use crate::answers::reply_of;
use crate::codes::{read_flag, read_status};
use crate::error::{Fault, MessageError};
use crate::places::{KIND_PLACE, Numbers, ROLE_PLACE, STATUS_PLACE, byte_in, tag_in};
use bank::{Kind, Request, Status};
use mail::Body;
use piece::Piece;
use std::alloc::Global;
use tag::Tag;

/// Returns the status that the numbers say.
pub(crate) fn status_in(numbers: &Numbers) -> Result<Status, Fault>
    ensures { result ≡ status_in numbers.now }
{
    read_status(byte_in(STATUS_PLACE, numbers))
}

// A kind that has a tag.
#[tactic(auto, unfolding(crate::specs::Reading::tagged_from))]
fn tagged_of(code: u8, tag: Tag) -> Result<Kind, Fault>
    ensures { result ≡ tagged_from code tag }
{
    match code {
        3 => Ok(Kind::PreWrite(tag)),
        4 => Ok(Kind::Finalize(tag)),
        5 => Ok(Kind::Fetch(tag)),
        _ => Err(Fault::UnknownCode),
    }
}

// The kind that has this code.
#[tactic(auto, unfolding(crate::specs::Reading::kind_from))]
fn kind_of(code: u8, numbers: &Numbers) -> Result<Kind, Fault>
    ensures { result ≡ kind_from code numbers.now }
{
    match code {
        0 => Ok(Kind::Next),
        1 => Ok(Kind::Spread(status_in(numbers)?)),
        2 => Ok(Kind::Query),
        _ => tagged_of(code, tag_in(numbers)),
    }
}

// A request to pre-write a piece.
fn pre_write_of(tag: Tag, piece: Option<Piece>) -> Result<Request, Fault>
    ensures { result ≡ pre_write_of tag piece }
{
    match piece {
        Some(piece) => Ok(Request::PreWrite(tag, piece)),
        None => Err(Fault::NoPiece),
    }
}

// A request of this kind.
#[tactic(auto, unfolding(crate::specs::Reading::request_from))]
fn request_of(kind: Kind, piece: Option<Piece>) -> Result<Request, Fault>
    ensures { result ≡ request_from kind piece }
{
    match kind {
        Kind::Next => Ok(Request::Next),
        Kind::Spread(status) => Ok(Request::Spread(status)),
        Kind::Query => Ok(Request::Query),
        Kind::PreWrite(tag) => pre_write_of(tag, piece),
        Kind::Finalize(tag) => Ok(Request::Finalize(tag)),
        Kind::Fetch(tag) => Ok(Request::Fetch(tag)),
    }
}

// A reply or a request, with this kind.
#[tactic(auto, unfolding(crate::specs::Reading::body_of_kind))]
fn body_of_kind(
    alloc: Global,
    is_reply: bool,
    kind: Kind,
    numbers: &Numbers,
    piece: Option<Piece>,
) -> Result<Body, MessageError>
    ensures { Agrees result (body_of_kind is_reply kind numbers.now piece) }
{
    if is_reply {
        let reply = reply_of(alloc, kind, numbers, piece)?;
        Ok(Body::Reply { kind, reply })
    } else {
        let request = request_of(kind, piece)?;
        Ok(Body::Request(request))
    }
}

/// Returns the body of a message with this piece.
#[tactic(auto, unfolding(crate::specs::Reading::body_from))]
pub(crate) fn body_of(
    alloc: Global,
    numbers: &Numbers,
    piece: Option<Piece>,
) -> Result<Body, MessageError>
    ensures { Agrees result (body_from numbers.now piece) }
{
    let is_reply = read_flag(byte_in(ROLE_PLACE, numbers))?;
    let kind = kind_of(byte_in(KIND_PLACE, numbers), numbers)?;
    body_of_kind(alloc, is_reply, kind, numbers, piece)
}
