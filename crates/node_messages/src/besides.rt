//! What a letter asks and tells besides its message.
ghost use Rattle.std.specs.Prelude.{◌≡◌};
ghost use Rattle.node_messages.specs.Besides.{
  asking,
  besides_from,
  last_besides,
  told_piece_in,
  told_status_in,
  told_with,
  told_with_string,
};
ghost use Rattle.node_messages.specs.Gives.{Agrees};
ghost use Rattle.node_messages.specs.Parts.{ending};

use crate::codes::read_status;
use crate::error::{Fault, MessageError};
use crate::fields::string_of;
use crate::places::{
    MARK_PLACE, Numbers, TOLD_LEN_PLACE, TOLD_POINT_PLACE, TOLD_STATUS_PLACE, byte_in, greatest_in,
    short_in,
};
use bank::Status;
use bytes::Bytes;
use letter::Telling;
use piece::Piece;

/// What a letter asks and tells besides its message.
#[derive(Drop)]
pub struct Besides {
    pub asks_piece: bool,
    pub told: Option<Telling>,
}

// What a letter asks and tells, unless strings are left.
fn ended(besides: Besides, rest: &[Bytes]) -> Result<Besides, MessageError>
    ensures { Agrees result (ending besides rest.now) }
{
    match rest {
        [] => Ok(besides),
        [_, ..] => Err(MessageError::Fault(Fault::WrongCount)),
    }
}

// A letter tells nothing, and asks for a piece or does not.
fn asking(asks_piece: bool) -> Besides
    ensures { result ≡ asking asks_piece }
{
    Besides {
        asks_piece,
        told: None,
    }
}

// The status that is told.
fn told_status_in(numbers: &Numbers) -> Result<Status, Fault>
    ensures { result ≡ told_status_in numbers.now }
{
    read_status(byte_in(TOLD_STATUS_PLACE, numbers))
}

// The piece that is told, which has these bytes.
fn told_piece_in(numbers: &Numbers, bytes: Bytes) -> Piece
    ensures { result ≡ told_piece_in numbers.now bytes }
{
    Piece {
        point: byte_in(TOLD_POINT_PLACE, numbers),
        len: short_in(TOLD_LEN_PLACE, numbers),
        bytes,
    }
}

// What a letter tells, with this piece, unless strings are left.
#[tactic(auto, unfolding(crate::specs::Besides::told_with))]
fn told_with(
    numbers: &Numbers,
    piece: Option<Piece>,
    rest: &[Bytes],
) -> Result<Besides, MessageError>
    ensures { Agrees result (told_with numbers.now piece rest.now) }
{
    let status = told_status_in(numbers)?;
    let telling = Telling {
        status,
        greatest: greatest_in(numbers),
        piece,
    };
    let besides = Besides {
        asks_piece: false,
        told: Some(telling),
    };
    ended(besides, rest)
}

// What a letter tells, with the piece whose bytes are the only string.
#[tactic(auto, unfolding(crate::specs::Besides::told_with_string))]
fn told_with_string(numbers: &Numbers, strings: &[Bytes]) -> Result<Besides, MessageError>
    ensures { Agrees result (told_with_string numbers.now strings.now) }
{
    let (bytes, rest) = string_of(strings)?;
    let bytes = bytes.clone()?;
    told_with(numbers, Some(told_piece_in(numbers, bytes)), rest)
}

// What a letter asks and tells, where this code says what that is.
#[tactic(auto, unfolding(crate::specs::Besides::besides_from))]
fn besides_of(code: u8, numbers: &Numbers, strings: &[Bytes]) -> Result<Besides, MessageError>
    ensures { Agrees result (besides_from code numbers.now strings.now) }
{
    match code {
        0 => ended(asking(false), strings),
        1 => ended(asking(true), strings),
        2 => told_with(numbers, None, strings),
        3 => told_with_string(numbers, strings),
        _ => Err(MessageError::Fault(Fault::UnknownCode)),
    }
}

/// Returns what a letter asks and tells besides its message, with these strings after those of its message.
pub(crate) fn last_besides(numbers: &Numbers, strings: &[Bytes]) -> Result<Besides, MessageError>
    ensures { Agrees result (last_besides numbers.now strings.now) }
{
    besides_of(byte_in(MARK_PLACE, numbers), numbers, strings)
}
