//! The strings of a message, and the parts of its head.
ghost use Rattle.std.specs.Prelude.{◌≡◌};
ghost use Rattle.node_messages.specs.Gives.{AgreesAs};
ghost use Rattle.node_messages.specs.Parts.{
  first_name,
  first_piece,
  first_string,
  parts_of,
  piece_if,
  piece_in,
  split_bytes,
};

use crate::codes::read_flag;
use crate::error::{Fault, MessageError};
use crate::places::{
    FORM, FORM_PLACE, LEN_PLACE, NUMBERS_LENGTH, Numbers, PIECE_PLACE, POINT_PLACE, byte_in,
    short_in,
};
use bytes::Bytes;
use cluster_file::DIGEST_LENGTH;
use piece::Piece;
use tag::LONGEST_NAME;

/// Reads the first string.
#[tactic(auto, unfolding(crate::specs::Parts::first_string))]
pub(crate) fn string_of(strings: &[Bytes]) -> Result<(&Bytes, &[Bytes]), MessageError>
    ensures { AgreesAs (λ x. (x.0.now, x.1.now)) result (first_string strings.now) }
{
    match strings {
        [first, rest @ ..] => Ok((first, rest)),
        [] => Err(MessageError::Fault(Fault::WrongCount)),
    }
}

/// Reads a name from the front of the strings.
#[tactic(auto, unfolding(crate::specs::Parts::first_name))]
pub(crate) fn name_of(strings: &[Bytes]) -> Result<(&Bytes, &[Bytes]), MessageError>
    ensures { AgreesAs (λ x. (x.0.now, x.1.now)) result (first_name strings.now) }
{
    let (string, rest) = string_of(strings)?;
    if string.len() > LONGEST_NAME {
        return Err(MessageError::Fault(Fault::NameTooLong));
    }
    Ok((string, rest))
}

// The first bytes, and those behind them.
#[tactic(auto, unfolding(crate::specs::Parts::split_bytes))]
fn split_bytes<const N: usize>(bytes: &[u8]) -> Result<(&[u8; N], &[u8]), MessageError>
    ensures { AgreesAs (λ x. (x.0.now, x.1.now)) result (split_bytes N bytes.now) }
{
    match bytes.split_first_chunk::<N>() {
        Some((first, rest)) => Ok((first, rest)),
        None => Err(MessageError::Fault(Fault::OtherForm)),
    }
}

/// The parts of a head: its numbers, the digest, and the bytes of the layouts.
pub(crate) type Parts<'a> = (&'a Numbers, &'a [u8; DIGEST_LENGTH], &'a [u8]);

/// Returns the parts of a head.
#[tactic(auto, unfolding(crate::specs::Parts::parts_of))]
pub(crate) fn parts_of(head: &[u8]) -> Result<Parts<'_>, MessageError>
    ensures { AgreesAs (λ x. (x.0.now, x.1.now, x.2.now)) result (parts_of head.now) }
{
    let (numbers, rest) = split_bytes::<NUMBERS_LENGTH>(head)?;
    let (digest, layouts) = split_bytes::<DIGEST_LENGTH>(rest)?;
    if byte_in(FORM_PLACE, numbers) != FORM {
        return Err(MessageError::Fault(Fault::OtherForm));
    }
    Ok((numbers, digest, layouts))
}

// The piece that has these bytes.
fn piece_in(numbers: &Numbers, bytes: Bytes) -> Piece
    ensures { result ≡ piece_in numbers.now bytes }
{
    Piece {
        point: byte_in(POINT_PLACE, numbers),
        len: short_in(LEN_PLACE, numbers),
        bytes,
    }
}

// The piece whose bytes are the first string, or none.
#[tactic(auto, unfolding(crate::specs::Parts::piece_if))]
fn piece_if<'a>(
    is_piece: bool,
    numbers: &Numbers,
    strings: &'a [Bytes],
) -> Result<(Option<Piece>, &'a [Bytes]), MessageError>
    ensures { AgreesAs (λ x. (x.0, x.1.now)) result (piece_if is_piece numbers.now strings.now) }
{
    if !is_piece {
        return Ok((None, strings));
    }
    let (bytes, rest) = string_of(strings)?;
    let bytes = bytes.clone()?;
    Ok((Some(piece_in(numbers, bytes)), rest))
}

/// Returns the piece whose bytes are the first string, or none, as the numbers say; and the strings behind it.
#[tactic(auto, unfolding(crate::specs::Parts::first_piece))]
pub(crate) fn first_piece<'a>(
    numbers: &Numbers,
    strings: &'a [Bytes],
) -> Result<(Option<Piece>, &'a [Bytes]), MessageError>
    ensures { AgreesAs (λ x. (x.0, x.1.now)) result (first_piece numbers.now strings.now) }
{
    let is_piece = read_flag(byte_in(PIECE_PLACE, numbers))?;
    piece_if(is_piece, numbers, strings)
}
