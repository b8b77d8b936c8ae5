//! Replies.
ghost use Rattle.std.specs.Prelude.{Ok};
ghost use Rattle.node_messages.specs.Gives.{Agrees, AgreesAs};
ghost use Rattle.node_messages.specs.Reading.{answer_from, reply_from};

use crate::bodies::status_in;
use crate::error::MessageError;
use crate::places::{Numbers, STEP_PLACE, long_in, tag_in};
use bank::{Answer, HeldPiece, Kind, Reply};
use piece::Piece;
use std::alloc::Global;

// A piece on the heap, if there is one.
fn held(alloc: Global, piece: Option<Piece>) -> Result<Option<HeldPiece>, MessageError>
    ensures { AgreesAs (λ h. h) result (Ok piece) }
{
    let Some(piece) = piece else {
        return Ok(None);
    };
    match HeldPiece::new(alloc, piece) {
        Ok(held) => Ok(Some(held)),
        Err(_) => Err(MessageError::NoMemory),
    }
}

// An answer to a request of this kind.
#[tactic(auto, unfolding(crate::specs::Reading::answer_from))]
fn answer_of(
    alloc: Global,
    kind: Kind,
    numbers: &Numbers,
    piece: Option<Piece>,
) -> Result<Answer, MessageError>
    ensures { Agrees result (answer_from kind numbers.now piece) }
{
    match kind {
        Kind::Next => Ok(Answer::Pointer(status_in(numbers)?)),
        Kind::Spread(_) | Kind::PreWrite(_) | Kind::Finalize(_) => Ok(Answer::Done),
        Kind::Query => Ok(Answer::Greatest(tag_in(numbers))),
        Kind::Fetch(_) => Ok(Answer::Piece(held(alloc, piece)?)),
    }
}

/// Returns a reply to a request of this kind with this piece.
#[tactic(auto, unfolding(crate::specs::Reading::reply_from))]
pub(crate) fn reply_of(
    alloc: Global,
    kind: Kind,
    numbers: &Numbers,
    piece: Option<Piece>,
) -> Result<Reply, MessageError>
    ensures { Agrees result (reply_from kind numbers.now piece) }
{
    let answer = answer_of(alloc, kind, numbers, piece)?;
    Ok(Reply {
        step: long_in(STEP_PLACE, numbers),
        answer,
    })
}
