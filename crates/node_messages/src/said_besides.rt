//! What a head says of what a letter asks and tells besides its message.
ghost use Rattle.std.specs.Prelude.{◌≡◌, IfSome, Some};
ghost use Rattle.node_messages.specs.Codes.{asking_code};
ghost use Rattle.node_messages.specs.Head.{said_besides, said_of_asking, said_of_facts, with_told_piece};
ghost use Rattle.node_messages.specs.Message.{IsPiece, IsTag, IsTelling};

use crate::codes::status_code;
use bank::Status;
use letter::Telling;
use piece::Piece;
use tag::Tag;

/// What a head says of what a letter asks and tells besides its message. What the letter does not have is zero.
#[derive(Clone, Copy)]
pub struct SaidBesides {
    /// 0 if the letter asks for no piece and tells nothing, 1 if it asks for the piece of the member's greatest
    /// finalized tag, 2 if it tells no piece, and 3 if it tells one.
    pub mark: u8,
    /// The code of the status that is told.
    pub status: u8,
    /// The greatest finalized tag that is told.
    pub greatest: Tag,
    /// The point of the piece that is told.
    pub point: u8,
    /// The length of this piece's value.
    pub len: u32,
}

// The code of a letter that tells nothing: whether it asks for a piece.
fn asking_code(asks_piece: bool) -> u8
    ensures { result ≡ asking_code asks_piece }
{
    if asks_piece { 1 } else { 0 }
}

// What a head says of a letter that tells nothing.
fn said_of_asking(asks_piece: bool) -> SaidBesides
    ensures { result ≡ said_of_asking asks_piece }
{
    SaidBesides {
        mark: asking_code(asks_piece),
        status: 0,
        greatest: Tag { number: 0, call: 0 },
        point: 0,
        len: 0,
    }
}

// What a head says of a telling of this status and this greatest tag, without a piece.
fn said_of_facts(status: Status, greatest: Tag) -> SaidBesides
    ensures said { result ≡ said_of_facts status greatest }
    ensures fits { IsTag greatest }
{
    SaidBesides {
        mark: 2,
        status: status_code(status),
        greatest,
        point: 0,
        len: 0,
    }
}

// What a head says, with the point of the told piece and the length of its value.
fn with_piece(piece: &Piece, said: SaidBesides) -> SaidBesides
    ensures said { result ≡ with_told_piece (Some piece.now) said }
    ensures fits { IsPiece piece.now }
{
    let (point, len) = (piece.point, piece.len);
    SaidBesides {
        mark: 3,
        point,
        len,
        ..said
    }
}

// What a head says, with the point of the told piece and the length of its value, if a piece is told.
fn with_told_piece(piece: &Option<Piece>, said: SaidBesides) -> SaidBesides
    ensures said { result ≡ with_told_piece piece.now said }
    ensures fits { IfSome piece.now IsPiece }
{
    match piece {
        Some(piece) => with_piece(piece, said),
        None => said,
    }
}

/// Returns what a head says of whether a letter asks for a piece, and of what it tells.
pub(crate) fn said_besides(asks_piece: bool, told: &Option<Telling>) -> SaidBesides
    ensures said { result ≡ said_besides asks_piece told.now }
    ensures fits { IfSome told.now IsTelling }
{
    match told {
        Some(telling) => with_told_piece(
            &telling.piece,
            said_of_facts(telling.status, telling.greatest),
        ),
        None => said_of_asking(asks_piece),
    }
}
