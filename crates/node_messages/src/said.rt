//! What a head says of the body of a message.
ghost use Rattle.std.specs.Prelude.{◌≡◌, ◌<◌, ◌^◌, Some};
ghost use Rattle.bank.specs.Serve.{kind_of};
ghost use Rattle.node_messages.specs.Head.{kind_status, kind_tag, request_piece, said_of, said_of_kind, with_answer};
ghost use Rattle.node_messages.specs.Head.{with_piece};
ghost use Rattle.node_messages.specs.Message.{HasFittingPiece, IsAnswer, IsKind, IsPiece, IsTag, IsWithinBits};

use crate::codes::{kind_code, status_code};
use bank::{Answer, Kind, Reply, Request};
use mail::Body;
use piece::Piece;
use tag::Tag;

/// What a head says of the body of a message. What the body does not have is zero.
#[derive(Clone, Copy)]
pub struct Said {
    /// 0 for a request, and 1 for a reply.
    pub is_reply: u8,
    /// The code of the kind.
    pub kind: u8,
    /// The code of the status of the kind or of the answer.
    pub status: u8,
    /// The tag of the kind or of the answer.
    pub tag: Tag,
    /// The step of a reply.
    pub step: u64,
    /// 1 if there is a piece, and otherwise 0.
    pub is_piece: u8,
    /// The point of the piece.
    pub point: u8,
    /// The length of the piece's value.
    pub len: u32,
}

// The tag of a kind, or zeros.
fn kind_tag(kind: Kind) -> Tag
    ensures { result ≡ kind_tag kind }
{
    match kind {
        Kind::Next | Kind::Spread(_) | Kind::Query => Tag { number: 0, call: 0 },
        Kind::PreWrite(tag) | Kind::Finalize(tag) | Kind::Fetch(tag) => tag,
    }
}

// The code of the status of a kind, or zero.
fn kind_status(kind: Kind) -> u8
    ensures { result ≡ kind_status kind }
{
    match kind {
        Kind::Spread(status) => status_code(status),
        Kind::Next | Kind::Query | Kind::PreWrite(_) | Kind::Finalize(_) | Kind::Fetch(_) => 0,
    }
}

// What a head says of a kind of request, without a piece.
fn said_of_kind(kind: Kind) -> Said
    ensures said { result ≡ said_of_kind kind }
    ensures fits { IsKind kind }
{
    Said {
        is_reply: 0,
        kind: kind_code(kind),
        status: kind_status(kind),
        tag: kind_tag(kind),
        step: 0,
        is_piece: 0,
        point: 0,
        len: 0,
    }
}

// What a head says, with the point of a piece and the length of its value.
fn with_piece(piece: &Piece, said: Said) -> Said
    ensures said { result ≡ with_piece (Some piece.now) said }
    ensures fits { IsPiece piece.now }
{
    let (point, len) = (piece.point, piece.len);
    Said {
        is_piece: 1,
        point,
        len,
        ..said
    }
}

// What a head says of a request.
fn said_of_request(request: &Request) -> Said
    ensures said { result ≡ with_piece (request_piece request.now) (said_of_kind (kind_of request.now)) }
    ensures kind { IsKind (kind_of request.now) }
    ensures piece { HasFittingPiece request.now }
{
    let said = said_of_kind(request.kind());
    match request {
        Request::PreWrite(_, piece) => with_piece(piece, said),
        _ => said,
    }
}

// What a head says, with this tag.
fn with_tag(tag: Tag, said: Said) -> Said
    ensures said { result ≡ record said { tag = tag } }
    ensures fits { IsTag tag }
{
    Said { tag, ..said }
}

// What a head says, with the status, the tag or the piece of an answer.
fn with_answer(answer: &Answer, said: Said) -> Said
    ensures said { result ≡ with_answer answer.now said }
    ensures fits { IsAnswer answer.now }
{
    match answer {
        Answer::Done | Answer::Piece(None) => said,
        Answer::Pointer(status) => Said {
            status: status_code(*status),
            ..said
        },
        Answer::Greatest(tag) => with_tag(*tag, said),
        Answer::Piece(Some(held)) => with_piece(held.piece(), said),
    }
}

// What a head says of a reply to a request of this kind.
fn said_of_reply(kind: Kind, reply: &Reply) -> Said
    ensures said { result ≡ with_answer reply.now.answer
        (record (said_of_kind kind) { is_reply = 1; step = reply.now.step }) }
    ensures kind { IsKind kind }
    ensures step { reply.now.step < 2 ^ 64 }
    ensures answer { IsAnswer reply.now.answer }
{
    let said = Said {
        is_reply: 1,
        step: reply.step,
        ..said_of_kind(kind)
    };
    with_answer(&reply.answer, said)
}

/// Returns what a head says of a body.
pub(crate) fn said_of(body: &Body) -> Said
    ensures said { result ≡ said_of body.now }
    ensures fits { IsWithinBits body.now }
{
    match body {
        Body::Request(request) => said_of_request(request),
        Body::Reply { kind, reply } => said_of_reply(*kind, reply),
    }
}
