//! The requests of a phase.

ghost use Rattle.std.specs.Prelude.{◌≡◌, ℕ, List, length, IfOk, IfErr, option_copied, None};
ghost use Rattle.tag.specs.declared.refusal.Refusal.TheVariants.{NoMemory};
ghost use Rattle.piece.specs.declared.piece.Piece.{Piece as Fragment};
ghost use Rattle.bank.specs.Bank.{empty_piece};
ghost use Rattle.mail.specs.declared.message.Body.TheVariants as body;
ghost use Rattle.record.specs.Sending.{request_to, requests};
ghost use Rattle.call.specs.Pieces.{piece_from, HavePieces, HavePieceOf};

use bank::{Kind, Request};
use bytes::Bytes;
use encoder::Coded;
use mail::{Ask, Body, Message};
use piece::Piece;
use std::alloc::Global;
use tag::Refusal;

/// Makes the requests of a phase to all members, member 0 first. For a phase that sends pieces, `coded` is the encoded
/// value, with a piece for each member.
///
/// `NoMemory` is the only refusal.
pub fn requests(
    alloc: Global,
    ask: Ask,
    members: u8,
    coded: Option<&Coded>,
) -> Result<Vec<Message>, Refusal>
    requires { HavePieces ask.kind members (option_copied coded) }
    ensures requests { (servers : List ℕ) → length servers ≡ members
        → IfOk result (λ ms. ms.items ≡ requests ask.call ask.number ask.kind ask.position servers 0
        (piece_from (option_copied coded.entry))) }

    ensures refused { IfErr result (λ e. e ≡ NoMemory) }
{
    match ask.kind {
        Kind::PreWrite(_) => requests_with_pieces(alloc, ask, members, coded),
        _ => plain_requests(alloc, ask, members),
    }
}

// The requests of a phase that sends pieces.
fn requests_with_pieces(
    alloc: Global,
    ask: Ask,
    members: u8,
    coded: Option<&Coded>,
) -> Result<Vec<Message>, Refusal>
    requires { HavePieces ask.kind members (option_copied coded) }
    ensures requests { (servers : List ℕ) → length servers ≡ members
        → IfOk result (λ ms. ms.items ≡ requests ask.call ask.number ask.kind ask.position servers 0
        (piece_from (option_copied coded.entry))) }

    ensures refused { IfErr result (λ e. e ≡ NoMemory) }
{
    let mut messages = Vec::with_capacity(alloc, usize::from(members))?;
    for member in 0..members {
        messages.push(request_to(ask, member, coded)?)?;
    }
    Ok(messages)
}

// The requests of a phase that sends no pieces. Each is built in its place in the list.
fn plain_requests(alloc: Global, ask: Ask, members: u8) -> Result<Vec<Message>, Refusal>
    requires { HavePieceOf ask.kind 0 None }
    ensures requests { (servers : List ℕ) (piece : ℕ → Fragment) → length servers ≡ members
        → IfOk result (λ ms. ms.items ≡ requests ask.call ask.number ask.kind ask.position servers 0 piece) }

    ensures refused { IfErr result (λ e. e ≡ NoMemory) }
{
    let mut messages = Vec::with_capacity(alloc, usize::from(members))?;
    for member in 0..members {
        messages.push_reserved(Message {
            call: ask.call,
            phase: ask.number,
            position: ask.position,
            member,
            body: Body::Request(plain_request(ask.kind, member)),
        });
    }
    Ok(messages)
}

/// Makes the request of a phase to a member. For a phase that sends pieces, `coded` is the encoded value, with a piece
/// for the member.
///
/// `NoMemory` is the only refusal.
pub fn request_to(ask: Ask, member: u8, coded: Option<&Coded>) -> Result<Message, Refusal>
    requires { HavePieceOf ask.kind member (option_copied coded) }
    ensures request { IfOk result (λ m. m ≡ record {
      call = ask.call;
      phase = ask.number;
      position = ask.position;
      member = member;
      body = body.Request (request_to ask.kind (piece_from (option_copied coded.entry) member));
    }) }

    ensures refused { IfErr result (λ e. e ≡ NoMemory) }
{
    Ok(Message {
        call: ask.call,
        phase: ask.number,
        position: ask.position,
        member,
        body: Body::Request(request_of(ask.kind, member, coded)?),
    })
}

// The request that a phase of this kind sends to a member.
fn request_of(kind: Kind, member: u8, coded: Option<&Coded>) -> Result<Request, Refusal>
    requires { HavePieceOf kind member (option_copied coded) }
    ensures request { IfOk result (λ q. q ≡ request_to kind (piece_from (option_copied coded.entry) member)) }
    ensures refused { IfErr result (λ e. e ≡ NoMemory) }
{
    match (kind, coded) {
        (Kind::PreWrite(tag), Some(coded)) => Ok(Request::PreWrite(
            tag,
            coded.piece_at(member).clone()?,
        )),
        _ => Ok(plain_request(kind, member)),
    }
}

// The request that a phase of this kind sends to a member, with the piece of the empty value if it sends a piece.
fn plain_request(kind: Kind, member: u8) -> Request
    ensures { result ≡ request_to kind (empty_piece member) }
{
    match kind {
        Kind::Next => Request::Next,
        Kind::Spread(status) => Request::Spread(status),
        Kind::Query => Request::Query,
        Kind::PreWrite(tag) => Request::PreWrite(
            tag,
            Piece {
                point: member,
                len: 0,
                bytes: Bytes::new(),
            },
        ),
        Kind::Finalize(tag) => Request::Finalize(tag),
        Kind::Fetch(tag) => Request::Fetch(tag),
    }
}
