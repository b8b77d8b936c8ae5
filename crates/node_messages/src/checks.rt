//! What the parts of a message must have in common.
ghost use Rattle.std.specs.Prelude.{◌≡◌};
ghost use Rattle.node_messages.specs.Message.{fits_role, has_fitting_role, is_answer_to, is_fitting};
ghost use Rattle.mail.specs.Message.{status_names_next, names_next};

use bank::{Answer, Kind, Request, Status};
use letter::{Letter, Telling};
use mail::Body;

// Whether a pointer with this status names a next position.
fn status_names_next(status: Status) -> bool
    ensures { result ≡ status_names_next status }
{
    match status {
        Status::Unset => false,
        Status::Pending | Status::Final => true,
    }
}

/// Returns whether the body of a message says that the pointer is pending or final.
pub(crate) fn names_next(body: &Body) -> bool
    ensures { result ≡ names_next body.now }
{
    match body {
        Body::Request(Request::Spread(status)) => status_names_next(*status),
        Body::Request(_) => false,
        Body::Reply { kind: _, reply } => match reply.answer {
            Answer::Pointer(status) => status_names_next(status),
            _ => false,
        },
    }
}

// Whether this is an answer to a request of this kind.
fn is_answer_to(kind: Kind, answer: &Answer) -> bool
    ensures { result ≡ is_answer_to kind answer.now }
{
    match (kind, answer) {
        (Kind::Next, Answer::Pointer(_)) => true,
        (Kind::Query, Answer::Greatest(_)) => true,
        (Kind::Fetch(_), Answer::Piece(_)) => true,
        (Kind::Spread(_) | Kind::PreWrite(_) | Kind::Finalize(_), Answer::Done) => true,
        _ => false,
    }
}

/// Returns whether the body of a message is a request, or a reply with an answer to a request of its kind.
pub(crate) fn is_fitting(body: &Body) -> bool
    ensures { result ≡ is_fitting body.now }
{
    match body {
        Body::Request(_) => true,
        Body::Reply { kind, reply } => is_answer_to(*kind, &reply.answer),
    }
}

// Whether a request tells nothing, and a reply does not ask for a piece.
fn fits_role(body: &Body, asks_piece: bool, told: &Option<Telling>) -> bool
    ensures { result ≡ fits_role body.now asks_piece told.now }
{
    match body {
        Body::Request(_) => told.is_none(),
        Body::Reply { kind: _, reply: _ } => !asks_piece,
    }
}

/// Returns whether a letter is no request that tells something, and no reply that asks for a piece.
pub(crate) fn has_fitting_role(letter: &Letter) -> bool
    ensures { result ≡ has_fitting_role letter.now }
{
    fits_role(&letter.message.body, letter.asks_piece, &letter.told)
}
