//! The limit on the numbers of tags.
ghost use Rattle.std.specs.Prelude.{◌≡◌, ◌^◌};
ghost use Rattle.node_messages.specs.Limits.{
  has_low_answer,
  has_low_body,
  has_low_kind,
  has_low_tags,
  has_low_telling,
  is_low,
};
ghost use Rattle.node_messages.specs.declared.limits.TheConstants.{MOST_TAG_NUMBER};

use crate::message::NodeMessage;
use bank::{Answer, Kind};
use letter::Telling;
use mail::Body;
use tag::Tag;

/// The greatest number of a tag that a node takes from another node. A write's tag has one more than the greatest
/// number that the write found, so honest nodes never come near it: with a million writes to one object in each second,
/// that takes 146,000 years.
pub const MOST_TAG_NUMBER: u64 = 1 << 62;

fn is_low(tag: Tag) -> bool
    ensures { result ≡ is_low tag }
{
    tag.number <= MOST_TAG_NUMBER
}

fn has_low_kind(kind: Kind) -> bool
    ensures { result ≡ has_low_kind kind }
{
    match kind {
        Kind::Next | Kind::Spread(_) | Kind::Query => true,
        Kind::PreWrite(tag) | Kind::Finalize(tag) | Kind::Fetch(tag) => is_low(tag),
    }
}

fn has_low_answer(answer: &Answer) -> bool
    ensures { result ≡ has_low_answer answer.now }
{
    match answer {
        Answer::Greatest(tag) => is_low(*tag),
        Answer::Done | Answer::Pointer(_) | Answer::Piece(_) => true,
    }
}

fn has_low_body(body: &Body) -> bool
    ensures { result ≡ has_low_body body.now }
{
    match body {
        Body::Request(request) => has_low_kind(request.kind()),
        Body::Reply { kind, reply } => has_low_kind(*kind) && has_low_answer(&reply.answer),
    }
}

fn has_low_telling(told: &Option<Telling>) -> bool
    ensures { result ≡ has_low_telling told.now }
{
    match told {
        Some(telling) => is_low(telling.greatest),
        None => true,
    }
}

/// Returns whether a message has no tag whose number is above `MOST_TAG_NUMBER`, neither in its body nor in what its
/// letter tells.
pub fn has_low_tags(message: &NodeMessage) -> bool
    ensures value { result ≡ has_low_tags message.now.named.letter }
    ensures limit { MOST_TAG_NUMBER ≡ 2 ^ 62 }
{
    let letter = &message.named.letter;
    has_low_body(&letter.message.body) && has_low_telling(&letter.told)
}
