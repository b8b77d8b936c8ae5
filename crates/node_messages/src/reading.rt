//! Messages from frames.
ghost use Rattle.std.specs.Prelude.{◌≡◌, Ok, IfOk};
ghost use Rattle.std.specs.Str.{bytes_eq};
ghost use Rattle.node_messages.specs.declared.message.NodeMessage.{NodeMessage as Sent};
ghost use Rattle.node_messages.specs.Message.{IsMessage};
ghost use Rattle.node_messages.specs.Strings.{strings_of};
ghost use Rattle.node_messages.specs.Gives.{Agrees};
ghost use Rattle.node_messages.specs.Head.{numbers_of};
ghost use Rattle.node_messages.specs.Reading.{checked_places, made_of, message_from, message_of_parts};

use crate::besides::{Besides, last_besides};
use crate::bodies::body_of;
use crate::checks::{has_fitting_role, names_next};
use crate::error::{Fault, MessageError};
use crate::fields::{first_piece, name_of, parts_of, string_of};
use crate::head::numbers_of;
use crate::layouts::{Layouts, layouts_of};
use crate::message::NodeMessage;
use crate::places::{
    CALL_PLACE, MEMBER_PLACE, Numbers, PHASE_PLACE, POSITION_PLACE, byte_in, long_in, short_in,
};
use bytes::Bytes;
use cluster_file::DIGEST_LENGTH;
use frames::Frame;
use letter::{Letter, NamedLetter};
use mail::{Body, Message};
use std::alloc::Global;

/// Returns the message of a frame. Its name and its pieces are those of the frame, and no byte of them is copied.
///
/// A `Fault` is the first one in this order: of the form of the head, of the name and the number of strings, of what
/// the head says of a telling and of the body, of the layouts, of the member, of what only a request may ask and only a
/// reply tell, and of the places that the message does not use.
pub fn read_message(alloc: Global, frame: &Frame) -> Result<NodeMessage, MessageError>
    // What is read is a message, and the frame is that of the message.
    ensures found { IfOk result (λ m. IsMessage m × (frame.now ≡ strings_of m)) }
    // The frame of a message is read, unless memory is refused.
    ensures only { (m : Sent) → IsMessage m → frame.now ≡ strings_of m → Agrees result (Ok m) }
    // Which fault it is.
    ensures exact { Agrees result (message_from frame.now) }
{
    read_strings(alloc, frame.strings())
}

// The message of these strings.
#[tactic(auto, unfolding(crate::specs::Reading::message_from))]
fn read_strings(alloc: Global, strings: &[Bytes]) -> Result<NodeMessage, MessageError>
    ensures { Agrees result (message_from strings.now) }
{
    let (head, rest) = string_of(strings)?;
    let (numbers, digest, layouts) = parts_of(head)?;
    let (name, rest) = name_of(rest)?;
    let name = name.clone()?;
    read_parts(alloc, numbers, *digest, layouts, name, rest)
}

// The message whose head has these parts.
#[tactic(auto, unfolding(crate::specs::Reading::message_of_parts))]
fn read_parts(
    alloc: Global,
    numbers: &Numbers,
    digest: [u8; DIGEST_LENGTH],
    layouts: &[u8],
    name: Bytes,
    rest: &[Bytes],
) -> Result<NodeMessage, MessageError>
    ensures { Agrees result (message_of_parts numbers.now digest layouts.now name rest.now) }
{
    let (piece, rest) = first_piece(numbers, rest)?;
    let besides = last_besides(numbers, rest)?;
    let body = body_of(alloc, numbers, piece)?;
    let layouts = layouts_of(alloc, names_next(&body), layouts)?;
    checked_places(
        numbers,
        made_of(numbers, digest, name, body, layouts, besides),
    )
}

// The message, unless its layout has no such member, it is a request that tells something or a reply that asks for a
// piece, or a place that it does not use has another byte than zero.
#[tactic(auto, unfolding(crate::specs::Reading::checked_places))]
fn checked_places(numbers: &Numbers, message: NodeMessage) -> Result<NodeMessage, MessageError>
    ensures { Agrees result (checked_places numbers.now message) }
{
    let letter = &message.named.letter;
    if letter.message.member >= letter.layout.layout().n() {
        return Err(MessageError::Fault(Fault::NoMember));
    }
    if !has_fitting_role(letter) {
        return Err(MessageError::Fault(Fault::BadTelling));
    }
    if !are_of(numbers, letter) {
        return Err(MessageError::Fault(Fault::UnusedPlace));
    }
    Ok(message)
}

// Whether the numbers are those of the letter.
fn are_of(numbers: &Numbers, letter: &Letter) -> bool
    ensures { result ≡ bytes_eq (numbers_of letter.now) numbers.now }
{
    numbers_of(letter) == *numbers
}

// The message of these parts.
fn made_of(
    numbers: &Numbers,
    digest: [u8; DIGEST_LENGTH],
    name: Bytes,
    body: Body,
    layouts: Layouts,
    besides: Besides,
) -> NodeMessage
    ensures { result ≡ made_of numbers.now digest name body layouts besides }
{
    NodeMessage {
        digest,
        named: NamedLetter {
            name,
            letter: Letter {
                layout: layouts.layout,
                next: layouts.next,
                start: layouts.start,
                asks_piece: besides.asks_piece,
                told: besides.told,
                message: Message {
                    call: long_in(CALL_PLACE, numbers),
                    phase: short_in(PHASE_PLACE, numbers),
                    position: short_in(POSITION_PLACE, numbers),
                    member: byte_in(MEMBER_PLACE, numbers),
                    body,
                },
            },
        },
    }
}
