//! Messages to frames.
ghost use Rattle.std.specs.Prelude.{◌≡◌, ◌++◌, IfOk, OnOk, Ok, Err, if◌then◌else◌};
ghost use Rattle.node_messages.specs.Gives.{Agrees, AgreesAs};
ghost use Rattle.node_messages.specs.Message.{IsMessage, HasTypedFields};
ghost use Rattle.node_messages.specs.Strings.{answer_piece, body_piece, piece_strings, strings_of, told_piece};
ghost use Rattle.node_messages.specs.Writing.{strings_or_fault, checked, framed};

use crate::checks::{has_fitting_role, is_fitting, names_next};
use crate::error::{Fault, MessageError};
use crate::head::head_of;
use crate::message::NodeMessage;
use bank::{Answer, Request};
use bytes::Bytes;
use frames::Frame;
use letter::Telling;
use mail::Body;
use node_strings::push_shared;
use piece::Piece;
use std::alloc::{AllocError, Global};
use tag::LONGEST_NAME;

// The most strings that a message has: its head, the name, the bytes of a piece, and those of a piece that is told.
const MOST_MESSAGE_STRINGS: usize = 4;

/// Returns the frame of a message. The frame shares the bytes of the name and of the pieces, and copies none.
///
/// A `Fault` is the first one in this order: `NameTooLong`, `NoMember`, `BadAnswer`, `BadNext`, `BadTelling`,
/// `PieceTooLong`.
pub fn frame_of(alloc: Global, message: &NodeMessage) -> Result<Frame, MessageError>
    // What has a frame is a message.
    ensures fits { IfOk result (λ _. IsMessage message.now) }
    // The frame is that of the message.
    ensures made { IfOk result (λ frame. frame ≡ strings_of message.now) }
    // Which fault it is.
    ensures exact { Agrees result (strings_or_fault message.now) }
{
    check(message)?;
    let strings = strings_of(alloc, message)?;
    Ok(framed(strings)?)
}

// The frame of these strings.
fn framed(strings: Vec<Bytes>) -> Result<Frame, Fault>
    ensures { result ≡ framed strings.items }
{
    match Frame::new(strings) {
        Ok(frame) => Ok(frame),
        Err(_) => Err(Fault::PieceTooLong),
    }
}

// The first fault of the message.
fn check(message: &NodeMessage) -> Result<(), Fault>
    ensures { result ≡ checked message.now }
{
    let letter = &message.named.letter;
    if message.named.name.len() > LONGEST_NAME {
        return Err(Fault::NameTooLong);
    }
    if letter.message.member >= letter.layout.layout().n() {
        return Err(Fault::NoMember);
    }
    if !is_fitting(&letter.message.body) {
        return Err(Fault::BadAnswer);
    }
    if letter.next.is_some() != names_next(&letter.message.body) {
        return Err(Fault::BadNext);
    }
    if !has_fitting_role(letter) {
        return Err(Fault::BadTelling);
    }
    Ok(())
}

// The strings of a message.
fn strings_of(alloc: Global, message: &NodeMessage) -> Result<Vec<Bytes>, AllocError>
    ensures pushed { IfOk result (λ strings. strings.items ≡ strings_of message.now) }
    ensures fits { OnOk result (HasTypedFields message.now) }
{
    let mut strings = Vec::with_capacity(alloc, MOST_MESSAGE_STRINGS)?;
    strings.push(head_of(alloc, message)?)?;
    push_shared(&mut strings, &message.named.name)?;
    push_piece(&mut strings, &message.named.letter.message.body)?;
    push_told(&mut strings, &message.named.letter.told)?;
    Ok(strings)
}

// The bytes of the piece, where there is one.
fn push_piece(strings: &mut Vec<Bytes>, body: &Body) -> Result<(), AllocError>
    ensures { OnOk result (strings.new.items ≡ strings.old.items ++ piece_strings (body_piece body.now)) }
{
    match body {
        Body::Request(Request::PreWrite(_, piece)) => push_shared(strings, &piece.bytes),
        Body::Request(_) => Ok(()),
        Body::Reply { kind: _, reply } => push_held(strings, &reply.answer),
    }
}

// The bytes of the piece of an answer, where there is one.
fn push_held(strings: &mut Vec<Bytes>, answer: &Answer) -> Result<(), AllocError>
    ensures { OnOk result (strings.new.items ≡ strings.old.items ++ piece_strings (answer_piece answer.now)) }
{
    match answer {
        Answer::Piece(Some(held)) => push_shared(strings, &held.piece().bytes),
        _ => Ok(()),
    }
}

// The bytes of the piece that is told, where one is.
fn push_told(strings: &mut Vec<Bytes>, told: &Option<Telling>) -> Result<(), AllocError>
    ensures { OnOk result (strings.new.items ≡ strings.old.items ++ piece_strings (told_piece told.now)) }
{
    match told {
        Some(telling) => push_optional(strings, &telling.piece),
        None => Ok(()),
    }
}

// The bytes of a piece, where there is one.
fn push_optional(strings: &mut Vec<Bytes>, piece: &Option<Piece>) -> Result<(), AllocError>
    ensures { OnOk result (strings.new.items ≡ strings.old.items ++ piece_strings piece.now) }
{
    match piece {
        Some(piece) => push_shared(strings, &piece.bytes),
        None => Ok(()),
    }
}
