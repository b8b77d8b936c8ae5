//! Letters as messages between nodes, and their frames.
ghost use Rattle.std.specs.Prelude.{◌≡◌, IfErr, IfOk, IfSome, OnOk, true};
ghost use Rattle.frames.specs.Frame.{IsFrame};
ghost use Rattle.mail.specs.Message.{is_request};
ghost use Rattle.node_messages.specs.Message.{IsMessage};
ghost use Rattle.node_messages.specs.Strings.{strings_of};
ghost use Rattle.node_effects.specs.Errors.{IsUnwritten, WritesOrFails};
ghost use Rattle.node_effects.specs.Work.{IsGrown, one_entry};
ghost use Rattle.node_effects.specs.declared.error.NodeError.TheVariants.{NoMemory};
ghost use Rattle.node_keeper.specs.Delivering.{arrival_record};
ghost use Rattle.node_keeper.specs.Fitting.{IsLoggable};
ghost use Rattle.node_keeper.specs.Logging.{log_entry_of};
ghost use Rattle.node_keeper.specs.Sendings.{IsFrameOf, asks_next, member_or, message_of};

use crate::entries::log_record;
use bank::Request;
use cluster_file::DIGEST_LENGTH;
use frames::Frame;
use letter::{Letter, NamedLetter, SharedLayout, Start, Telling};
use mail::{Body, Message};
use node_effects::{NodeError, Work};
use node_messages::{NodeMessage, frame_of};
use node_strings::Record;
use piece::Piece;
use std::alloc::Global;

/// Returns the message that has a letter, from a node whose cluster file has this digest.
pub(crate) fn message_of(digest: [u8; DIGEST_LENGTH], it: NamedLetter) -> NodeMessage
    ensures { result ≡ message_of digest it }
{
    NodeMessage { digest, named: it }
}

/// Returns the frame of a message between nodes.
pub(crate) fn framed(alloc: Global, message: &NodeMessage) -> Result<Frame, NodeError>
    ensures made { IfOk result (λ frame. frame ≡ strings_of message.now) }
    ensures fits { OnOk result (IsMessage message.now) }
    ensures refused { IfErr result (IsUnwritten (IsMessage message.now × IsFrame (strings_of message.now))) }
{
    Ok(frame_of(alloc, message)?)
}

// Returns the frame of a message: the frame in which it came, or a new one if it came in none.
fn frame_for(alloc: Global, message: &NodeMessage, came: Option<Frame>) -> Result<Frame, NodeError>
    requires { IfSome came (IsFrameOf message.now.digest message.now.named) }
    ensures made { IfOk result (λ frame. frame ≡ strings_of message.now) }
    ensures fits { OnOk result (IsMessage message.now) }
    ensures refused { IfErr result (IsUnwritten (IsMessage message.now × IsFrame (strings_of message.now))) }
{
    match came {
        Some(frame) => Ok(frame),
        None => framed(alloc, message),
    }
}

/// A message goes to the log, as a request that is served, or as a reply that is taken.
pub(crate) fn log_message(
    alloc: Global,
    message: &NodeMessage,
    came: Option<Frame>,
    work: &mut Work,
) -> Result<(), NodeError>
    requires { IfSome came (IsFrameOf message.now.digest message.now.named) }
    ensures logged { OnOk result (IsGrown work.old work.new
        (one_entry (log_entry_of message.now.digest (arrival_record message.now.named)))) }
    ensures writes { WritesOrFails
        (IsLoggable message.now.digest (arrival_record message.now.named)) result }
{
    let frame = frame_for(alloc, message, came)?;
    match &message.named.letter.message.body {
        Body::Request(_) => log_record(work, Record::Serve(frame)),
        Body::Reply { kind: _, reply: _ } => log_record(work, Record::Take(frame)),
    }
}

/// Returns the frame of a letter, as a message from a node whose cluster file has this digest.
pub(crate) fn framed_letter(
    alloc: Global,
    digest: [u8; DIGEST_LENGTH],
    it: NamedLetter,
) -> Result<Frame, NodeError>
    ensures made { IfOk result (λ frame. frame ≡ strings_of (message_of digest it)) }
    ensures fits { OnOk result (IsMessage (message_of digest it)) }
    ensures refused { IfErr result
        (IsUnwritten (IsMessage (message_of digest it) × IsFrame (strings_of (message_of digest it)))) }
{
    framed(alloc, &message_of(digest, it))
}

/// Returns whether a letter is a request, and not a reply.
pub(crate) fn is_request(letter: &Letter) -> bool
    ensures { result ≡ is_request letter.now.message.body }
{
    match &letter.message.body {
        Body::Request(_) => true,
        Body::Reply { kind: _, reply: _ } => false,
    }
}

/// Returns the node that is the member which the letter names, by the letter's layout, or this node if there is no
/// such member.
pub(crate) fn member_or(number: u8, letter: &Letter) -> u8
    ensures { result ≡ member_or number letter.now }
{
    if letter.message.member < letter.layout.layout().n() {
        letter.layout.layout().member(letter.message.member)
    } else {
        number
    }
}

/// Returns whether a letter asks for the next position.
pub(crate) fn asks_next(letter: &Letter) -> bool
    ensures { result ≡ asks_next letter.now.message.body }
{
    match &letter.message.body {
        Body::Request(Request::Next) => true,
        _ => false,
    }
}

/// Returns a copy of a letter that asks for the next position. The two own the layouts together.
pub(crate) fn copy_of(letter: &Letter) -> Result<Letter, NodeError>
    requires { asks_next letter.now.message.body ≡ true }
    ensures copied { IfOk result (λ copy. copy ≡ letter.now) }
    ensures refused { IfErr result (λ e. e ≡ NoMemory) }
{
    let layout = letter.layout.clone()?;
    let next = copy_of_layout(&letter.next)?;
    let start = copy_of_start(&letter.start)?;
    let told = copy_of_telling(&letter.told)?;
    let message = Message {
        call: letter.message.call,
        phase: letter.message.phase,
        position: letter.message.position,
        member: letter.message.member,
        body: Body::Request(Request::Next),
    };
    Ok(Letter {
        layout,
        next,
        start,
        asks_piece: letter.asks_piece,
        told,
        message,
    })
}

// The same layout with one more owner, if there is one.
fn copy_of_layout(layout: &Option<SharedLayout>) -> Result<Option<SharedLayout>, NodeError>
    ensures copied { IfOk result (λ copy. copy ≡ layout.now) }
    ensures refused { IfErr result (λ e. e ≡ NoMemory) }
{
    match layout {
        Some(layout) => Ok(Some(layout.clone()?)),
        None => Ok(None),
    }
}

// The same start with one more owner of its layout, if there is one.
fn copy_of_start(start: &Option<Start>) -> Result<Option<Start>, NodeError>
    ensures copied { IfOk result (λ copy. copy ≡ start.now) }
    ensures refused { IfErr result (λ e. e ≡ NoMemory) }
{
    match start {
        Some(start) => Ok(Some(Start {
            position: start.position,
            layout: start.layout.clone()?,
        })),
        None => Ok(None),
    }
}

// The same telling, if there is one. The two share the bytes of its piece.
fn copy_of_telling(told: &Option<Telling>) -> Result<Option<Telling>, NodeError>
    ensures copied { IfOk result (λ copy. copy ≡ told.now) }
    ensures refused { IfErr result (λ e. e ≡ NoMemory) }
{
    match told {
        Some(telling) => Ok(Some(Telling {
            status: telling.status,
            greatest: telling.greatest,
            piece: copy_of_piece(&telling.piece)?,
        })),
        None => Ok(None),
    }
}

// The same piece, if there is one. The two share its bytes.
fn copy_of_piece(piece: &Option<Piece>) -> Result<Option<Piece>, NodeError>
    ensures copied { IfOk result (λ copy. copy ≡ piece.now) }
    ensures refused { IfErr result (λ e. e ≡ NoMemory) }
{
    match piece {
        Some(piece) => Ok(Some(piece.clone()?)),
        None => Ok(None),
    }
}
