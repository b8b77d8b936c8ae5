use crate::shared_layout::SharedLayout;
use crate::start::Start;
use crate::telling::Telling;
use bytes::Bytes;
use mail::Message;

/// A message between nodes about one object, with the layouts that its receiver may not have heard of.
#[derive(Debug, Drop)]
pub struct Letter {
    /// The layout of the message's position.
    pub layout: SharedLayout,
    /// The layout of the next position, exactly if the message says that the pointer is pending or final.
    pub next: Option<SharedLayout>,
    /// The start of the object at the node that sent the letter, if that is later than position 0.
    pub start: Option<Start>,
    /// Whether the letter asks the member for the piece of its greatest finalized tag, too. Only the requests of a read
    /// do so.
    pub asks_piece: bool,
    /// What a reply tells of its member, if it tells anything. A closed bank tells nothing.
    pub told: Option<Telling>,
    /// The request, or the reply.
    pub message: Message,
}

/// A letter and the name of the object that it is about.
#[derive(Debug, Drop)]
pub struct NamedLetter {
    /// The name of the object: any bytes.
    pub name: Bytes,
    pub letter: Letter,
}
