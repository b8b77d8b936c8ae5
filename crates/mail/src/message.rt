ghost use Rattle.std.specs.Prelude.{◌≡◌, ◌^◌, ◌<◌};

use bank::{Kind, Reply, Request};
use tag::CallId;

/// The body of a message: a request to a member, or the reply of its bank with the kind of the request.
#[derive(Clone, Debug, PartialEq, Eq, Drop)]
pub enum Body {
    /// A request that waits to be served.
    Request(Request),
    /// A reply that waits to be taken, with the kind of the request that it answers.
    Reply { kind: Kind, reply: Reply },
}

impl Body {
    ghost use Rattle.mail.specs.Message.{body_kind};

    /// Returns the kind of the request that the message is, or is the reply to.
    pub fn kind(&self) -> Kind
        ensures { result ≡ body_kind self.now }
    {
        match self {
            Body::Request(request) => request.kind(),
            Body::Reply { kind, reply: _ } => *kind,
        }
    }
}

/// A message between a phase of a call and a member of a position.
#[derive(Clone, Debug, PartialEq, Eq, Drop)]
pub struct Message {
    /// The call's number in its object, from 1.
    pub call: CallId,
    /// The phase's number in its call, from 1.
    pub phase: u32,
    /// The position whose members the phase asks, from 0.
    pub position: u32,
    /// The member's place in the position's layout, from 0.
    pub member: u8,
    /// The request or the reply itself.
    pub body: Body,
}

impl Message {
    ghost use Rattle.mail.specs.Message.{message_bytes, answered};

    /// Returns the number of bytes of the piece in the message, or 0 if it has none.
    pub fn bytes(&self) -> u64
        ensures value { result ≡ message_bytes self.now }
        ensures bound { result < 2 ^ 63 }
    {
        match &self.body {
            Body::Request(Request::PreWrite(_, piece)) => piece.bytes.len() as u64,
            Body::Reply { kind: _, reply } => reply.answer.bytes(),
            _ => 0,
        }
    }

    /// Replaces the request by the reply.
    pub(crate) fn answer(&mut self, reply: Reply)
        ensures { self.new ≡ answered self.old reply }
    {
        self.body = Body::Reply {
            kind: self.body.kind(),
            reply,
        };
    }
}
