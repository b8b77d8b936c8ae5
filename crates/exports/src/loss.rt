//! A message that a script loses.
ghost use Rattle.std.specs.Prelude.{◌≡◌};
ghost use Rattle.exports.specs.Loss.{loss_of};

use mail::{Body, Message};
use tag::{CallId, Stamp};

/// A message of an object, a request or a reply, that was lost.
#[derive(Clone, Copy, Debug, PartialEq, Eq)]
pub struct Loss {
    /// The call's number in its object, from 1.
    pub call: CallId,
    /// The phase's number in its call, from 1.
    pub phase: u32,
    /// The position that the phase asks, from 0.
    pub position: u32,
    /// The member's place in the layout of that position, from 0.
    pub member: u8,
    /// The step at which the request was served, if the lost message is its reply; none if it is the request.
    pub served: Option<Stamp>,
    /// The step at which the message was lost.
    pub step: Stamp,
}

impl Loss {
    /// Returns the loss of this message at this step.
    pub fn of(message: &Message, step: Stamp) -> Loss
        ensures { result ≡ loss_of message.now step }
    {
        Loss {
            call: message.call,
            phase: message.phase,
            position: message.position,
            member: message.member,
            served: match &message.body {
                Body::Request(_) => None,
                Body::Reply { kind: _, reply } => Some(reply.step),
            },
            step,
        }
    }
}
