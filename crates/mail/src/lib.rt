//! The mail of an object, which is its messages that wait to be handled, and the phases of its calls.
//!
//! A message is a request to a member, or the reply of that member's bank. A phase sends a request of the same kind to
//! every member of one position, and is complete when the replies of a quorum have been taken. A `Phase` records what
//! was asked, and which replies were taken.
#![tactic(auto)]

ghost use Rattle.std.specs.Prelude.{◌+◌, ◌≤◌, List, length};
ghost use Rattle.std.specs.List.{AllByRecursion};
ghost use Rattle.tag.specs.declared.limits.TheConstants.{LONGEST_VALUE, MOST_BYTES, MOST_MESSAGES};
ghost use Rattle.mail.specs.declared.message.Message.{Message as Sent};
ghost use Rattle.mail.specs.Mail.{mail_bytes};
ghost use Rattle.mail.specs.Message.{message_bytes};

pub use mail::Mail;
pub use message::{Body, Message};
pub use phase::{Ask, Phase, Taken, Took, complete_means_quorum};

mod bounds;
mod mail;
mod message;
mod phase;

/// A law: if at most `MOST_MESSAGES` messages wait, and none has a piece of more than `LONGEST_VALUE` bytes, then there
/// is room for `LONGEST_VALUE` bytes more.
pub fn pieces_have_room()
    ensures { (messages : List Sent) → length messages ≤ MOST_MESSAGES
        → AllByRecursion (λ m. message_bytes m ≤ LONGEST_VALUE) messages
        → mail_bytes messages + LONGEST_VALUE ≤ MOST_BYTES }
{}
