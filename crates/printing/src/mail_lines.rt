//! The lines of the waiting messages of an object.
ghost use Rattle.std.specs.Prelude.{◌≡◌, Some};
ghost use Rattle.printing.specs.MailLines.{mail_text, message_text, word_of_body};

use crate::vocabulary::kind_word;
use mail::{Body, Mail, Message};
use std::fmt;

/// The line `mail N`, and then a line for each message in the order of places: `PLACE request C J PHASE P I`, or
/// `reply` in place of `request`.
#[derive(Clone, Copy)]
pub struct MailLines<'a>(pub &'a Mail);

impl fmt::Display for MailLines<'_> {
    ghost output = { λ lines. Some (mail_text lines.0.now) };

    fn fmt<W: fmt::Write>(&self, f: &mut fmt::Formatter<W>) -> fmt::Result {
        let mail = self.0;
        writeln!(f, "mail {}", mail.len())?;
        for place in 0..mail.len() {
            let message = mail.at(place);
            writeln!(f, "{}", MessageLine { place, message })?;
        }
        Ok(())
    }
}

// The line of one message.
#[derive(Clone, Copy)]
struct MessageLine<'a> {
    place: usize,
    message: &'a Message,
}

impl fmt::Display for MessageLine<'_> {
    ghost output = { λ line. Some (message_text line.place line.message.now) };

    fn fmt<W: fmt::Write>(&self, f: &mut fmt::Formatter<W>) -> fmt::Result {
        let message = self.message;
        write!(
            f,
            "{} {} {} {} {} {} {}",
            self.place,
            body_word(&message.body),
            message.call,
            message.phase,
            kind_word(message.body.kind()),
            message.position,
            message.member
        )
    }
}

fn body_word(body: &Body) -> &'static str
    ensures { result.now ≡ word_of_body body.now }
{
    match body {
        Body::Request(_) => "request",
        Body::Reply { kind: _, reply: _ } => "reply",
    }
}
