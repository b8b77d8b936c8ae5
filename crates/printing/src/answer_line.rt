//! The line of an answered call.
ghost use Rattle.std.specs.Prelude.{◌≡◌, ◌∷◌, [], Some, IfNone, IfSome, codes};
ghost use Rattle.words.specs.Hexadecimal.{hexadecimal_text};
ghost use Rattle.printing.specs.AnswerLine.{answer_text, words_of_answer};

use bytes::Bytes;
use call::Receipt;
use record::Operation;
use std::fmt;
use words::Hexadecimal;

/// The line of an answered call: `call C value HEX` for a read, and `call C answered` for any other call.
#[derive(Clone, Copy)]
pub struct AnswerLine<'a>(pub &'a Receipt);

impl fmt::Display for AnswerLine<'_> {
    ghost output = { λ line. Some (answer_text line.0.now) };

    fn fmt<W: fmt::Write>(&self, f: &mut fmt::Formatter<W>) -> fmt::Result {
        let call = self.0.call;
        match value_of(self.0) {
            Some(value) => write!(f, "call {call} value {}", Hexadecimal(value.as_slice())),
            None => write!(f, "call {call} answered"),
        }
    }
}

// The value that a read returned.
fn value_of(receipt: &Receipt) -> Option<&Bytes>
    ensures read { IfSome result (λ value. words_of_answer receipt.now.kind receipt.now.value
        ≡ codes "value" ∷ hexadecimal_text value.now ∷ []) }
    ensures other { IfNone result (words_of_answer receipt.now.kind receipt.now.value ≡ codes "answered" ∷ []) }
{
    match (receipt.kind, &receipt.value) {
        (Operation::Read, Some(value)) => Some(value),
        _ => None,
    }
}
