//! The values and words in the lines of a history.
ghost use Rattle.std.specs.Prelude.{◌≡◌, Some};
ghost use Rattle.exports.specs.Words.{quoted_or, word_of_stage};

use crate::event::Stage;
use bytes::Bytes;
use std::fmt;
use words::Hexadecimal;

/// A value in hexadecimal between quotes, or the word `none` if there is none.
#[derive(Clone, Copy)]
pub(crate) struct QuotedOr<'a> {
    pub(crate) value: &'a Option<Bytes>,
    pub(crate) none: &'static str,
}

impl fmt::Display for QuotedOr<'_> {
    ghost output = { λ quoted. Some (quoted_or quoted.value.now quoted.none.now) };

    fn fmt<W: fmt::Write>(&self, f: &mut fmt::Formatter<W>) -> fmt::Result {
        match self.value {
            Some(value) => write!(f, "\"{}\"", Hexadecimal(value.as_slice())),
            None => f.write_str(self.none),
        }
    }
}

pub(crate) fn stage_word(stage: Stage) -> &'static str
    ensures { result.now ≡ word_of_stage stage }
{
    match stage {
        Stage::Invoke => "invoke",
        Stage::Complete => "ok",
        Stage::Info => "info",
    }
}
