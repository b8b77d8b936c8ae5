//! The line that a request prints.
ghost use Rattle.std.specs.Prelude.{Some};
ghost use Rattle.coding_commands.specs.Output.{output_text};

use crate::fragments::FragmentsLine;
use decoder::Decoded;
use encoder::Coded;
use std::fmt;
use words::Hexadecimal;

/// The output of a request. It prints as one line, without its line feed.
#[derive(Drop)]
pub(crate) enum Output {
    /// The fragments of a value.
    Fragments(Coded),
    /// The value of fragments.
    Value(Decoded),
}

impl fmt::Display for Output {
    ghost output = { λ o. Some (output_text o) };

    fn fmt<W: fmt::Write>(&self, f: &mut fmt::Formatter<W>) -> fmt::Result {
        match self {
            Output::Fragments(coded) => FragmentsLine(coded).fmt(f),
            Output::Value(decoded) => Hexadecimal(decoded.value().as_slice()).fmt(f),
        }
    }
}
