//! The line of a sequence of calls.
ghost use Rattle.std.specs.Prelude.{Some};
ghost use Rattle.printing.specs.SequenceLine.{sequence_text};

use std::fmt;
use tag::CallId;

/// The line of a sequence: the numbers of the calls, separated by spaces, or `-` if there is none.
#[derive(Clone, Copy)]
pub struct SequenceLine<'a>(pub &'a [CallId]);

impl fmt::Display for SequenceLine<'_> {
    ghost output = { λ line. Some (sequence_text line.0.now) };

    fn fmt<W: fmt::Write>(&self, f: &mut fmt::Formatter<W>) -> fmt::Result {
        let Some((first, rest)) = self.0.split_first() else {
            return f.write_str("-");
        };
        write!(f, "{first}")?;
        for call in rest {
            write!(f, " {call}")?;
        }
        Ok(())
    }
}
