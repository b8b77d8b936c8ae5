//! The lines of a history.
ghost use Rattle.std.specs.Prelude.{Some};
ghost use Rattle.printing.specs.HistoryLines.{entry_text, history_text};

use crate::dash::{NumberOrDash, ValueOrDash};
use crate::vocabulary::operation_word;
use record::Entry;
use std::fmt;

/// A line for each entry, in order: `C KIND CALLED ANSWERED VALUE`. ANSWERED is `-` for an open call, and VALUE is `-`
/// if there is none.
#[derive(Clone, Copy)]
pub struct HistoryLines<'a>(pub &'a [Entry]);

impl fmt::Display for HistoryLines<'_> {
    ghost output = { λ lines. Some (history_text lines.0.now) };

    fn fmt<W: fmt::Write>(&self, f: &mut fmt::Formatter<W>) -> fmt::Result {
        for entry in self.0 {
            writeln!(f, "{}", EntryLine(entry))?;
        }
        Ok(())
    }
}

// The line of one entry.
#[derive(Clone, Copy)]
struct EntryLine<'a>(&'a Entry);

impl fmt::Display for EntryLine<'_> {
    ghost output = { λ line. Some (entry_text line.0.now) };

    fn fmt<W: fmt::Write>(&self, f: &mut fmt::Formatter<W>) -> fmt::Result {
        let entry = self.0;
        write!(
            f,
            "{} {} {} {} {}",
            entry.call,
            operation_word(entry.kind),
            entry.called,
            NumberOrDash(entry.answered),
            ValueOrDash(&entry.value)
        )
    }
}
