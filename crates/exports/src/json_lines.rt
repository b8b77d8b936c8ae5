//! A history as lines of JSON.
ghost use Rattle.std.specs.Prelude.{Some};
ghost use Rattle.exports.specs.Json.{json_text, object_text, process_text};

use crate::event::{Event, Process};
use crate::value::{QuotedOr, stage_word};
use printing::operation_word;
use std::fmt;

/// A line for each event, in order. It is a JSON object with the names of `EdnLines`:
/// `{"index":0,"time":3,"type":"invoke","process":0,"f":"write","value":"68"}`. The time is the step, and the value is
/// in hexadecimal, as in scripts.
#[derive(Clone, Copy)]
pub struct JsonLines<'a>(pub &'a [Event]);

impl fmt::Display for JsonLines<'_> {
    ghost output = { λ lines. Some (json_text lines.0.now) };

    fn fmt<W: fmt::Write>(&self, f: &mut fmt::Formatter<W>) -> fmt::Result {
        for (index, event) in self.0.iter().enumerate() {
            writeln!(f, "{}", JsonObject { index, event })?;
        }
        Ok(())
    }
}

#[derive(Clone, Copy)]
struct JsonObject<'a> {
    index: usize,
    event: &'a Event,
}

impl fmt::Display for JsonObject<'_> {
    ghost output = { λ line. Some (object_text line.index line.event.now) };

    fn fmt<W: fmt::Write>(&self, f: &mut fmt::Formatter<W>) -> fmt::Result {
        let event = self.event;
        write!(
            f,
            "{{\"index\":{},\"time\":{},\"type\":\"{}\",\"process\":{},\"f\":\"{}\",\"value\":{}}}",
            self.index,
            event.step,
            stage_word(event.stage),
            JsonProcess(event.process),
            operation_word(event.kind),
            QuotedOr {
                value: &event.value,
                none: "null",
            }
        )
    }
}

#[derive(Clone, Copy)]
struct JsonProcess(Process);

impl fmt::Display for JsonProcess {
    ghost output = { λ process. Some (process_text process.0) };

    fn fmt<W: fmt::Write>(&self, f: &mut fmt::Formatter<W>) -> fmt::Result {
        match self.0 {
            Process::Client(client) => write!(f, "{client}"),
            Process::Nemesis => f.write_str("\"nemesis\""),
        }
    }
}
