//! Records to the strings of entries.
ghost use Rattle.std.specs.Prelude.{◌≡◌, ◌++◌, IfOk, OnOk};
ghost use Rattle.node_strings.specs.Record.{record_strings};

use crate::record::Record;
use crate::{push_bytes, push_layout, push_number, push_shared, push_word};
use bytes::Bytes;
use frames::Frame;
use std::alloc::{AllocError, Global};

/// The strings of the entry of this record. It fails only if there is no memory, and copies no byte of a name or of a
/// message.
pub fn record_strings(alloc: Global, it: &Record) -> Result<Vec<Bytes>, AllocError>
    ensures { IfOk result (λ strings. strings.items ≡ record_strings it.now) }
{
    let mut strings = Vec::new(alloc);
    push_record(alloc, &mut strings, it)?;
    Ok(strings)
}

fn push_record(alloc: Global, strings: &mut Vec<Bytes>, it: &Record) -> Result<(), AllocError>
    ensures { OnOk result (strings.new.items ≡ strings.old.items ++ record_strings it.now) }
{
    match it {
        Record::Cluster { digest, node } => {
            push_word(strings, b"cluster")?;
            push_bytes(alloc, strings, digest)?;
            push_number(alloc, strings, u64::from(*node))
        }
        Record::Start => push_word(strings, b"start"),
        Record::Serve(frame) => {
            push_word(strings, b"serve")?;
            push_all(strings, frame)
        }
        Record::Take(frame) => {
            push_word(strings, b"take")?;
            push_all(strings, frame)
        }
        Record::Move { id, name, layout } => {
            push_word(strings, b"move")?;
            push_number(alloc, strings, *id)?;
            push_shared(strings, name)?;
            push_layout(alloc, strings, layout)
        }
        Record::Hear {
            position,
            name,
            layout,
        } => {
            push_word(strings, b"hear")?;
            push_number(alloc, strings, u64::from(*position))?;
            push_shared(strings, name)?;
            push_layout(alloc, strings, layout)
        }
        Record::Close { position, name } => {
            push_word(strings, b"close")?;
            push_number(alloc, strings, u64::from(*position))?;
            push_shared(strings, name)
        }
    }
}

// The strings of a frame.
fn push_all(strings: &mut Vec<Bytes>, frame: &Frame) -> Result<(), AllocError>
    ensures { OnOk result (strings.new.items ≡ strings.old.items ++ frame.now) }
{
    for string in frame.strings() {
        push_shared(strings, string)?;
    }
    Ok(())
}
