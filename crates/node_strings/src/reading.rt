//! Records from the strings of entries.
ghost use Rattle.std.specs.Prelude.{◌≡◌, IfSome, Some};
ghost use Rattle.node_strings.specs.declared.record.Record.{Record as Kept};
ghost use Rattle.node_strings.specs.Record.{HasPartsInRange, record_strings, record_at, record_from, start_record};
ghost use Rattle.node_strings.specs.Record.{close_record, cluster_record, hear_record, move_record};

use crate::is_text;
use crate::parts::{digest_of, layout_of, number_of, split, string_of};
use crate::record::Record;
use bytes::Bytes;
use frames::Frame;

/// The record of an entry with these strings, or none if no node writes such an entry. The function allocates no
/// memory.
pub fn read_record(frame: Frame) -> Option<Record>
    // The strings are those of what is read.
    ensures found { IfSome result (λ it. HasPartsInRange it × (frame ≡ record_strings it)) }
    // The strings of a record are read as that record.
    ensures only { (it : Kept) → HasPartsInRange it → frame ≡ record_strings it → result ≡ Some it }
    ensures exact { result ≡ record_at frame }
{
    read_split(frame)
}

// Does what `read_record` does, and promises its clause `exact` alone. The other clauses follow from that one.
#[tactic(auto, unfolding(crate::specs::Record::record_at))]
fn read_split(frame: Frame) -> Option<Record>
    ensures { result ≡ record_at frame }
{
    match split(frame) {
        Some((word, rest)) => read_behind(&word, rest),
        None => None,
    }
}

// What an entry with this word and these strings behind it records.
#[tactic(auto, unfolding(crate::specs::Record::record_from))]
fn read_behind(word: &[u8], rest: Frame) -> Option<Record>
    ensures { result ≡ record_from word.now rest }
{
    if is_text(word, b"serve") {
        Some(Record::Serve(rest))
    } else if is_text(word, b"take") {
        Some(Record::Take(rest))
    } else if is_text(word, b"start") {
        start_of(rest.strings())
    } else if is_text(word, b"cluster") {
        cluster_of(rest.strings())
    } else if is_text(word, b"move") {
        move_of(rest.into_strings())
    } else if is_text(word, b"hear") {
        hear_of(rest.into_strings())
    } else if is_text(word, b"close") {
        close_of(rest.into_strings())
    } else {
        None
    }
}

fn start_of(strings: &[Bytes]) -> Option<Record>
    ensures { result ≡ start_record strings.now }
{
    match strings {
        [] => Some(Record::Start),
        [_, ..] => None,
    }
}

#[tactic(auto, unfolding(crate::specs::Record::cluster_record))]
fn cluster_of(strings: &[Bytes]) -> Option<Record>
    ensures { result ≡ cluster_record strings.now }
{
    let (digest, rest) = string_of(strings)?;
    let (number, rest) = string_of(rest)?;
    if !rest.is_empty() {
        return None;
    }
    let digest = digest_of(digest)?;
    let node = number_of(number, 255)?;
    Some(Record::Cluster {
        digest,
        node: node as u8,
    })
}

#[tactic(auto, unfolding(crate::specs::Record::move_record))]
fn move_of(mut strings: Vec<Bytes>) -> Option<Record>
    ensures { result ≡ move_record strings.items }
{
    if strings.len() != 3 {
        return None;
    }
    let id = number_of(&strings[0], u64::MAX)?;
    let layout = layout_of(&strings[2])?;
    let name = strings.swap_remove(1);
    Some(Record::Move { id, name, layout })
}

#[tactic(auto, unfolding(crate::specs::Record::hear_record))]
fn hear_of(mut strings: Vec<Bytes>) -> Option<Record>
    ensures { result ≡ hear_record strings.items }
{
    if strings.len() != 3 {
        return None;
    }
    let position = number_of(&strings[0], u64::from(u32::MAX))?;
    let layout = layout_of(&strings[2])?;
    let name = strings.swap_remove(1);
    Some(Record::Hear {
        position: position as u32,
        name,
        layout,
    })
}

#[tactic(auto, unfolding(crate::specs::Record::close_record))]
fn close_of(mut strings: Vec<Bytes>) -> Option<Record>
    ensures { result ≡ close_record strings.items }
{
    if strings.len() != 2 {
        return None;
    }
    let position = number_of(&strings[0], u64::from(u32::MAX))? as u32;
    let name = strings.swap_remove(1);
    Some(Record::Close { position, name })
}
