//! What is done with what a node wants, and which frames come to nodes.
ghost use Rattle.std.specs.Prelude.{◌≡◌, ◌∷◌, ◌++◌, [], ℕ, IfOk, List, OnOk};
ghost use Rattle.std.specs.List.{filter};
ghost use Rattle.node_effects.specs.Seen.{all_seen, seen_of};
ghost use Rattle.node_effects.specs.Work.{entries_in};
ghost use Rattle.node_strings.specs.Arrival.{arrival_at, client_address as address_of};
ghost use Rattle.processes.specs.Events.{WasWritten, is_begun, is_told};
ghost use Rattle.processes.specs.Processes.{SentFrame};
ghost use Rattle.example_runs.specs.Members.{HasGrown, frames_from, seen_among, with_sent};
ghost use Rattle.example_runs.specs.Steps.{IsFoundFor};

use crate::error::RunError;
use crate::members::Member;
use crate::sent::Sent;
use bytes::Bytes;
use frames::Frame;
use node_effects::{Notice, Output};
use node_strings::{ConnectionId, client_address, node_address, push_shared};
use std::alloc::Global;

/// The process of this number does with these outputs what its node wants: its log gets the entries, and is synced,
/// and the frames are written.
pub(crate) fn carry_out(
    number: u8,
    member: &mut Member,
    sent: &mut Vec<Sent>,
    outputs: Vec<Output>,
) -> Result<(), RunError>
    ensures grown { OnOk result (HasGrown (entries_in outputs.items) member.old member.new) }
    ensures sent { OnOk result (sent.new.items ≡ sent.old.items ++ frames_from number outputs.items) }
{
    for output in outputs {
        carry_out_one(number, member, sent, output)?;
    }
    Ok(())
}

fn carry_out_one(
    number: u8,
    member: &mut Member,
    sent: &mut Vec<Sent>,
    output: Output,
) -> Result<(), RunError>
    ensures grown { OnOk result (HasGrown (entries_in (output ∷ [])) member.old member.new) }
    ensures sent { OnOk result (sent.new.items ≡ sent.old.items ++ frames_from number (output ∷ [])) }
{
    match output {
        Output::Log(entry) => member.push_entry(&entry),
        Output::Send(frame) => {
            let it = Sent {
                sender: number,
                frame,
            };
            sent.push(it)?;
            Ok(())
        }
    }
}

/// Clients see these notices: first the calls that begin, and then the answers.
pub(crate) fn note_seen(
    alloc: Global,
    seen: &mut Vec<Notice>,
    notices: Vec<Notice>,
) -> Result<(), RunError>
    ensures { OnOk result (all_seen seen.new.items ≡ all_seen seen.old.items ++ seen_among (all_seen notices.items)) }
{
    let mut told = Vec::new(alloc);
    note_all(seen, &mut told, notices)?;
    push_all(seen, told)
}

// The calls that begin are noted as seen, and the answers are put behind the others.
fn note_all(
    seen: &mut Vec<Notice>,
    told: &mut Vec<Notice>,
    notices: Vec<Notice>,
) -> Result<(), RunError>
    ensures begun { OnOk result (all_seen seen.new.items
        ≡ all_seen seen.old.items ++ filter is_begun (all_seen notices.items)) }
    ensures told { OnOk result (all_seen told.new.items
        ≡ all_seen told.old.items ++ filter is_told (all_seen notices.items)) }
{
    for notice in notices {
        note_one(seen, told, notice)?;
    }
    Ok(())
}

// A call that begins is noted as seen, and an answer is put behind the others.
fn note_one(seen: &mut Vec<Notice>, told: &mut Vec<Notice>, notice: Notice) -> Result<(), RunError>
    ensures begun { OnOk result (all_seen seen.new.items
        ≡ all_seen seen.old.items ++ filter is_begun (seen_of notice ∷ [])) }
    ensures told { OnOk result (all_seen told.new.items
        ≡ all_seen told.old.items ++ filter is_told (seen_of notice ∷ [])) }
{
    match notice {
        Notice::Tells { .. } => told.push(notice)?,
        _ => seen.push(notice)?,
    }
    Ok(())
}

fn push_all(seen: &mut Vec<Notice>, told: Vec<Notice>) -> Result<(), RunError>
    ensures { OnOk result (seen.new.items ≡ seen.old.items ++ told.items) }
{
    for notice in told {
        seen.push(notice)?;
    }
    Ok(())
}

/// The frame that says that this client sent these strings. With none, it says that the connection has ended.
pub(crate) fn command_of(
    alloc: Global,
    client: ConnectionId,
    words: &[Bytes],
) -> Result<Frame, RunError>
    ensures frame { IfOk result (λ frame. frame ≡ address_of client ∷ words.now) }
    ensures comes { IfOk result (λ frame. (sent : List SentFrame) (number : ℕ)
        → WasWritten (with_sent sent) number (arrival_at frame)) }
{
    addressed(alloc, client_address(alloc, client)?, words)
}

/// The frame as it comes to the node of this number, if it is to that node: with the address of its sender in front.
pub(crate) fn readdressed(alloc: Global, sent: &Sent, number: u8) -> Result<Option<Frame>, RunError>
    ensures { IfOk result (IsFoundFor number sent.now) }
{
    readdressed_from(alloc, sent.sender, &sent.frame, number)
}

// The same of the frame that the node `sender` sent.
fn readdressed_from(
    alloc: Global,
    sender: u8,
    frame: &Frame,
    number: u8,
) -> Result<Option<Frame>, RunError>
    ensures { IfOk result (IsFoundFor number (record { sender = sender; frame = frame.now })) }
{
    let address = node_address(alloc, number)?;
    match frame.strings() {
        [] => Ok(None),
        [to, rest @ ..] => {
            if *to == address {
                let from = node_address(alloc, sender)?;
                Ok(Some(addressed(alloc, from, rest)?))
            } else {
                Ok(None)
            }
        }
    }
}

// The frame with this address in front of these strings.
fn addressed(alloc: Global, address: Bytes, strings: &[Bytes]) -> Result<Frame, RunError>
    ensures { IfOk result (λ frame. frame ≡ address ∷ strings.now) }
{
    let mut all = Vec::new(alloc);
    all.push(address)?;
    for string in strings {
        push_shared(&mut all, string)?;
    }
    Ok(Frame::new(all)?)
}
