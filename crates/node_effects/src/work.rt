//! What a node still has to do.
ghost use Rattle.std.specs.Prelude.{◌≡◌, ◌∷◌, ◌++◌, [], IfErr, IfOk, MatchResult, OnOk};
ghost use Rattle.frames.specs.Frame.{IsFrame};
ghost use Rattle.node_log.specs.Entry.{IsEntry};
ghost use Rattle.node_strings.specs.Arrival.{client_address, node_address};
ghost use Rattle.node_strings.specs.Record.{record_strings};
ghost use Rattle.client_commands.specs.Answers.{sent_strings};
ghost use Rattle.node_effects.specs.Errors.{WritesOrFails};
ghost use Rattle.node_effects.specs.declared.error.NodeError.TheVariants.{NoMemory, Unwritable};
ghost use Rattle.node_effects.specs.Work.{IsEmpty, IsGrown, one_due, one_entry, one_notice, one_own};
ghost use Rattle.node_effects.specs.Work.{IsDueTaken, IsOwnTaken, OnlyLogs, entries_in, to_client, to_node};

use crate::effects::Effects;
use crate::error::NodeError;
use crate::notice::Notice;
use crate::output::Output;
use bytes::Bytes;
use client_commands::{Answer, push_answer};
use frames::{Frame, FrameError};
use letter::NamedLetter;
use node_log::Entry;
use node_strings::{ConnectionId, Record, client_address, node_address, record_strings};
use std::alloc::Global;
use std::collections::VecDeque;

/// What a node still has to do before it is done with a frame, and what it wants done afterwards.
///
/// If a function fails, its contract says nothing about the work afterwards, because the node stops.
#[derive(Debug, Drop)]
pub struct Work {
    alloc: Global,
    /// Entries for the log, and frames to other nodes, in the order in which they were wanted.
    pub outputs: Vec<Output>,
    /// Frames to clients, each with its address in front.
    pub to_clients: Vec<Frame>,
    /// What clients see: calls that began, and answers, in this order.
    pub notices: Vec<Notice>,
    /// The node's letters to itself, oldest first.
    pub own: VecDeque<NamedLetter>,
    /// The connections whose next command is due, the one that has been due longest first.
    pub due: VecDeque<ConnectionId>,
}

impl Work {
    /// Makes work in which there is nothing to do yet.
    pub fn new(alloc: Global) -> Work
        ensures { IsEmpty result }
    {
        Work {
            alloc,
            outputs: Vec::new(alloc),
            to_clients: Vec::new(alloc),
            notices: Vec::new(alloc),
            own: VecDeque::new(alloc),
            due: VecDeque::new(alloc),
        }
    }

    /// Adds the entry of this record to those that the log gets. Fails with `NoMemory`, or with `Unwritable` if its
    /// strings are too many or too long for an entry.
    pub fn log(&mut self, it: &Record) -> Result<(), NodeError>
        ensures grown { OnOk result (IsGrown self.old self.new (one_entry (record_strings it.now))) }
        ensures writes { WritesOrFails (IsEntry (record_strings it.now)) result }
    {
        let entry = Entry::new(self.alloc, record_strings(self.alloc, it)?)?;
        self.outputs.push(Output::Log(entry))?;
        Ok(())
    }

    /// Adds a frame to another node. Fails with `NoMemory`, or with `Unwritable` if the frame has `MOST_STRINGS`
    /// strings.
    pub fn send(&mut self, node: u8, frame: Frame) -> Result<(), NodeError>
        ensures grown { OnOk result (IsGrown self.old self.new (to_node (node_address node ∷ frame))) }
        ensures writes { WritesOrFails (IsFrame (node_address node ∷ frame)) result }
    {
        let mut strings = frame.into_strings();
        strings.insert(0, node_address(self.alloc, node)?)?;
        let frame = frame_of(strings)?;
        self.outputs.push(Output::Send(frame))?;
        Ok(())
    }

    /// Adds an answer to a client. Fails with `NoMemory`, or with `Unwritable` if the answer has a value that is longer
    /// than a string of a frame may be.
    pub fn answer(&mut self, client: ConnectionId, answer: Answer) -> Result<(), NodeError>
        ensures grown { OnOk result
            (IsGrown self.old self.new (to_client (client_address client ∷ sent_strings answer))) }
        ensures writes { WritesOrFails (IsFrame (client_address client ∷ sent_strings answer)) result }
    {
        let mut strings = Vec::new(self.alloc);
        strings.push(client_address(self.alloc, client)?)?;
        push_answer(self.alloc, &mut strings, answer)?;
        let frame = frame_of(strings)?;
        self.to_clients.push(frame)?;
        Ok(())
    }

    /// Adds the frame that tells the host to close a client's connection. Fails with `NoMemory`.
    pub fn close(&mut self, client: ConnectionId) -> Result<(), NodeError>
        ensures grown { OnOk result (IsGrown self.old self.new (to_client (client_address client ∷ []))) }
        ensures refused { IfErr result (λ e. e ≡ NoMemory) }
    {
        let mut address = Vec::new(self.alloc);
        address.push(client_address(self.alloc, client)?)?;
        let frame = frame_of(address)?;
        self.to_clients.push(frame)?;
        Ok(())
    }

    /// Adds something that clients see. Fails with `NoMemory`.
    pub fn note(&mut self, notice: Notice) -> Result<(), NodeError>
        ensures grown { OnOk result (IsGrown self.old self.new (one_notice notice)) }
        ensures refused { IfErr result (λ e. e ≡ NoMemory) }
    {
        self.notices.push(notice)?;
        Ok(())
    }

    /// Adds a letter of the node to itself. Fails with `NoMemory`.
    pub fn keep(&mut self, letter: NamedLetter) -> Result<(), NodeError>
        ensures grown { OnOk result (IsGrown self.old self.new (one_own letter)) }
        ensures refused { IfErr result (λ e. e ≡ NoMemory) }
    {
        self.own.push_back(letter)?;
        Ok(())
    }

    /// Adds a connection whose next command is due. Fails with `NoMemory`.
    pub fn make_due(&mut self, client: ConnectionId) -> Result<(), NodeError>
        ensures grown { OnOk result (IsGrown self.old self.new (one_due client)) }
        ensures refused { IfErr result (λ e. e ≡ NoMemory) }
    {
        self.due.push_back(client)?;
        Ok(())
    }

    /// Removes and returns the oldest letter of the node to itself. Returns none and changes nothing if none waits.
    pub fn next_own(&mut self) -> Option<NamedLetter>
        ensures { IsOwnTaken self.old self.new result }
    {
        self.own.pop_front()
    }

    /// Removes and returns the connection whose next command has been due longest. Returns none and changes nothing if
    /// no connection is due.
    pub fn next_due(&mut self) -> Option<ConnectionId>
        ensures { IsDueTaken self.old self.new result }
    {
        self.due.pop_front()
    }

    /// What the node wants done. It may have no letter to itself left, and no connection whose next command is due.
    pub fn into_effects(self) -> Effects
        requires own { self.own.items ≡ [] }
        requires due { self.due.items ≡ [] }
        ensures outputs { result.outputs.items ≡ self.outputs.items }
        ensures answers { result.answers.items ≡ self.to_clients.items }
        ensures notices { result.notices.items ≡ self.notices.items }
    {
        let Work {
            outputs,
            to_clients,
            notices,
            ..
        } = self;
        Effects {
            outputs,
            answers: to_clients,
            notices,
        }
    }

    /// The entries for the log, where there is nothing else to do. `NoMemory`.
    pub fn into_entries(self) -> Result<Vec<Entry>, NodeError>
        requires { OnlyLogs self }
        ensures entries { IfOk result (λ entries. entries.items ≡ entries_in self.outputs.items) }
        ensures refused { IfErr result (λ e. e ≡ NoMemory) }
    {
        let Work { alloc, outputs, .. } = self;
        let mut entries = Vec::new(alloc);
        for output in outputs {
            push_entry(&mut entries, output)?;
        }
        Ok(entries)
    }
}

// An entry comes behind others. A frame does not.
fn push_entry(entries: &mut Vec<Entry>, output: Output) -> Result<(), NodeError>
    ensures pushed { OnOk result (entries.new.items ≡ entries.old.items ++ entries_in (output ∷ [])) }
    ensures refused { IfErr result (λ e. e ≡ NoMemory) }
{
    match output {
        Output::Log(entry) => entries.push(entry)?,
        Output::Send(_) => (),
    }
    Ok(())
}

// The frame of these strings.
fn frame_of(strings: Vec<Bytes>) -> Result<Frame, NodeError>
    ensures made { IfOk result (λ frame. frame ≡ strings.items) }
    ensures refused { MatchResult result (λ _. IsFrame strings.items)
        (λ e. (e ≡ Unwritable) × (IsFrame strings.items → ⊥)) }
{
    match Frame::new(strings) {
        Ok(frame) => Ok(frame),
        Err(fault) => Err(NodeError::from(FrameError::Fault(fault))),
    }
}
