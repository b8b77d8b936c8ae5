//! A run of processes.
ghost use Rattle.std.specs.Prelude.{◌≡◌, ◌⊎◌, ◌≤◌, ◌∷◌, true, false, length, IfOk, OnOk};
ghost use Rattle.node_strings.specs.Arrival.{arrival_at, client_address};
ghost use Rattle.processes.specs.Events.{WasWritten};
ghost use Rattle.example_runs.specs.Members.{with_sent};
ghost use Rattle.example_runs.specs.Reached.{IsReached, LeadsOn};
ghost use Rattle.example_runs.specs.Steps.{AreAllBroughtIn, IsBroughtIn, IsCarriedIn, IsHandledIn, IsStartedIn};
ghost use Rattle.example_runs.specs.Steps.{IsStoppedIn};

use crate::error::RunError;
use crate::members::{Member, know_lawful, new_members};
use crate::sent::Sent;
use crate::steps::{carry_out, command_of, note_seen, readdressed};
use bytes::Bytes;
use cluster_file::read_cluster_file;
use frames::Frame;
use node_effects::Notice;
use node_store::left_logs_are_read;
use node_strings::ConnectionId;
use std::alloc::Global;

/// The processes of a cluster, in one program. Their numbers are their places.
///
/// It keeps all frames that were ever written to nodes: the network may carry any of them at any time, or never.
#[derive(Drop)]
pub struct ProcessRun {
    alloc: Global,
    /// The text of the cluster file.
    pub text: Bytes,
    /// The processes.
    pub members: Vec<Member>,
    /// All frames that were written to nodes, in order.
    pub sent: Vec<Sent>,
    /// What clients saw: each call as it began, and each answer.
    pub seen: Vec<Notice>,
}

impl ProcessRun {
    /// Makes a run of so many processes, none of which was ever started, with the cluster file that this text writes.
    ///
    /// Fails with `BadFile` if the text has a fault, and with `NoMemory`.
    pub fn new(alloc: Global, text: Bytes, count: u8) -> Result<ProcessRun, RunError>
        ensures { IfOk result IsReached }
    {
        let file = read_cluster_file(alloc, &text)?;
        know_lawful(&file);
        let members = new_members(alloc, count)?;
        Ok(ProcessRun {
            alloc,
            text,
            members,
            sent: Vec::new(alloc),
            seen: Vec::new(alloc),
        })
    }

    /// Starts the process of this number: a new node reads its log, and carries it out again.
    ///
    /// Fails with `NoMember` or `Runs` if there is no such process, or it runs, and with `BadFile`, `BadLog`,
    /// `Refused`, `Unwritten` or `NoMemory` if it cannot start. Nobody may go on with a run after a failure.
    pub fn start(&mut self, number: u8) -> Result<(), RunError>
        ensures does { OnOk result (IsStartedIn number self.old self.new) }
        ensures leads { OnOk result (LeadsOn self.old self.new) }
        ensures reached { OnOk result (IsReached self.old → IsReached self.new) }
    {
        left_logs_are_read();
        let file = read_cluster_file(self.alloc, &self.text)?;
        let place = number as usize;
        if place >= self.members.len() {
            return Err(RunError::NoMember);
        }
        let member = &mut self.members[place];
        member.start(self.alloc, file, number)
    }

    /// Stops the process of this number, if it runs. Its log stays.
    ///
    /// Fails with `NoMember` if there is no such process.
    pub fn stop(&mut self, number: u8) -> Result<(), RunError>
        ensures does { OnOk result (IsStoppedIn number self.old self.new) }
        ensures leads { OnOk result (LeadsOn self.old self.new) }
        ensures reached { OnOk result (IsReached self.old → IsReached self.new) }
    {
        let place = number as usize;
        if place >= self.members.len() {
            return Err(RunError::NoMember);
        }
        let member = &mut self.members[place];
        member.node = None;
        Ok(())
    }

    /// A client sends a command to the process of this number, which handles it.
    ///
    /// Fails with `NoMember` or `Stopped` if there is no such process, or it does not run, with `NoFrame` if the
    /// strings are none, and otherwise as a node fails. Nobody may go on with a run after a failure.
    pub fn ask(&mut self, number: u8, client: ConnectionId, words: &[Bytes]) -> Result<(), RunError>
        ensures does { OnOk result (IsHandledIn number (client_address client ∷ words.now) self.old self.new) }
        ensures leads { OnOk result (LeadsOn self.old self.new) }
        ensures reached { OnOk result (IsReached self.old → IsReached self.new) }
    {
        let frame = command_of(self.alloc, client, words)?;
        self.handle(number, frame)
    }

    /// The network carries the frame that was written at this place to the process of this number, which handles it, if
    /// the frame is to its node. Returns whether it is.
    ///
    /// Fails with `NoFrameThere` if so many frames were not written, and otherwise as `ask` does.
    pub fn carry(&mut self, place: usize, number: u8) -> Result<bool, RunError>
        ensures does { IfOk result (IsCarriedIn place number self.old self.new) }
        ensures leads { OnOk result (LeadsOn self.old self.new) }
        ensures reached { OnOk result (IsReached self.old → IsReached self.new) }
    {
        if place >= self.sent.len() {
            return Err(RunError::NoFrameThere);
        }
        let sent = &self.sent[place];
        match readdressed(self.alloc, sent, number)? {
            Some(frame) => {
                self.handle(number, frame)?;
                Ok(true)
            }
            None => Ok(false),
        }
    }

    /// The network carries the frames from this place on, one after another, each once, and also those that are written
    /// meanwhile, until none is left, or 10,000 were carried. Returns the place behind the last one.
    ///
    /// Fails as `carry` does.
    pub fn carry_all(&mut self, first: usize) -> Result<usize, RunError>
        ensures does { IfOk result (λ then. AreAllBroughtIn first then self.old self.new) }
        ensures reached { OnOk result (IsReached self.old → IsReached self.new) }
    {
        let mut place = first;
        for _count in 0..10_000u32 {
            if place >= self.sent.len() {
                return Ok(place);
            }
            self.carry_to_any(place)?;
            place += 1;
        }
        Ok(place)
    }

    // The network carries the frame of this place to the process to whose node it is, if there is one.
    fn carry_to_any(&mut self, place: usize) -> Result<(), RunError>
        ensures does { OnOk result (IsBroughtIn place self.old self.new) }
        ensures reached { OnOk result (IsReached self.old → IsReached self.new) }
    {
        for number in 0..u8::MAX {
            if self.is_carried(place, number)? {
                return Ok(());
            }
        }
        Ok(())
    }

    // Whether the network carries the frame of this place to the process of this number, or there is no such process.
    fn is_carried(&mut self, place: usize, number: u8) -> Result<bool, RunError>
        ensures does { IfOk result (λ is_done. (is_done ≡ false → IsCarriedIn place number self.old self.new false)
            × (is_done ≡ true → IsCarriedIn place number self.old self.new true
            ⊎ ((length self.old.members.items ≤ number) × (self.new ≡ self.old)))) }
        ensures reached { OnOk result (IsReached self.old → IsReached self.new) }
    {
        if number as usize >= self.members.len() {
            return Ok(true);
        }
        self.carry(place, number)
    }

    // The process of this number handles a frame, which a client or a process of this run sent. Then its log is synced,
    // and the frames and answers that came of it are written.
    fn handle(&mut self, number: u8, frame: Frame) -> Result<(), RunError>
        requires { WasWritten (with_sent self.old.sent.items) number (arrival_at frame) }
        ensures does { OnOk result (IsHandledIn number frame self.old self.new) }
        ensures leads { OnOk result (LeadsOn self.old self.new) }
        ensures reached { OnOk result (IsReached self.old → IsReached self.new) }
    {
        let place = number as usize;
        if place >= self.members.len() {
            return Err(RunError::NoMember);
        }
        let member = &mut self.members[place];
        let effects = member.handle(frame)?;
        carry_out(number, member, &mut self.sent, effects.outputs)?;
        note_seen(self.alloc, &mut self.seen, effects.notices)
    }
}
