//! A node, and what it does with a frame.
ghost use Rattle.std.specs.Prelude.{◌≡◌, ◌⊎◌, [], ℕ, false, List, IfErr, IfOk, OnOk, Option, Some};
ghost use Rattle.cluster_file.specs.Digest.{fixed_digest};
ghost use Rattle.deeds.specs.Kept.{new_node};
ghost use Rattle.deeds.specs.Named.{NamedLetter as Named};
ghost use Rattle.node_strings.specs.Arrival.{arrival_at};
ghost use Rattle.node_strings.specs.declared.arrival.Arrival.{Arrival as Came};
ghost use Rattle.recoveries.specs.Records.{IsStarted};
ghost use Rattle.node_clients.specs.Desk.{NoneWaits};
ghost use Rattle.node_effects.specs.declared.error.NodeError.TheVariants.{NoMemory};
ghost use Rattle.node_effects.specs.declared.output.Output.{Output};
ghost use Rattle.node_keeper.specs.Acts.{Acts};
ghost use Rattle.node_keeper.specs.Keeping.{kept_of, names_of};
ghost use Rattle.node_keeper.specs.declared.keeper.Keeper.{Keeper as Kept};
ghost use Rattle.node.specs.Failures.{FailsArrival, FailsBehind, FailsStep};
ghost use Rattle.node.specs.FitNodes.{CameInBytes, IsFitAtWork, IsFitNode, StaysFit};
ghost use Rattle.node.specs.Frames.{letter_of_arrival, letters_in, sender_of, sender_or};
ghost use Rattle.node.specs.Handles.{HasActed};
ghost use Rattle.node.specs.Peers.{IsChangedBy, KnowsNothing};
ghost use Rattle.node.specs.Recovering.{KeepsCluster};
ghost use Rattle.node.specs.Serving.{ServedSince, ServesArrival};
ghost use Rattle.node.specs.Ticks.{AreFirst, DoesFirst};
ghost use Rattle.node.specs.declared.node.Node.{Node as Was};
ghost use Rattle.node.specs.Starts.{CanBeNamed, IsNotStarted, start_entries};

use crate::peers::Peers;
use cluster_file::ClusterFile;
use frames::Frame;
use node_clients::Desk;
use node_effects::{NodeError, Work};
use node_keeper::Keeper;
use node_log::Entry;
use node_strings::{Arrival, read_arrival};
use std::alloc::Global;

mod commands;
mod info;
mod layouts;
mod machine;
mod messages;
mod moves;
mod peer_lines;
mod plain;
mod recovery;
mod redis;
mod rewriting;
mod sections;
mod ticks;

/// A node of a cluster: what it keeps of each object, the calls that it carries out, and its clients.
///
/// A node never waits and never asks for the time. It gets one frame after another, and returns what is to be done.
pub struct Node {
    alloc: Global,
    pub(crate) keeper: Keeper,
    desk: Desk,
    pub(crate) peers: Peers,
    // Whether the log has the entry that names the cluster and the node.
    is_named: bool,
}

impl Drop for Node {
    fn drop(self) {
        let Self {
            alloc: _,
            keeper: _,
            desk: _,
            peers: _,
            is_named: _,
        } = self;
    }
}

impl Node {
    /// Makes the node with this number, which keeps nothing yet and whose log is empty. The cluster file should have a
    /// node of this number.
    pub fn new(alloc: Global, file: ClusterFile, number: u8) -> Node
        ensures kept { kept_of result.keeper ≡ new_node (names_of file) number }
        ensures file { result.keeper.file ≡ file }
        ensures digest { result.keeper.digest ≡ fixed_digest file.fixed }
        ensures named { result.is_named ≡ false }
        ensures waits { NoneWaits result.desk.clients [] }
        ensures clients { result.desk.clients.by_number.entries ≡ [] }
        ensures calls { result.desk.calls.entries ≡ [] }
        ensures peers { KnowsNothing result.peers }
    {
        Node {
            alloc,
            keeper: Keeper::new(alloc, file, number),
            desk: Desk::new(alloc),
            peers: Peers::new(alloc),
            is_named: false,
        }
    }

    /// Starts the node, after it has carried out its log again: the ids of its calls begin a new epoch. Returns the
    /// entries that its log gets. It sends nothing, and its clients see nothing.
    ///
    /// `NoMoreIds` if all epochs have begun, and `NoMemory`.
    pub fn start(&mut self) -> Result<Vec<Entry>, NodeError>
        ensures started { OnOk result (IsStarted (kept_of self.old.keeper) (kept_of self.new.keeper)) }
        ensures entries { IfOk result (λ entries. entries.items ≡ start_entries self.old) }
        ensures named { OnOk result (CanBeNamed self.old) }
        ensures cluster { OnOk result (KeepsCluster self.old.keeper self.new.keeper) }
        ensures desk { self.new.desk ≡ self.old.desk }
        ensures refused { IfErr result (IsNotStarted self.old.keeper.digest self.old.keeper.ids) }
    {
        let mut work = Work::new(self.alloc);
        self.name_log(&mut work)?;
        self.keeper.begin_epoch(&mut work)?;
        let entries = work.into_entries()?;
        Ok(entries)
    }

    // What the node does with a frame. Its letters to itself wait.
    fn take_frame(&mut self, frame: Frame, work: &mut Work) -> Result<(), NodeError>
        ensures acts { OnOk result (Acts (sender_or self.old.keeper.ids.node (arrival_at frame))
            (letters_in self.old.keeper frame) self.old.keeper work.old self.new.keeper work.new) }
        ensures serves { OnOk result (ServesArrival (arrival_at frame) self.old work.old self.new work.new) }
        ensures waits { OnOk result (NoneWaits self.old.desk.clients work.old.due.items
            → NoneWaits self.new.desk.clients work.new.due.items) }
        ensures again { OnOk result (DoesFirst (arrival_at frame) self.old work.old.outputs.items
            self.new work.new.outputs.items) }
        ensures peers { OnOk result
            (IsChangedBy (arrival_at frame) self.old.keeper self.old.peers self.new.peers) }
        ensures refused { IfErr result (FailsArrival (arrival_at frame) self.old) }
    {
        match read_arrival(frame) {
            Some(arrival) => self.take_arrival(arrival, work),
            None => {
                self.peers.drops.count_malformed();
                Ok(())
            }
        }
    }

    // What the node does with what has come.
    fn take_arrival(&mut self, arrival: Arrival, work: &mut Work) -> Result<(), NodeError>
        ensures acts { OnOk result (Acts (sender_of self.old.keeper.ids.node arrival)
            (letter_of_arrival self.old.keeper arrival) self.old.keeper work.old self.new.keeper work.new) }
        ensures serves { OnOk result (ServesArrival (Some arrival) self.old work.old self.new work.new) }
        ensures waits { OnOk result (NoneWaits self.old.desk.clients work.old.due.items
            → NoneWaits self.new.desk.clients work.new.due.items) }
        ensures again { OnOk result (DoesFirst (Some arrival) self.old work.old.outputs.items
            self.new work.new.outputs.items) }
        ensures peers { OnOk result (IsChangedBy (Some arrival) self.old.keeper self.old.peers self.new.peers) }
        ensures refused { IfErr result (FailsArrival (Some arrival) self.old) }
    {
        match arrival {
            Arrival::Command(client, frame) => {
                self.desk.clients.push(client, frame)?;
                self.go_on(client, work)
            }
            Arrival::Left(client) => {
                self.desk.clients.leave(client);
                Ok(())
            }
            Arrival::Message(sender, frame) => self.receive(sender, frame, work),
            Arrival::Tick(heard) => {
                self.peers.hear(heard);
                self.tick(work)
            }
        }
    }

    // The node of this number handles its letters to itself, and the next commands of the connections whose command was
    // answered, until none is left. After 2^64 - 1 of these, the error is `NoMemory`.
    fn finish(&mut self, number: u8, work: &mut Work) -> Result<(), NodeError>
        requires { number ≡ self.old.keeper.ids.node }
        ensures acted { OnOk result ((asker : ℕ) (got : List Named) (first : Kept)
            → HasActed asker got first self.old.keeper work.old → HasActed asker got first self.new.keeper work.new) }
        ensures served { OnOk result ((came : Option Came) (first : Was)
            → ServedSince came first self.old work.old.to_clients.items work.old.notices.items
            work.old.outputs.items
            → ServedSince came first self.new work.new.to_clients.items work.new.notices.items
            work.new.outputs.items) }
        ensures outputs { OnOk result ((first : List Output) → AreFirst first work.old.outputs.items
            → AreFirst first work.new.outputs.items) }
        ensures fit { OnOk result (StaysFit self.old work.old self.new work.new) }
        ensures own { OnOk result (work.new.own.items ≡ []) }
        ensures due { OnOk result (work.new.due.items ≡ []) }
        ensures waits { OnOk result (NoneWaits self.old.desk.clients work.old.due.items
            → NoneWaits self.new.desk.clients []) }
        ensures peers { self.new.peers ≡ self.old.peers }
        ensures refused { IfErr result (λ e. (e ≡ NoMemory) ⊎ ((asker : ℕ) (got : List Named) (came : Option Came)
            (first : Was) → HasActed asker got first.keeper self.old.keeper work.old
            → ServedSince came first self.old work.old.to_clients.items work.old.notices.items
            work.old.outputs.items
            → (CameInBytes came → IsFitNode first → IsFitAtWork self.old work.old)
            → FailsBehind asker got came first e)) }
    {
        for _ in 0..u64::MAX {
            if !self.go_a_step(number, work)? {
                return Ok(());
            }
        }
        Err(NodeError::NoMemory)
    }

    // The node of this number handles its oldest letter to itself, or else the next command of the connection that has
    // been due longest. Returns whether there was one.
    fn go_a_step(&mut self, number: u8, work: &mut Work) -> Result<bool, NodeError>
        requires { number ≡ self.old.keeper.ids.node }
        ensures acted { OnOk result ((asker : ℕ) (got : List Named) (first : Kept)
            → HasActed asker got first self.old.keeper work.old → HasActed asker got first self.new.keeper work.new) }
        ensures served { OnOk result ((came : Option Came) (first : Was)
            → ServedSince came first self.old work.old.to_clients.items work.old.notices.items
            work.old.outputs.items
            → ServedSince came first self.new work.new.to_clients.items work.new.notices.items
            work.new.outputs.items) }
        ensures outputs { OnOk result ((first : List Output) → AreFirst first work.old.outputs.items
            → AreFirst first work.new.outputs.items) }
        ensures fit { OnOk result (StaysFit self.old work.old self.new work.new) }
        ensures own { IfOk result (λ more. more ≡ false → work.new.own.items ≡ []) }
        ensures due { IfOk result (λ more. more ≡ false → work.new.due.items ≡ []) }
        ensures waits { OnOk result (NoneWaits self.old.desk.clients work.old.due.items
            → NoneWaits self.new.desk.clients work.new.due.items) }
        ensures number { OnOk result (self.new.keeper.ids.node ≡ self.old.keeper.ids.node) }
        ensures peers { self.new.peers ≡ self.old.peers }
        ensures refused { IfErr result (FailsStep self.old work.old.own.items work.old.due.items) }
    {
        if let Some(it) = work.next_own() {
            self.deliver(number, it, None, work)?;
            return Ok(true);
        }
        if let Some(client) = work.next_due() {
            self.go_on(client, work)?;
            return Ok(true);
        }
        Ok(false)
    }
}
