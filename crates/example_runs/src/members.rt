//! One process of a run: its node in memory, and its log.
ghost use Rattle.std.specs.Prelude.{◌∷◌, [], IfOk, OnOk};
ghost use Rattle.std.specs.List.{AllByRecursion};
ghost use Rattle.cluster_file.specs.File.{IsLawfulFile};
ghost use Rattle.example_runs.specs.Members.{HasBegun, HasGrown, HasHandled, HasStarted};
ghost use Rattle.example_runs.specs.Members.{IsNewMember};

use crate::error::RunError;
use cluster_file::ClusterFile;
use frames::Frame;
use node::Node;
use node_effects::{Effects, Machine};
use node_log::{Chain, Entry, write_entry};
use node_store::{GivenBytes, LogEnd, recover_machine};
use std::alloc::Global;

/// One process of a run.
#[derive(Drop)]
pub struct Member {
    /// Its node, while it runs.
    pub node: Option<Node>,
    /// The bytes of its log, all of which are synced.
    pub log: Vec<u8>,
    /// The chain behind the entries of the log.
    pub chain: Chain,
}

impl Member {
    /// Makes a process that has never been started.
    pub(crate) fn new(alloc: Global) -> Member
        ensures { IsNewMember result }
    {
        Member {
            node: None,
            log: Vec::new(alloc),
            chain: Chain::new(),
        }
    }

    /// Starts the process. A new node carries out the log again, and is started.
    pub(crate) fn start(
        &mut self,
        alloc: Global,
        file: ClusterFile,
        number: u8,
    ) -> Result<(), RunError>
        ensures { OnOk result (HasStarted file number self.old self.new) }
    {
        if self.node.is_some() {
            return Err(RunError::Runs);
        }
        know_lawful(&file);
        let mut node = Node::new(alloc, file, number);
        let end = recover_machine(alloc, &mut GivenBytes::new(&self.log), &mut node)?;
        self.begin(node, end)
    }

    /// The node handles a frame. What it wants is still to be done.
    pub(crate) fn handle(&mut self, frame: Frame) -> Result<Effects, RunError>
        ensures { IfOk result (λ effects. HasHandled frame effects self.old self.new) }
    {
        match &mut self.node {
            Some(node) => Ok(node.handle(frame)?),
            None => Err(RunError::Stopped),
        }
    }

    // Begins an epoch of a node that has carried out the log, which ends there. Bytes behind that are cut off.
    fn begin(&mut self, node: Node, end: LogEnd) -> Result<(), RunError>
        ensures { OnOk result (HasBegun node end self.old self.new) }
    {
        let mut node = node;
        let entries = node.start()?;
        self.log.truncate(end.length as usize);
        self.chain = end.chain;
        self.push_entries(&entries)?;
        self.node = Some(node);
        Ok(())
    }

    // The log gets these entries.
    fn push_entries(&mut self, entries: &[Entry]) -> Result<(), RunError>
        ensures { OnOk result (HasGrown entries.now self.old self.new) }
    {
        for entry in entries {
            self.push_entry(entry)?;
        }
        Ok(())
    }

    /// The log gets this entry.
    pub(crate) fn push_entry(&mut self, entry: &Entry) -> Result<(), RunError>
        ensures { OnOk result (HasGrown (entry.now ∷ []) self.old self.new) }
    {
        write_entry(&mut self.log, self.chain, entry)?;
        self.chain.pass(entry);
        Ok(())
    }
}

/// Makes so many processes that have never been started.
pub(crate) fn new_members(alloc: Global, count: u8) -> Result<Vec<Member>, RunError>
    ensures { IfOk result (λ members. AllByRecursion IsNewMember members.items) }
{
    let mut members = Vec::new(alloc);
    for _ in 0..count {
        members.push(Member::new(alloc))?;
    }
    Ok(members)
}

/// Does nothing. Each cluster file is lawful, and its contract says so.
pub(crate) fn know_lawful(file: &ClusterFile)
    ensures { IsLawfulFile file.now }
{
    let _ = file.nodes();
}
