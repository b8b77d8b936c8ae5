//! What a node knows of the other nodes, beside what their messages say.
ghost use Rattle.std.specs.Prelude.{◌≡◌, ◌≤◌, None, IfErr, OnOk, get_or, length};
ghost use Rattle.std.specs.List.{count_by};
ghost use Rattle.node_effects.specs.declared.error.NodeError.TheVariants.{NoMemory};
ghost use Rattle.node.specs.Peers.{HasNoted, KnowsNothing, after_letter, frames_dropped, heard_at, is_known};
ghost use Rattle.node.specs.Peers.{is_same_report, next_report, with_next_told, with_tick};
ghost use Rattle.node.specs.Ready.{hears_now};

use crate::drops::Drops;
use crate::reception::Reception;
use crate::silences::{NUMBERS, count_tick, no_silences};
use node_effects::{NodeError, Report};
use node_strings::Heard;
use std::alloc::Global;

// The most nodes with another cluster file of which a node tells. It counts the messages of all.
const MOST_OTHERS: usize = 256;

/// What a node knows of the other nodes, beside what their messages say.
pub struct Peers {
    /// The nodes that the host hears, as it told at the last tick. None if it told of none.
    pub heard: Option<Heard>,
    /// For each number of a node, how many ticks have come since the last one that named the node. None if none has
    /// named it. A count stops at 2^32 - 1.
    pub silences: [Option<u32>; NUMBERS],
    /// How many messages of nodes with another cluster file have come. The count stops at 2^64 - 1.
    pub foreign: u64,
    /// How many frames were dropped for each other cause.
    pub drops: Drops,
    /// How many requests of other nodes the node's closed banks have declined. The count stops at 2^64 - 1.
    pub declined: u64,
    /// Nodes with another cluster file, in the order in which they were first heard. A node stands here once for each
    /// digest of its file.
    pub others: Vec<Report>,
    /// How many of these were told.
    pub told: usize,
}

impl Drop for Peers {
    fn drop(self) {
        let Self {
            heard: _,
            silences: _,
            drops: _,
            declined: _,
            foreign: _,
            others: _,
            told: _,
        } = self;
    }
}

impl Peers {
    /// Makes what a node knows before any frame has come.
    pub(crate) fn new(alloc: Global) -> Peers
        ensures { KnowsNothing result }
    {
        Peers {
            heard: None,
            silences: no_silences(),
            drops: Drops::ZERO,
            declined: 0,
            foreign: 0,
            others: Vec::new(alloc),
            told: 0,
        }
    }

    /// The host tells at a tick which nodes it hears.
    pub(crate) fn hear(&mut self, heard: Heard)
        ensures { self.new ≡ with_tick heard self.old }
    {
        count_tick(&heard, &mut self.silences);
        self.heard = if heard.tells_nodes() {
            Some(heard)
        } else {
            None
        };
    }

    /// Returns whether the node of this number hears a node: itself, and those that its host hears. It hears none
    /// before the host has told which nodes it hears.
    pub(crate) fn hears(&self, number: u8, node: u8) -> bool
        ensures { result ≡ hears_now number self.now.heard node }
    {
        match &self.heard {
            Some(heard) => node == number || heard.has(node),
            None => false,
        }
    }

    /// Returns how many ticks have come since the last one that named a node, or none if none has named it.
    pub(crate) fn silence(&self, node: u8) -> Option<u32>
        ensures { result ≡ get_or self.now.silences node None }
    {
        self.silences[usize::from(node)]
    }

    /// Returns how many of these nodes the node of this number hears.
    pub(crate) fn count_heard(&self, number: u8, nodes: &[u8]) -> usize
        ensures heard { result ≡ count_by (hears_now number self.now.heard) nodes.now }
        ensures within { result ≤ length nodes.now }
    {
        nodes
            .iter()
            .filter(|node| self.hears(number, **node))
            .count()
    }

    /// A message of a node with another cluster file has come. Fails with `NoMemory`.
    pub(crate) fn note(&mut self, other: Report) -> Result<(), NodeError>
        ensures noted { OnOk result (HasNoted other self.old self.new) }
        ensures refused { IfErr result (λ e. e ≡ NoMemory) }
    {
        self.foreign = self.foreign.saturating_add(1);
        if self.others.len() < MOST_OTHERS && !is_known(&self.others, other) {
            self.others.push(other)?;
        }
        Ok(())
    }

    /// A message came that is admitted, and its letter was handled. It counts if the node dropped it, or if a closed
    /// bank declined it.
    pub(crate) fn count_letter(&mut self, reception: Reception)
        ensures { self.new ≡ after_letter reception self.old }
    {
        self.drops.count_letter(reception.is_heeded);
        if reception.is_declined {
            self.declined = self.declined.saturating_add(1);
        }
    }

    /// Returns how many frames were dropped, for all causes together, or 2^64 - 1 if these are more.
    pub(crate) fn frames_dropped(&self) -> u64
        ensures { result ≡ frames_dropped self.now }
    {
        self.drops
            .malformed
            .saturating_add(self.drops.unreadable)
            .saturating_add(self.drops.not_admitted)
            .saturating_add(self.drops.not_heeded)
            .saturating_add(self.foreign)
    }

    /// Returns the first node with another cluster file of which nobody was told yet, if there is one. From then on it
    /// counts as told.
    pub(crate) fn next_report(&mut self) -> Option<Report>
        ensures report { result ≡ next_report self.old }
        ensures told { self.new ≡ with_next_told self.old }
    {
        let next = self.others.get(self.told)?;
        let next = *next;
        self.told += 1;
        Some(next)
    }
}

// Whether a node is among others, with this digest of its file.
fn is_known(others: &[Report], other: Report) -> bool
    ensures { result ≡ is_known others.now other }
{
    others.iter().any(|known| is_same(known, other))
}

// Whether two nodes with another cluster file are the same, with the same digest of that file.
fn is_same(known: &Report, other: Report) -> bool
    ensures { result ≡ is_same_report other known.now }
{
    known.node == other.node && known.digest == other.digest
}
