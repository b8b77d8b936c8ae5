//! How a node begins to move an object.
ghost use Rattle.std.specs.Prelude.{◌≡◌, ◌<◌, ◌+◌, if◌then◌else◌, [], ℕ, nat_eq, IfErr, IfSome, OnOk, Ok};
ghost use Rattle.std.specs.List.{count_by};
ghost use Rattle.indexmap.specs.IndexMap.{get};
ghost use Rattle.node_clients.specs.Connections.{asked, doing};
ghost use Rattle.node_clients.specs.declared.next.Next.{Next};
ghost use Rattle.node_clients.specs.declared.connection.State.TheVariants.{Busy};
ghost use Rattle.client_commands.specs.declared.answer.Answer.TheVariants as answers;
ghost use Rattle.client_commands.specs.declared.answer.AnswerError.TheVariants as errors;
ghost use Rattle.client_commands.specs.declared.command.Command.TheVariants as ask;
ghost use Rattle.node_clients.specs.Answers.{CanBeSent};
ghost use Rattle.node_keeper.specs.Acts.{Acts};
ghost use Rattle.node.specs.Failures.{FailsAsked};
ghost use Rattle.node.specs.Moves.{first_not_heard, first_stranger, heard_fault, hears, move_fault};
ghost use Rattle.node.specs.Serving.{ServesCommand};

use super::Node;
use super::commands::wait;
use bytes::Bytes;
use client_commands::{AnswerError, Wanted};
use layout::Layout;
use node_clients::OpenCall;
use node_effects::{NodeError, Work};
use node_strings::{ConnectionId, Heard};

impl Node {
    /// A move begins, unless it has a fault.
    pub(super) fn move_object(
        &mut self,
        client: ConnectionId,
        name: Bytes,
        layout: Layout,
        work: &mut Work,
    ) -> Result<(), NodeError>
        requires { doing (get nat_eq self.old.desk.clients.by_number client) ≡ Busy }
        ensures acts { OnOk result ((asker : ℕ) → Acts asker [] self.old.keeper work.old self.new.keeper work.new) }
        ensures serves { OnOk result ((next : Next) → asked next ≡ Ok (ask.Move name layout)
            → ServesCommand client next self.old work.old self.new work.new) }
        ensures peers { self.new.peers ≡ self.old.peers }
        ensures refused { IfErr result (FailsAsked self.old client (Ok (ask.Move name layout))) }
    {
        if let Some(error) = self.move_fault(&layout) {
            return self.desk.refuse(client, error, work);
        }
        let begun = self.keeper.begin_move(&name, layout, work)?;
        let call = OpenCall {
            name,
            client: Some(client),
            wanted: Wanted::Value,
            is_move: true,
            age: 0,
            deletion: None,
        };
        wait(&mut self.desk, client, call, begun, work)
    }

    // Why a move to this layout may not begin here, if it may not: this node does not move objects, a member of the
    // layout is no node of the cluster, or the host tells which nodes it hears, and fewer than a quorum of the members
    // are among them.
    fn move_fault(&self, layout: &Layout) -> Option<AnswerError>
        ensures fault { result
            ≡ move_fault self.now.keeper.ids.node self.now.keeper.file self.now.peers.heard layout.now }
        ensures told { IfSome result (λ error. CanBeSent (answers.Error error)) }
    {
        if !self.keeper.is_mover() {
            return Some(AnswerError::NotMover);
        }
        if let Some(node) = self.first_stranger(layout) {
            return Some(no_such_node(node));
        }
        match &self.peers.heard {
            Some(heard) => heard_fault(self.keeper.number(), heard, layout),
            None => None,
        }
    }

    // The first member of a layout that is no node of the cluster.
    fn first_stranger(&self, layout: &Layout) -> Option<u8>
        ensures { result ≡ first_stranger self.now.keeper.file layout.now }
    {
        for member in 0..layout.n() {
            let node = layout.member(member);
            if !self.keeper.file.has_node(node) {
                return Some(node);
            }
        }
        None
    }
}

// The fault of a move where the node of this number hears fewer than a quorum of the layout's members.
fn heard_fault(number: u8, heard: &Heard, layout: &Layout) -> Option<AnswerError>
    ensures fault { result ≡ heard_fault number heard.now layout.now }
    ensures told { IfSome result (λ error. CanBeSent (answers.Error error)) }
{
    if count_heard(number, heard, layout) >= layout.quorum() {
        return None;
    }
    match first_not_heard(number, heard, layout) {
        Some(node) => Some(too_few_heard(node)),
        None => None,
    }
}

// The fault of a move to this node, which is no node of the cluster. A client can be told it.
fn no_such_node(node: u8) -> AnswerError
    ensures fault { result ≡ errors.NoSuchNode node }
    ensures told { CanBeSent (answers.Error result) }
{
    AnswerError::NoSuchNode(node)
}

// The fault of a move to nodes of which too few are heard, and not this one. A client can be told it.
fn too_few_heard(node: u8) -> AnswerError
    ensures fault { result ≡ errors.TooFewHeard node }
    ensures told { CanBeSent (answers.Error result) }
{
    AnswerError::TooFewHeard(node)
}

// Whether the node of this number hears a node: itself, and those that its host hears.
fn hears(number: u8, heard: &Heard, node: u8) -> bool
    ensures { result ≡ hears number heard.now node }
{
    node == number || heard.has(node)
}

// How many members of a layout the node of this number hears.
fn count_heard(number: u8, heard: &Heard, layout: &Layout) -> u8
    ensures { result ≡ count_by (hears number heard.now) layout.now.members }
{
    let mut count = 0u8;
    for member in 0..layout.n() {
        let is_heard = hears(number, heard, layout.member(member));
        count = with_one_if(is_heard, count);
    }
    count
}

// One more, if this holds.
fn with_one_if(holds: bool, count: u8) -> u8
    requires { count < 255 }
    ensures { result ≡ (if holds then count + 1 else count) }
{
    if holds { count + 1 } else { count }
}

// The first member of a layout that the node of this number does not hear.
fn first_not_heard(number: u8, heard: &Heard, layout: &Layout) -> Option<u8>
    ensures { result ≡ first_not_heard number heard.now layout.now }
{
    for member in 0..layout.n() {
        let node = layout.member(member);
        if !hears(number, heard, node) {
            return Some(node);
        }
    }
    None
}
