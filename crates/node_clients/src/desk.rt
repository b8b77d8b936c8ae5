//! The clients of a node, and the calls that it carries out.
ghost use Rattle.std.specs.Prelude.{◌≡◌, ◌≢◌, [], ℕ, nat_eq, is_some, IfErr, IsSome, OnOk};
ghost use Rattle.indexmap.specs.IndexMap.{get};
ghost use Rattle.node_clients.specs.Connections.{doing, waiting_on};
ghost use Rattle.node_clients.specs.declared.connection.State.TheVariants.{Quit};
ghost use Rattle.node_effects.specs.Work.{IsGrown};
ghost use Rattle.node_effects.specs.declared.error.NodeError.TheVariants.{NoMemory};
ghost use Rattle.node_clients.specs.Answers.{TellsClients, quit_growth};
ghost use Rattle.node_clients.specs.Desk.{none_counted};

use crate::connections::Connections;
use crate::counts::Counts;
use crate::open_call::OpenCall;
use client_commands::Answer;
use indexmap::IndexMap;
use node_effects::{NodeError, Work};
use node_strings::ConnectionId;
use std::alloc::Global;
use tag::CallId;

mod answers;
mod calls;
mod endings;
mod told;

/// The connections of a node's clients, and the calls that the node carries out.
///
/// If a function fails, its contract says nothing about what was sent, because the node stops.
pub struct Desk {
    alloc: Global,
    /// The connections of clients, with the commands that wait on them.
    pub clients: Connections,
    /// The calls that are open, by their ids.
    pub calls: IndexMap<CallId, OpenCall>,
    /// What was counted since the start.
    pub counts: Counts,
}

impl Drop for Desk {
    fn drop(self) {
        let Self {
            alloc: _,
            clients: _,
            calls: _,
            counts: _,
        } = self;
    }
}

impl Desk {
    /// Makes a desk without clients and calls, with all counts 0. It allocates no memory.
    pub fn new(alloc: Global) -> Desk
        ensures clients { result.clients.by_number.entries ≡ [] }
        ensures calls { result.calls.entries ≡ [] }
        ensures counts { result.counts ≡ none_counted }
    {
        Desk {
            alloc,
            clients: Connections::new(alloc),
            calls: IndexMap::new(alloc),
            counts: Counts::ZERO,
        }
    }

    /// Answers a client that quits with `OK`, and has the host close the connection. Fails with `NoMemory`.
    pub fn quit(&mut self, client: ConnectionId, work: &mut Work) -> Result<(), NodeError>
        ensures grown { OnOk result (IsGrown work.old work.new (quit_growth client)) }
        ensures tells { OnOk result (TellsClients work.old work.new) }
        ensures state { OnOk result (IsSome (get nat_eq self.old.clients.by_number client)
            → doing (get nat_eq self.new.clients.by_number client) ≡ Quit) }
        ensures waiting { OnOk result (waiting_on (get nat_eq self.new.clients.by_number client)
            ≡ waiting_on (get nat_eq self.old.clients.by_number client)) }
        ensures stays { OnOk result (is_some (get nat_eq self.new.clients.by_number client)
            ≡ is_some (get nat_eq self.old.clients.by_number client)) }
        ensures others { OnOk result ((other : ℕ) → other ≢ client
            → get nat_eq self.new.clients.by_number other ≡ get nat_eq self.old.clients.by_number other) }
        ensures calls { self.new.calls ≡ self.old.calls }
        ensures counts { self.new.counts ≡ self.old.counts }
        ensures refused { IfErr result (λ e. e ≡ NoMemory) }
    {
        work.answer(client, Answer::Ok)?;
        work.close(client)?;
        self.clients.quit(client);
        Ok(())
    }
}
