//! The open calls of a node.
ghost use Rattle.std.specs.Prelude.{◌≡◌, ◌≢◌, ℕ, IfErr, IfOk, None, OnOk, Some};
ghost use Rattle.indexmap.specs.IndexMap.{keys};
ghost use Rattle.node_effects.specs.declared.error.NodeError.TheVariants.{NoMemory};
ghost use Rattle.node_clients.specs.Calls.{aged_call, call_under, older_call, waiting_for, with_nobody};

use super::Desk;
use crate::open_call::{Aged, OpenCall};
use node_effects::NodeError;
use node_strings::ConnectionId;
use tag::CallId;

impl Desk {
    /// Adds an open call. Fails with `NoMemory`, and then nothing changes.
    pub fn open(&mut self, id: CallId, call: OpenCall) -> Result<(), NodeError>
        ensures opened { OnOk result (call_under self.new.calls id ≡ Some call) }
        ensures others { (other : ℕ) → other ≢ id → call_under self.new.calls other ≡ call_under self.old.calls other }
        ensures unchanged { IfErr result (λ e. call_under self.new.calls id ≡ call_under self.old.calls id) }
        ensures clients { self.new.clients ≡ self.old.clients }
        ensures counts { self.new.counts ≡ self.old.counts }
        ensures refused { IfErr result (λ e. e ≡ NoMemory) }
    {
        match self.calls.insert(id, call) {
            Ok(_) => Ok(()),
            Err(_) => Err(NodeError::NoMemory),
        }
    }

    /// Removes an open call, and returns it, if it was open.
    pub(super) fn taken(&mut self, id: CallId) -> Option<OpenCall>
        ensures taken { result ≡ call_under self.old.calls id }
        ensures gone { call_under self.new.calls id ≡ None }
        ensures others { (other : ℕ) → other ≢ id → call_under self.new.calls other ≡ call_under self.old.calls other }
        ensures clients { self.new.clients ≡ self.old.clients }
        ensures counts { self.new.counts ≡ self.old.counts }
    {
        self.calls.swap_remove(&id)
    }

    /// Removes an open call. Returns the connection that waited for its answer, if one did.
    pub fn closed(&mut self, id: CallId) -> Option<ConnectionId>
        ensures client { result ≡ waiting_for self.old.calls id }
        ensures gone { call_under self.new.calls id ≡ None }
        ensures others { (other : ℕ) → other ≢ id → call_under self.new.calls other ≡ call_under self.old.calls other }
        ensures clients { self.new.clients ≡ self.old.clients }
        ensures counts { self.new.counts ≡ self.old.counts }
    {
        match self.taken(id) {
            Some(call) => call.client,
            None => None,
        }
    }

    /// The client of a call no longer waits for it. Returns the connection that waited, if one did.
    pub(super) fn released(&mut self, id: CallId) -> Option<ConnectionId>
        ensures client { result ≡ waiting_for self.old.calls id }
        ensures released { call_under self.new.calls id ≡ with_nobody (call_under self.old.calls id) }
        ensures others { (other : ℕ) → other ≢ id → call_under self.new.calls other ≡ call_under self.old.calls other }
        ensures clients { self.new.clients ≡ self.old.clients }
        ensures counts { self.new.counts ≡ self.old.counts }
    {
        match self.calls.get_mut(&id) {
            Some(call) => call.client.take(),
            None => None,
        }
    }

    /// Returns the ids of the open calls. Fails with `NoMemory`.
    pub fn open_ids(&self) -> Result<Vec<CallId>, NodeError>
        ensures ids { IfOk result (λ ids. ids.items ≡ keys self.now.calls) }
        ensures refused { IfErr result (λ e. e ≡ NoMemory) }
    {
        let Ok(mut ids) = Vec::with_capacity(self.alloc, self.calls.len()) else {
            return Err(NodeError::NoMemory);
        };
        for id in self.calls.keys().copied() {
            if ids.push(id).is_err() {
                return Err(NodeError::NoMemory);
            }
        }
        Ok(ids)
    }

    /// Makes an open call older by a tick. The call is late if it is then older than this number of ticks. Returns none
    /// and changes nothing if no call with this id is open. Fails with `NoMemory`, and then nothing changes.
    pub fn aged(&mut self, id: CallId, ticks: u32) -> Result<Option<Aged>, NodeError>
        ensures aged { IfOk result (λ aged. aged ≡ aged_call ticks (call_under self.old.calls id)) }
        ensures older { OnOk result (call_under self.new.calls id ≡ older_call (call_under self.old.calls id)) }
        ensures others { (other : ℕ) → other ≢ id → call_under self.new.calls other ≡ call_under self.old.calls other }
        ensures unchanged { IfErr result (λ e. call_under self.new.calls id ≡ call_under self.old.calls id) }
        ensures clients { self.new.clients ≡ self.old.clients }
        ensures counts { self.new.counts ≡ self.old.counts }
        ensures refused { IfErr result (λ e. e ≡ NoMemory) }
    {
        match self.calls.get_mut(&id) {
            Some(call) => Ok(Some(call.grow_older(ticks)?)),
            None => Ok(None),
        }
    }
}
