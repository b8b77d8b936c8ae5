//! What clients are told when their calls end.
ghost use Rattle.std.specs.Prelude.{◌≡◌, ◌≢◌, ℕ, IfErr, None, OnOk, Some};
ghost use Rattle.client_commands.specs.declared.answer.Answer.TheVariants as answers;
ghost use Rattle.client_commands.specs.declared.answer.AnswerError.TheVariants.{NoQuorum};
ghost use Rattle.node_effects.specs.Errors.{IsUnwritten};
ghost use Rattle.node_effects.specs.Work.{IsGrown};
ghost use Rattle.node_effects.specs.declared.error.NodeError.TheVariants.{NoMemory};
ghost use Rattle.client_commands.specs.Deletion.{count_of, left_over};
ghost use Rattle.node_clients.specs.Answers.{CanBeSent, TellsClients, due_growth, last_answer};
ghost use Rattle.node_clients.specs.Calls.{call_answer, call_under, deletes, left_of, rest_of};
ghost use Rattle.node_clients.specs.Calls.{waiting_for, with_nobody};
ghost use Rattle.node_clients.specs.Desk.{IsEndedFor, IsIdleFor, IsPutBack, end_growth, growth_for, has_listener};
ghost use Rattle.node_clients.specs.Desk.{is_answered_for, is_connected, with_told, with_give_up};

use super::Desk;
use super::told::ended_answer;
use crate::open_call::OpenCall;
use crate::rest::Rest;
use client_commands::{Answer, AnswerError, Deletion};
use local_object::Ended;
use node_effects::{NodeError, Work};
use node_strings::ConnectionId;
use tag::CallId;

impl Desk {
    /// Removes a call that was answered. The client that waits for it, if its connection is still there, is sent the
    /// answer. If the call is a move, or a write of a `DEL` of which more is left, the client is sent nothing, and what
    /// is left is its next command: after a move the read that confirms it. With the bound `delta`, a `DEL` writes to
    /// each name as `Deletion::left` says. Fails with `NoMemory`, or with `Unwritable` if the answer has a string that
    /// is too long for a frame.
    pub fn end(
        &mut self,
        ended: Ended,
        delta: Option<u32>,
        work: &mut Work,
    ) -> Result<(), NodeError>
        ensures told { OnOk result (IsGrown work.old work.new
            (end_growth self.old (waiting_for self.old.calls ended.id)
            (rest_of delta (call_under self.old.calls ended.id))
            (call_answer (call_under self.old.calls ended.id) ended))) }
        ensures tells { OnOk result (TellsClients work.old work.new) }
        ensures gone { call_under self.new.calls ended.id ≡ None }
        ensures others { (other : ℕ) → other ≢ ended.id
            → call_under self.new.calls other ≡ call_under self.old.calls other }
        ensures idle { OnOk result (IsEndedFor self.old.clients (waiting_for self.old.calls ended.id)
            (rest_of delta (call_under self.old.calls ended.id)) self.new.clients) }
        ensures counts { OnOk result (self.new.counts ≡ with_told (is_answered_for self.old
            (waiting_for self.old.calls ended.id) (rest_of delta (call_under self.old.calls ended.id)))
            self.old.counts) }
        ensures refused { IfErr result
            (IsUnwritten (CanBeSent (call_answer (call_under self.old.calls ended.id) ended))) }
    {
        let id = ended.id;
        match self.taken(id) {
            Some(call) => self.conclude(call, ended, delta, work),
            None => Ok(()),
        }
    }

    // A call was answered, which is open no more.
    fn conclude(
        &mut self,
        call: OpenCall,
        ended: Ended,
        delta: Option<u32>,
        work: &mut Work,
    ) -> Result<(), NodeError>
        ensures told { OnOk result (IsGrown work.old work.new
            (end_growth self.old call.client (rest_of delta (Some call)) (call_answer (Some call) ended))) }
        ensures tells { OnOk result (TellsClients work.old work.new) }
        ensures calls { self.new.calls ≡ self.old.calls }
        ensures idle { OnOk result
            (IsEndedFor self.old.clients call.client (rest_of delta (Some call)) self.new.clients) }
        ensures counts { OnOk result (self.new.counts
            ≡ with_told (is_answered_for self.old call.client (rest_of delta (Some call))) self.old.counts) }
        ensures refused { IfErr result (IsUnwritten (CanBeSent (call_answer (Some call) ended))) }
    {
        match call.client {
            Some(client) => self.serve(client, call, ended, delta, work),
            None => Ok(()),
        }
    }

    // A call was answered, for which this client waits.
    fn serve(
        &mut self,
        client: ConnectionId,
        call: OpenCall,
        ended: Ended,
        delta: Option<u32>,
        work: &mut Work,
    ) -> Result<(), NodeError>
        ensures told { OnOk result (IsGrown work.old work.new
            (end_growth self.old (Some client) (rest_of delta (Some call)) (call_answer (Some call) ended))) }
        ensures tells { OnOk result (TellsClients work.old work.new) }
        ensures calls { self.new.calls ≡ self.old.calls }
        ensures idle { OnOk result
            (IsEndedFor self.old.clients (Some client) (rest_of delta (Some call)) self.new.clients) }
        ensures counts { OnOk result (self.new.counts
            ≡ with_told (is_answered_for self.old (Some client) (rest_of delta (Some call))) self.old.counts) }
        ensures refused { IfErr result (IsUnwritten (CanBeSent (call_answer (Some call) ended))) }
    {
        if call.is_move {
            return self.put_back(client, Rest::Confirms(call.name), work);
        }
        let answer = ended_answer(call.wanted, ended);
        self.tell(client, call.deletion, answer, delta, work)
    }

    // A call that is no move was answered, for which this client waits. The client is told this, if the call is no
    // write of a `DEL`.
    fn tell(
        &mut self,
        client: ConnectionId,
        deletion: Option<Deletion>,
        answer: Answer,
        delta: Option<u32>,
        work: &mut Work,
    ) -> Result<(), NodeError>
        ensures told { OnOk result (IsGrown work.old work.new
            (end_growth self.old (Some client) (deletes (left_of delta deletion)) (last_answer deletion answer))) }
        ensures tells { OnOk result (TellsClients work.old work.new) }
        ensures calls { self.new.calls ≡ self.old.calls }
        ensures idle { OnOk result
            (IsEndedFor self.old.clients (Some client) (deletes (left_of delta deletion)) self.new.clients) }
        ensures counts { OnOk result (self.new.counts
            ≡ with_told (is_answered_for self.old (Some client) (deletes (left_of delta deletion))) self.old.counts) }
        ensures refused { IfErr result (IsUnwritten (CanBeSent (last_answer deletion answer))) }
    {
        match deletion {
            Some(deletion) => self.pass(client, deletion, delta, work),
            None => self.answer(client, answer, work),
        }
    }

    // A write of a `DEL` was answered, for which this client waits.
    fn pass(
        &mut self,
        client: ConnectionId,
        deletion: Deletion,
        delta: Option<u32>,
        work: &mut Work,
    ) -> Result<(), NodeError>
        ensures told { OnOk result (IsGrown work.old work.new
            (end_growth self.old (Some client) (deletes (left_over delta deletion))
            (answers.Number (count_of deletion)))) }
        ensures tells { OnOk result (TellsClients work.old work.new) }
        ensures calls { self.new.calls ≡ self.old.calls }
        ensures idle { OnOk result
            (IsEndedFor self.old.clients (Some client) (deletes (left_over delta deletion)) self.new.clients) }
        ensures counts { OnOk result (self.new.counts
            ≡ with_told (is_answered_for self.old (Some client) (deletes (left_over delta deletion))) self.old.counts) }
        ensures refused { IfErr result (IsUnwritten (CanBeSent (answers.Number (count_of deletion)))) }
    {
        let count = deletion.count();
        match deletion.left(delta) {
            Some(rest) => self.put_back(client, Rest::Deletes(rest), work),
            None => self.answer(client, Answer::Number(count), work),
        }
    }

    // What is left of a command is the next command of its client, if the connection is still there.
    fn put_back(
        &mut self,
        client: ConnectionId,
        rest: Rest,
        work: &mut Work,
    ) -> Result<(), NodeError>
        ensures grown { OnOk result (IsGrown work.old work.new
            (due_growth (is_connected self.old client) client)) }
        ensures tells { OnOk result (TellsClients work.old work.new) }
        ensures calls { self.new.calls ≡ self.old.calls }
        ensures back { OnOk result (IsPutBack self.old.clients client rest self.new.clients) }
        ensures counts { self.new.counts ≡ self.old.counts }
        ensures refused { IfErr result (λ e. e ≡ NoMemory) }
    {
        let is_there = self.clients.put_back(client, rest)?;
        if is_there {
            return work.make_due(client);
        }
        Ok(())
    }

    /// Removes a call that was given up, and tells the client that waits for it that no quorum answered, if its
    /// connection is still there. Fails with `NoMemory`.
    pub fn give_up(&mut self, id: CallId, work: &mut Work) -> Result<(), NodeError>
        ensures told { OnOk result (IsGrown work.old work.new
            (growth_for self.old (waiting_for self.old.calls id) (answers.Error NoQuorum))) }
        ensures tells { OnOk result (TellsClients work.old work.new) }
        ensures gone { call_under self.new.calls id ≡ None }
        ensures others { (other : ℕ) → other ≢ id → call_under self.new.calls other ≡ call_under self.old.calls other }
        ensures idle { IsIdleFor self.old.clients (waiting_for self.old.calls id) self.new.clients }
        ensures counts { self.new.counts
            ≡ with_told (has_listener self.old (waiting_for self.old.calls id)) (with_give_up self.old.counts) }
        ensures refused { IfErr result (λ e. e ≡ NoMemory) }
    {
        self.counts.given_up = self.counts.given_up.saturating_add(1);
        self.close(id, Answer::Error(AnswerError::NoQuorum), work)
    }

    /// Tells the client that waits for a call that no quorum answered, if its connection is still there. The client no
    /// longer waits, and the call stays open. Fails with `NoMemory`.
    pub fn release(&mut self, id: CallId, work: &mut Work) -> Result<(), NodeError>
        ensures told { OnOk result (IsGrown work.old work.new
            (growth_for self.old (waiting_for self.old.calls id) (answers.Error NoQuorum))) }
        ensures tells { OnOk result (TellsClients work.old work.new) }
        ensures released { call_under self.new.calls id ≡ with_nobody (call_under self.old.calls id) }
        ensures others { (other : ℕ) → other ≢ id → call_under self.new.calls other ≡ call_under self.old.calls other }
        ensures idle { IsIdleFor self.old.clients (waiting_for self.old.calls id) self.new.clients }
        ensures counts { self.new.counts
            ≡ with_told (has_listener self.old (waiting_for self.old.calls id)) self.old.counts }
        ensures refused { IfErr result (λ e. e ≡ NoMemory) }
    {
        match self.released(id) {
            Some(client) => self.refuse(client, AnswerError::NoQuorum, work),
            None => Ok(()),
        }
    }

    // A call is open no more. Its client, if one waits and its connection is there, gets this answer.
    fn close(&mut self, id: CallId, answer: Answer, work: &mut Work) -> Result<(), NodeError>
        ensures told { OnOk result (IsGrown work.old work.new
            (growth_for self.old (waiting_for self.old.calls id) answer)) }
        ensures tells { OnOk result (TellsClients work.old work.new) }
        ensures gone { call_under self.new.calls id ≡ None }
        ensures others { (other : ℕ) → other ≢ id → call_under self.new.calls other ≡ call_under self.old.calls other }
        ensures idle { IsIdleFor self.old.clients (waiting_for self.old.calls id) self.new.clients }
        ensures counts { self.new.counts
            ≡ with_told (has_listener self.old (waiting_for self.old.calls id)) self.old.counts }
        ensures refused { IfErr result (IsUnwritten (CanBeSent answer)) }
    {
        match self.closed(id) {
            Some(client) => self.answer(client, answer, work),
            None => Ok(()),
        }
    }
}
