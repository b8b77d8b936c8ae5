//! Answers to commands.
ghost use Rattle.std.specs.Prelude.{◌≡◌, IfErr, OnOk};
ghost use Rattle.client_commands.specs.declared.answer.Answer.TheVariants as answers;
ghost use Rattle.node_effects.specs.Errors.{IsUnwritten};
ghost use Rattle.node_effects.specs.Work.{IsGrown};
ghost use Rattle.node_clients.specs.Answers.{CanBeSent, TellsClients, answer_growth};
ghost use Rattle.node_clients.specs.Desk.{IsIdleAgain, is_connected, with_told};

use super::Desk;
use client_commands::{Answer, AnswerError};
use node_effects::{NodeError, Work};
use node_strings::ConnectionId;

impl Desk {
    /// Answers the command of a connection, if the connection is still there, and makes its next command due. Fails
    /// with `NoMemory`, or with `Unwritable` if the answer has a string that is too long for a frame.
    pub fn answer(
        &mut self,
        client: ConnectionId,
        answer: Answer,
        work: &mut Work,
    ) -> Result<(), NodeError>
        ensures grown { OnOk result (IsGrown work.old work.new
            (answer_growth (is_connected self.old client) client answer)) }
        ensures tells { OnOk result (TellsClients work.old work.new) }
        ensures idle { IsIdleAgain self.old.clients client self.new.clients }
        ensures calls { self.new.calls ≡ self.old.calls }
        ensures counts { self.new.counts ≡ with_told (is_connected self.old client) self.old.counts }
        ensures refused { IfErr result (IsUnwritten (CanBeSent answer)) }
    {
        if !self.clients.answered(client) {
            return Ok(());
        }
        self.counts.answered = self.counts.answered.saturating_add(1);
        work.answer(client, answer)?;
        work.make_due(client)
    }

    /// Tells a client why its command is not carried out, if the connection is still there, and makes its next command
    /// due. Fails with `NoMemory`, or with `Unwritable` if the text of the error is too long for a frame.
    pub fn refuse(
        &mut self,
        client: ConnectionId,
        error: AnswerError,
        work: &mut Work,
    ) -> Result<(), NodeError>
        ensures grown { OnOk result (IsGrown work.old work.new
            (answer_growth (is_connected self.old client) client (answers.Error error))) }
        ensures tells { OnOk result (TellsClients work.old work.new) }
        ensures idle { IsIdleAgain self.old.clients client self.new.clients }
        ensures calls { self.new.calls ≡ self.old.calls }
        ensures counts { self.new.counts ≡ with_told (is_connected self.old client) self.old.counts }
        ensures refused { IfErr result (IsUnwritten (CanBeSent (answers.Error error))) }
    {
        self.answer(client, Answer::Error(error), work)
    }
}
