//! What a node does with the commands of its clients.
ghost use Rattle.std.specs.Prelude.{◌≡◌, ◌∷◌, [], ℕ, List, nat_eq, IfErr, OnOk, Ok, Some};
ghost use Rattle.indexmap.specs.IndexMap.{get};
ghost use Rattle.node_clients.specs.Connections.{asked, doing};
ghost use Rattle.node_clients.specs.declared.next.Next.{Next as Waits};
ghost use Rattle.node_clients.specs.declared.connection.State.TheVariants.{Busy};
ghost use Rattle.client_commands.specs.Deletion.{name_now};
ghost use Rattle.client_commands.specs.declared.command.Command.TheVariants as ask;
ghost use Rattle.node_clients.specs.Answers.{TellsClients};
ghost use Rattle.node_clients.specs.Desk.{NoneWaits};
ghost use Rattle.node_keeper.specs.Acts.{Acts};
ghost use Rattle.node_effects.specs.declared.error.NodeError.TheVariants.{NoMemory};
ghost use Rattle.node.specs.BegunCalls.{wants_nothing};
ghost use Rattle.node.specs.Failures.{FailsAsked, FailsNext};
ghost use Rattle.node.specs.Serving.{IsAwaited, ServesCommand, ServesNext};

use super::Node;
use bytes::Bytes;
use client_commands::{AnswerError, Command, Deletion, Wanted};
use node_clients::{Desk, Next, OpenCall};
use node_effects::{NodeError, Work};
use node_keeper::Begun;
use node_strings::ConnectionId;

impl Node {
    /// Carries out the next command of a connection, if one may be carried out.
    pub(super) fn go_on(&mut self, client: ConnectionId, work: &mut Work) -> Result<(), NodeError>
        ensures acts { OnOk result ((asker : ℕ) → Acts asker [] self.old.keeper work.old self.new.keeper work.new) }
        ensures serves { OnOk result (ServesNext client self.old work.old self.new work.new) }
        ensures waits { OnOk result (NoneWaits self.old.desk.clients (client ∷ work.old.due.items)
            → NoneWaits self.new.desk.clients work.new.due.items) }
        ensures peers { self.new.peers ≡ self.old.peers }
        ensures refused { IfErr result (FailsNext self.old client) }
    {
        if !self.desk.clients.has_next(client) {
            return Ok(());
        }
        match self.desk.clients.next(client) {
            Some(next) => self.carry_out(client, next, work),
            None => Ok(()),
        }
    }

    // Carries out a command of a connection, which is busy with it.
    fn carry_out(
        &mut self,
        client: ConnectionId,
        next: Next,
        work: &mut Work,
    ) -> Result<(), NodeError>
        requires { doing (get nat_eq self.old.desk.clients.by_number client) ≡ Busy }
        ensures acts { OnOk result ((asker : ℕ) → Acts asker [] self.old.keeper work.old self.new.keeper work.new) }
        ensures serves { OnOk result (ServesCommand client next self.old work.old self.new work.new) }
        ensures peers { self.new.peers ≡ self.old.peers }
        ensures refused { IfErr result (FailsAsked self.old client (asked next)) }
    {
        match next.command() {
            Ok(command) => self.obey(client, command, work),
            Err(fault) => self.desk.refuse(client, AnswerError::Fault(fault), work),
        }
    }

    // Does what the command of a connection asks, which is busy with it.
    fn obey(
        &mut self,
        client: ConnectionId,
        command: Command,
        work: &mut Work,
    ) -> Result<(), NodeError>
        requires { doing (get nat_eq self.old.desk.clients.by_number client) ≡ Busy }
        ensures acts { OnOk result ((asker : ℕ) → Acts asker [] self.old.keeper work.old self.new.keeper work.new) }
        ensures serves { OnOk result ((next : Waits) → asked next ≡ Ok command
            → ServesCommand client next self.old work.old self.new work.new) }
        ensures peers { self.new.peers ≡ self.old.peers }
        ensures refused { IfErr result (FailsAsked self.old client (Ok command)) }
    {
        match command {
            Command::Read { wanted, name } => self.read(client, wanted, name, work),
            Command::Set { name, value } => self.write(client, name, value, work),
            Command::Delete(deletion) => self.delete(client, deletion, work),
            Command::Move { name, layout } => self.move_object(client, name, layout, work),
            Command::Quit => self.desk.quit(client, work),
            command => {
                let answer = self.plain_answer(client, command)?;
                self.desk.answer(client, answer, work)
            }
        }
    }

    // A read begins, of whose value the client wants this. If it wants nothing, as when a move has ended, the read asks
    // all nodes, so that each of them hears of the object's start.
    fn read(
        &mut self,
        client: ConnectionId,
        wanted: Wanted,
        name: Bytes,
        work: &mut Work,
    ) -> Result<(), NodeError>
        requires { doing (get nat_eq self.old.desk.clients.by_number client) ≡ Busy }
        ensures acts { OnOk result ((asker : ℕ) → Acts asker [] self.old.keeper work.old self.new.keeper work.new) }
        ensures serves { OnOk result ((next : Waits) → asked next ≡ Ok (ask.Read wanted name)
            → ServesCommand client next self.old work.old self.new work.new) }
        ensures peers { self.new.peers ≡ self.old.peers }
        ensures refused { IfErr result (FailsAsked self.old client (Ok (ask.Read wanted name))) }
    {
        let begun = self.keeper.begin_read(&name, wants_nothing(wanted), work)?;
        let call = OpenCall {
            name,
            client: Some(client),
            wanted,
            is_move: false,
            age: 0,
            deletion: None,
        };
        wait(&mut self.desk, client, call, begun, work)
    }

    // A write begins.
    fn write(
        &mut self,
        client: ConnectionId,
        name: Bytes,
        value: Bytes,
        work: &mut Work,
    ) -> Result<(), NodeError>
        requires { doing (get nat_eq self.old.desk.clients.by_number client) ≡ Busy }
        ensures acts { OnOk result ((asker : ℕ) → Acts asker [] self.old.keeper work.old self.new.keeper work.new) }
        ensures serves { OnOk result ((next : Waits) → asked next ≡ Ok (ask.Set name value)
            → ServesCommand client next self.old work.old self.new work.new) }
        ensures peers { self.new.peers ≡ self.old.peers }
        ensures refused { IfErr result (FailsAsked self.old client (Ok (ask.Set name value))) }
    {
        let begun = self.keeper.begin_write(&name, value, work)?;
        let call = OpenCall {
            name,
            client: Some(client),
            wanted: Wanted::Value,
            is_move: false,
            age: 0,
            deletion: None,
        };
        wait(&mut self.desk, client, call, begun, work)
    }

    // The next write of a `DEL` begins.
    fn delete(
        &mut self,
        client: ConnectionId,
        deletion: Deletion,
        work: &mut Work,
    ) -> Result<(), NodeError>
        requires { doing (get nat_eq self.old.desk.clients.by_number client) ≡ Busy }
        ensures acts { OnOk result ((asker : ℕ) → Acts asker [] self.old.keeper work.old self.new.keeper work.new) }
        ensures serves { OnOk result ((next : Waits) → asked next ≡ Ok (ask.Delete deletion)
            → ServesCommand client next self.old work.old self.new work.new) }
        ensures peers { self.new.peers ≡ self.old.peers }
        ensures refused { IfErr result (FailsAsked self.old client (Ok (ask.Delete deletion))) }
    {
        let name = deletion.name()?;
        let begun = self.keeper.begin_write(&name, Bytes::new(), work)?;
        let call = OpenCall {
            name,
            client: Some(client),
            wanted: Wanted::Value,
            is_move: false,
            age: 0,
            deletion: Some(deletion),
        };
        wait(&mut self.desk, client, call, begun, work)
    }
}

// Whether nothing is wanted of a value that is read.
fn wants_nothing(wanted: Wanted) -> bool
    ensures { result ≡ wants_nothing wanted }
{
    matches!(wanted, Wanted::Nothing)
}

// A call has begun, and its client, whose connection is busy, waits for it; or it was refused, and its client is told.
pub(super) fn wait(
    desk: &mut Desk,
    client: ConnectionId,
    call: OpenCall,
    begun: Begun,
    work: &mut Work,
) -> Result<(), NodeError>
    requires { doing (get nat_eq desk.old.clients.by_number client) ≡ Busy }
    ensures tells { OnOk result (TellsClients work.old work.new) }
    ensures awaited { OnOk result (IsAwaited desk.old work.old client (Some call) begun desk.new work.new) }
    ensures refused { IfErr result (λ e. e ≡ NoMemory) }
{
    match begun {
        Begun::Open(id) => {
            desk.open(id, call)?;
            Ok(())
        }
        Begun::Refused(refusal) => desk.refuse(client, AnswerError::Refused(refusal), work),
    }
}
