//! How a node carries out the entries of its log again.
ghost use Rattle.std.specs.Prelude.{◌≡◌, ◌∷◌, [], true, IfErr, IfOk, None, OnOk, Some};
ghost use Rattle.local_object.specs.Doing.{close_events, move_refusal, serve_events};
ghost use Rattle.local_object.specs.Events.{LocalEvent};
ghost use Rattle.node_keeper.specs.Objects.{objects_of};
ghost use Rattle.node_effects.specs.declared.error.NodeError.TheVariants.{NoMemory};
ghost use Rattle.node_effects.specs.declared.error.RecoveryError.TheVariants.{Stopped};
ghost use Rattle.node_strings.specs.declared.record.Record.TheVariants as record_of;
ghost use Rattle.recoveries.specs.Records.{IsNamedHearing, IsNamedOutcome, IsStarted, IsNamedReplyOutcome};
ghost use Rattle.node_keeper.specs.Delivering.{first_id};
ghost use Rattle.node_keeper.specs.Keeping.{kept_of};
ghost use Rattle.node.specs.Frames.{IsLetterOf};
ghost use Rattle.node.specs.Recovering.{CarriesOutRecord, ClosesCall, HasCallUnder, KeepsCalls, KeepsCluster};
ghost use Rattle.node.specs.Recovering.{KeepsDesk};
ghost use Rattle.node.specs.Recovering.{RefusesLetter, RefusesOwn, RefusesRecord, resumed_move};

use super::Node;
use bytes::Bytes;
use client_commands::Wanted;
use cluster_file::DIGEST_LENGTH;
use frames::Frame;
use layout::Layout;
use letter::NamedLetter;
use node_clients::OpenCall;
use node_effects::{NodeError, RecoveryError};
use node_messages::{MessageError, read_message};
use node_strings::Record;
use tag::CallId;

impl Node {
    /// Carries out again what an entry records.
    pub(super) fn recover_record(&mut self, it: Record) -> Result<(), RecoveryError>
        ensures done { OnOk result (CarriesOutRecord self.old it self.new) }
        ensures refused { IfErr result (RefusesRecord self.old.is_named self.old.keeper it) }
    {
        match it {
            Record::Cluster { digest, node } => self.recover_cluster(digest, node),
            it if self.is_named => self.recover_deed(it),
            _ => Err(RecoveryError::NoCluster),
        }
    }

    // The log is that of this node of this cluster.
    fn recover_cluster(
        &mut self,
        digest: [u8; DIGEST_LENGTH],
        number: u8,
    ) -> Result<(), RecoveryError>
        ensures done { OnOk result (CarriesOutRecord self.old (record_of.Cluster digest number) self.new) }
        ensures refused { IfErr result
            (RefusesRecord self.old.is_named self.old.keeper (record_of.Cluster digest number)) }
    {
        if self.is_named {
            return Err(RecoveryError::NoEntry);
        }
        if digest != self.keeper.digest {
            return Err(RecoveryError::OtherCluster(digest));
        }
        if number != self.keeper.number() {
            return Err(RecoveryError::OtherNode(number));
        }
        self.is_named = true;
        Ok(())
    }

    // What the node did is done again.
    fn recover_deed(&mut self, it: Record) -> Result<(), RecoveryError>
        requires { self.old.is_named ≡ true }
        ensures done { OnOk result (CarriesOutRecord self.old it self.new) }
        ensures refused { IfErr result (RefusesOwn self.old.keeper it) }
    {
        match it {
            Record::Cluster { digest: _, node: _ } => Err(RecoveryError::NoEntry),
            Record::Start => self.recover_start(),
            Record::Serve(frame) => {
                let it = self.recover_letter(frame)?;
                self.serve_again(it)
            }
            Record::Take(frame) => {
                let it = self.recover_letter(frame)?;
                self.take_again(it)
            }
            Record::Move { id, name, layout } => self.recover_move(id, name, layout),
            Record::Hear {
                position,
                name,
                layout,
            } => self.recover_hearing(name, position, layout),
            Record::Close { position, name } => {
                self.recover_closing(name, position);
                Ok(())
            }
        }
    }

    // An epoch begins again.
    fn recover_start(&mut self) -> Result<(), RecoveryError>
        ensures started { OnOk result (IsStarted (kept_of self.old.keeper) (kept_of self.new.keeper)) }
        ensures rest { KeepsDesk self.old self.new }
        ensures cluster { OnOk result (KeepsCluster self.old.keeper self.new.keeper) }
        ensures calls { KeepsCalls self.old self.new }
        ensures refused { IfErr result (RefusesOwn self.old.keeper record_of.Start) }
    {
        if self.keeper.start_again() {
            Ok(())
        } else {
            Err(RecoveryError::Stopped(NodeError::NoMoreIds))
        }
    }

    // The letter of a message that the log has.
    fn recover_letter(&self, frame: Frame) -> Result<NamedLetter, RecoveryError>
        ensures read { IfOk result (IsLetterOf frame) }
        ensures refused { IfErr result (RefusesLetter frame) }
    {
        match read_message(self.alloc, &frame) {
            Ok(message) => Ok(message.named),
            Err(MessageError::NoMemory) => Err(RecoveryError::Stopped(NodeError::NoMemory)),
            Err(MessageError::Fault(_)) => Err(RecoveryError::NoEntry),
        }
    }

    // A request is served again.
    fn serve_again(&mut self, it: NamedLetter) -> Result<(), RecoveryError>
        ensures served { OnOk result (IsNamedOutcome (kept_of self.old.keeper) it.name
            (serve_events (objects_of self.old.keeper.objects it.name) it.letter) (kept_of self.new.keeper)) }
        ensures rest { KeepsDesk self.old self.new }
        ensures cluster { OnOk result (KeepsCluster self.old.keeper self.new.keeper) }
        ensures calls { KeepsCalls self.old self.new }
        ensures refused { IfErr result (λ e. e ≡ Stopped NoMemory) }
    {
        match self.keeper.serve_again(it) {
            Ok(()) => Ok(()),
            Err(error) => Err(RecoveryError::Stopped(error)),
        }
    }

    // A reply is taken again. A call that it answers is open no more, and nobody is told again.
    fn take_again(&mut self, it: NamedLetter) -> Result<(), RecoveryError>
        ensures taken { OnOk result
            ((taken : IsNamedReplyOutcome (kept_of self.old.keeper) it.name it.letter (kept_of self.new.keeper))
            × ClosesCall self.old (first_id taken.ended) self.new) }
        ensures rest { KeepsDesk self.old self.new }
        ensures cluster { OnOk result (KeepsCluster self.old.keeper self.new.keeper) }
        ensures refused { IfErr result (λ e. e ≡ Stopped NoMemory) }
    {
        match self.keeper.take_again(it) {
            Ok(Some(id)) => {
                let _client = self.desk.closed(id);
                Ok(())
            }
            Ok(None) => Ok(()),
            Err(error) => Err(RecoveryError::Stopped(error)),
        }
    }

    // A move begins again. No client waits for it.
    fn recover_move(&mut self, id: CallId, name: Bytes, layout: Layout) -> Result<(), RecoveryError>
        ensures begun { OnOk result (IsNamedOutcome (kept_of self.old.keeper) name (LocalEvent.BeginMove id layout ∷ [])
            (kept_of self.new.keeper)) }
        ensures unrefused { OnOk result (move_refusal (objects_of self.old.keeper.objects name) id ≡ None) }
        ensures opened { OnOk result (HasCallUnder self.old id (Some (resumed_move name)) self.new) }
        ensures rest { KeepsDesk self.old self.new }
        ensures cluster { OnOk result (KeepsCluster self.old.keeper self.new.keeper) }
        ensures refused { IfErr result (RefusesOwn self.old.keeper (record_of.Move id name layout)) }
    {
        match self.keeper.move_again(&name, id, layout) {
            Ok(()) => {
                let call = OpenCall {
                    name,
                    client: None,
                    wanted: Wanted::Value,
                    is_move: true,
                    age: 0,
                    deletion: None,
                };
                match self.desk.open(id, call) {
                    Ok(()) => Ok(()),
                    Err(error) => Err(RecoveryError::Stopped(error)),
                }
            }
            Err(error) => Err(RecoveryError::Stopped(error)),
        }
    }

    // The node hears of a position again.
    fn recover_hearing(
        &mut self,
        name: Bytes,
        position: u32,
        layout: Layout,
    ) -> Result<(), RecoveryError>
        ensures heard { OnOk result
            (IsNamedHearing (kept_of self.old.keeper) name position layout (kept_of self.new.keeper)) }
        ensures rest { KeepsDesk self.old self.new }
        ensures cluster { OnOk result (KeepsCluster self.old.keeper self.new.keeper) }
        ensures calls { KeepsCalls self.old self.new }
        ensures refused { IfErr result (λ e. e ≡ Stopped NoMemory) }
    {
        match self.keeper.hear_again(&name, position, layout) {
            Ok(()) => Ok(()),
            Err(error) => Err(RecoveryError::Stopped(error)),
        }
    }

    // The node closes its bank of a position again.
    fn recover_closing(&mut self, name: Bytes, position: u32)
        ensures closed { IsNamedOutcome (kept_of self.old.keeper) name
            (close_events (objects_of self.old.keeper.objects name) position) (kept_of self.new.keeper) }
        ensures rest { KeepsDesk self.old self.new }
        ensures cluster { KeepsCluster self.old.keeper self.new.keeper }
        ensures calls { KeepsCalls self.old self.new }
    {
        self.keeper.close_again(&name, position);
    }
}
