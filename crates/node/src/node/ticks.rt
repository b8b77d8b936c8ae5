//! What a node does as time passes.
ghost use Rattle.std.specs.Prelude.{◌≡◌, ◌⊎◌, [], ◌∷◌, ◌&&◌, not, false, ℕ, IfErr, OnOk};
ghost use Rattle.indexmap.specs.IndexMap.{keys};
ghost use Rattle.node_effects.specs.declared.error.NodeError.TheVariants.{NoMemory};
ghost use Rattle.node_keeper.specs.Acts.{Acts};
ghost use Rattle.node_keeper.specs.Resending.{CanResend};
ghost use Rattle.node.specs.Failures.{FailsAged, FailsTicks, IsFailure};
ghost use Rattle.node.specs.Serving.{SeesNothing, ServesLate, ServesTicks};
ghost use Rattle.node.specs.Ticks.{HasSameRest, IsKeptAs, IsKeptAtAge, PutsOut, SendsAgain, again_if, aged_at};
ghost use Rattle.node.specs.Ticks.{sent_at_age};
ghost use Rattle.writable.specs.Keepers.{IsFitKeeper, IsLeftFit, IsShortName};

use super::Node;
use node_clients::Aged;
use node_effects::{NodeError, Work};
use tag::CallId;

impl Node {
    /// Does what is due after a tick. Open calls send their requests again to the members that have not replied, ever
    /// more rarely; one that reads the sequence of layouts at a position before the object's start goes on at the
    /// start. A call that has been open for 8 ticks or more, and asks for the next position, then also asks all nodes.
    /// A read or a write that is older than the cluster file's number of ticks is given up. A move that is as old goes
    /// on, but its client is told that no quorum has answered.
    pub(super) fn tick(&mut self, work: &mut Work) -> Result<(), NodeError>
        ensures acts { OnOk result ((asker : ℕ) → Acts asker [] self.old.keeper work.old self.new.keeper work.new) }
        ensures serves { OnOk result (ServesTicks (keys self.old.desk.calls) self.old work.old self.new work.new) }
        ensures again { OnOk result (SendsAgain (keys self.old.desk.calls) self.old work.old.outputs.items
            self.new work.new.outputs.items) }
        ensures peers { self.new.peers ≡ self.old.peers }
        ensures refused { IfErr result (λ e. (e ≡ NoMemory) ⊎ FailsTicks (keys self.old.desk.calls) self.old e) }
    {
        let ids = self.desk.open_ids()?;
        for id in ids {
            self.tick_call(id, work)?;
        }
        Ok(())
    }

    // An open call is older by a tick.
    fn tick_call(&mut self, id: CallId, work: &mut Work) -> Result<(), NodeError>
        ensures acts { OnOk result ((asker : ℕ) → Acts asker [] self.old.keeper work.old self.new.keeper work.new) }
        ensures serves { OnOk result (ServesTicks (id ∷ []) self.old work.old self.new work.new) }
        ensures again { OnOk result (PutsOut self.old.keeper (sent_at_age self.old.keeper id (aged_at self.old id))
            work.old.outputs.items work.new.outputs.items) }
        ensures kept { OnOk result (IsKeptAtAge self.old.keeper id (aged_at self.old id) self.new.keeper) }
        ensures peers { self.new.peers ≡ self.old.peers }
        ensures refused { IfErr result (FailsAged id self.old) }
    {
        let Some(call) = self.desk.aged(id, self.keeper.file.ticks())? else {
            return Ok(());
        };
        if call.is_late {
            return self.be_late(id, call, work);
        }
        self.ask_again(id, &call, work)
    }

    // A call has been open for too many ticks.
    fn be_late(&mut self, id: CallId, call: Aged, work: &mut Work) -> Result<(), NodeError>
        ensures acts { OnOk result ((asker : ℕ) → Acts asker [] self.old.keeper work.old self.new.keeper work.new) }
        ensures late { OnOk result (ServesLate id call.is_move self.old work.old self.new work.new) }
        ensures again { OnOk result (PutsOut self.old.keeper
            (again_if (call.is_move && call.asks_again) call.asks_all self.old.keeper call.name id)
            work.old.outputs.items work.new.outputs.items) }
        ensures kept { OnOk result
            (IsKeptAs (not call.is_move) call.asks_again self.old.keeper call.name id self.new.keeper) }

        ensures fit { OnOk result (IsShortName call.name → IsFitKeeper self.old.keeper
            → IsLeftFit work.old self.new.keeper work.new) }
        ensures peers { self.new.peers ≡ self.old.peers }
        ensures refused { IfErr result (IsFailure ⊥ (CanResend call.name id call.asks_all self.old.keeper)) }
    {
        if call.is_move {
            self.desk.release(id, work)?;
            return self.ask_again(id, &call, work);
        }
        let _was_open = self.keeper.give_up(&call.name, id);
        self.desk.give_up(id, work)
    }

    // A call asks again, if it is of an age for that.
    fn ask_again(&mut self, id: CallId, call: &Aged, work: &mut Work) -> Result<(), NodeError>
        ensures acts { OnOk result ((asker : ℕ) → Acts asker [] self.old.keeper work.old self.new.keeper work.new) }
        ensures seen { OnOk result (SeesNothing work.old work.new) }
        ensures again { OnOk result (PutsOut self.old.keeper
            (again_if call.now.asks_again call.now.asks_all self.old.keeper call.now.name id)
            work.old.outputs.items work.new.outputs.items) }
        ensures kept { OnOk result
            (IsKeptAs false call.now.asks_again self.old.keeper call.now.name id self.new.keeper) }

        ensures fit { OnOk result (IsShortName call.now.name → IsFitKeeper self.old.keeper
            → IsLeftFit work.old self.new.keeper work.new) }
        ensures rest { HasSameRest self.old self.new }
        ensures refused { IfErr result (IsFailure ⊥ (CanResend call.now.name id call.now.asks_all self.old.keeper)) }
    {
        if !call.asks_again {
            return Ok(());
        }
        self.keeper.ask_again(&call.name, id, call.asks_all, work)
    }
}
