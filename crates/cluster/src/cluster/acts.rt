//! Any step of one object, by the act that asks for it.

ghost use Rattle.std.specs.Prelude.{◌≡◌, ◌≤◌, suc, length, Some, IfOk, OnOk, OnErr};
ghost use Rattle.register.specs.Act.{IsActCause, act_cause, step_of};
ghost use Rattle.cluster.specs.Acts.{ServersAllow, begun_by};
ghost use Rattle.cluster.specs.Causes.{next, object_cause};
ghost use Rattle.cluster.specs.Cluster.{next_call_id, if_named};
ghost use Rattle.cluster.specs.Places.{IsObjectAt};
ghost use Rattle.cluster.specs.Preconditions.{MayMake};
ghost use Rattle.cluster.specs.Steps.{with_step};

use crate::cluster::Cluster;
use crate::cluster::mailing::{exchanged, waiting};
use register::Act;
use tag::{CallId, Refusal};

impl Cluster {
    // Makes the step that an act asks for, of the object of this name.
    pub(crate) fn make(&mut self, name: &str, act: Act) -> Result<(), Refusal>
        requires ready { ServersAllow (length self.old.servers) act }
        ensures step { OnOk result (self.new
            ≡ with_step self.old name.entry.now (step_of (next_call_id self.old name.entry.now) act)) }
        ensures may { OnOk result
            (MayMake self.old name.entry.now (step_of (next_call_id self.old name.entry.now) act)) }
        ensures cause { IsActCause act (object_cause self.old name.entry.now (act_cause act (next self.old))) result }
        ensures unchanged { OnErr result (self.new ≡ self.old) }
    {
        let Some(object) = self.find(name) else {
            return Err(Refusal::NoObject);
        };
        self.make_at(name, object, act)
    }

    // Makes the step of an act that begins a call. Returns the call's number.
    pub(crate) fn begin(&mut self, name: &str, act: Act) -> Result<CallId, Refusal>
        requires ready { ServersAllow (length self.old.servers) act }
        requires begins { begun_by act ≡ 1 }
        ensures step { OnOk result (self.new
            ≡ with_step self.old name.entry.now (step_of (next_call_id self.old name.entry.now) act)) }
        ensures may { OnOk result
            (MayMake self.old name.entry.now (step_of (next_call_id self.old name.entry.now) act)) }
        ensures number { IfOk result
            (λ n. if_named self.old name.entry.now (λ object. Some (suc (length object.calls))) ≡ Some n) }
        ensures cause { IsActCause act (object_cause self.old name.entry.now (act_cause act (next self.old))) result }
        ensures unchanged { OnErr result (self.new ≡ self.old) }
    {
        let Some(object) = self.find(name) else {
            return Err(Refusal::NoObject);
        };
        let number = self.register_at(name, object).next_call();
        self.make_at(name, object, act)?;
        Ok(number)
    }

    // Makes the step that an act asks for, of the object of this name, which is at this index.
    pub(crate) fn make_at(&mut self, name: &str, object: u32, act: Act) -> Result<(), Refusal>
        requires ready { ServersAllow (length self.old.servers) act }
        requires placed { IsObjectAt self.old name.now object }
        ensures step { OnOk result (self.new
            ≡ with_step self.old name.entry.now (step_of (next_call_id self.old name.entry.now) act)) }
        ensures may { OnOk result
            (MayMake self.old name.entry.now (step_of (next_call_id self.old name.entry.now) act)) }
        ensures cause { IsActCause act (object_cause self.old name.entry.now (act_cause act (next self.old))) result }
        ensures unchanged { OnErr result (self.new ≡ self.old) }
    {
        let now = self.counter + 1;
        let begun = begun(&act);
        act.values_are_lawful();
        let register = &mut self.objects[object as usize];
        register.allowed_steps_may_be_made();
        let waited = waiting(register);
        register.act(act, object, now)?;
        self.mailed = exchanged(self.mailed, waited, waiting(register));
        self.counter = now;
        self.called += begun;
        Ok(())
    }
}

// How many calls an act begins.
fn begun(act: &Act) -> u64
    ensures count { result ≡ begun_by act.now }
    ensures within { result ≤ 1 }
{
    match act {
        Act::CallRead | Act::CallWrite(_) | Act::CallMove(_) => 1,
        _ => 0,
    }
}
