//! Retiring positions.

ghost use Rattle.std.specs.Prelude.{◌≡◌, ◌+◌, ◌≤◌, ◌<◌, ℕ, length, get_or, IfOk, OnOk, OnErr};
ghost use Rattle.tag.specs.Refusal.{IsExactlyByCause};
ghost use Rattle.tag.specs.declared.limits.TheConstants.{MOST_BYTES};
ghost use Rattle.record.specs.Accounts.{base_bytes_of};
ghost use Rattle.record.specs.Steps.{Step};
ghost use Rattle.register.specs.Retiring.{retire_cause};
ghost use Rattle.cluster.specs.Accounts.{stored_all};
ghost use Rattle.cluster.specs.Causes.{next, object_cause};
ghost use Rattle.cluster.specs.Preconditions.{MayMake};
ghost use Rattle.cluster.specs.Steps.{with_step};

use crate::cluster::Cluster;
use crate::loads::Loads;
use register::Register;
use tag::Refusal;

impl Cluster {
    /// Retires the base of an object, which must be this position. Its banks drop all pieces, and drop those that come
    /// later; the next position becomes the base, where first readings begin from then on. Returns how many bytes this
    /// frees. It allocates no memory.
    ///
    /// Is refused with `NoObject` if no object has this name, with `NotNow` unless the position is the object's base
    /// and the move out of it was answered, and with `Full` if the counter is at `MOST_STEPS`.
    pub fn retire(&mut self, name: &str, position: u64) -> Result<u64, Refusal>
        ensures step { OnOk result (self.new ≡ with_step self.old name.entry.now Step.Retire) }
        ensures may { OnOk result (MayMake self.old name.entry.now Step.Retire) }
        ensures freed { IfOk result (λ bytes. stored_all self.new + bytes ≡ stored_all self.old) }
        ensures cause { IsExactlyByCause
            (object_cause self.old name.entry.now (λ object. retire_cause (next self.old) object position)) result }
        ensures unchanged { OnErr result (self.new ≡ self.old) }
    {
        let Some(place) = self.objects.get_index_of(name) else {
            return Err(Refusal::NoObject);
        };
        let now = self.counter + 1;
        let register = &mut self.objects[place];
        register.soundness();
        register.allowed_steps_may_be_made();
        register.may_retire(position, now)?;
        unload(&mut self.loads, register, self.servers.count());
        match register.retire(position, now) {
            Ok(freed) => {
                self.stored -= freed;
                self.counter = now;
                Ok(freed)
            }
            Err(_) => unreachable!(),
        }
    }
}

// Subtracts from the load of each of this many servers what the base of an object stores there.
fn unload(loads: &mut Loads, register: &Register, servers: u8)
    requires count { servers ≡ length loads.old }
    requires part { (server : ℕ) → server < length loads.old
        → base_bytes_of register.now.object server ≤ get_or loads.old server 0 }
    requires within { (server : ℕ) → server < length loads.old → get_or loads.old server 0 ≤ MOST_BYTES }
    ensures count { length loads.new ≡ length loads.old }
    ensures freed { (server : ℕ) → server < length loads.old
        → get_or loads.new server 0 + base_bytes_of register.now.object server ≡ get_or loads.old server 0 }
{
    for server in 0..servers {
        loads.replace_part(server, register.stored_at_base(server), 0);
    }
}
