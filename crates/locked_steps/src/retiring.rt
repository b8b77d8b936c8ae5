//! Retiring a position.

ghost use Rattle.std.specs.Prelude.{◌≡◌, ◌+◌, IfOk, OnOk, OnErr};
ghost use Rattle.tag.specs.Refusal.{IsExactlyByCause};
ghost use Rattle.cluster.specs.Accounts.{stored_all};
ghost use Rattle.locked_steps.specs.Calls.{client_calls};
ghost use Rattle.locked_steps.specs.Course.{PreservesReachable, IsStateOf};
ghost use Rattle.locked_steps.specs.Moves.{ordered_by};
ghost use Rattle.locked_steps.specs.Orders.{retired, retiring_cause};

use crate::admin::Admin;
use crate::booked::{Booked, StoreName};
use cluster::Cluster;
use tag::Refusal;

/// Retires the base of an object, which must be this position: one step, which counts as an order. Returns how many
/// bytes this frees. It allocates no memory.
///
/// Is refused with `NoObject` if no object has this name, with `NotNow` unless the position is the object's base and
/// the move out of it was answered, and with `Full` if the limit of steps is met.
pub fn retire_in<L: StoreName>(
    booked: &mut Booked<L>,
    admin: &mut Admin<L>,
    name: &str,
    position: u64,
) -> Result<u64, Refusal>
    ensures state { IsStateOf L.first booked.old }
    ensures step { OnOk result (booked.new ≡ retired booked.old name.now) }
    ensures freed { IfOk result (λ bytes. stored_all booked.new + bytes ≡ stored_all booked.old) }
    ensures admin { OnOk result (admin.new ≡ ordered_by admin.old (retired booked.old name.now)) }
    ensures cause { IsExactlyByCause (retiring_cause booked.old name.now position) result }
    ensures unchanged { OnErr result (booked.new ≡ booked.old) }
    ensures kept { OnErr result (admin.new ≡ admin.old) }
{
    booked.cluster.invariant();
    let freed = retire(&mut booked.cluster, name, position)?;
    admin.note_order(&booked.cluster);
    Ok(freed)
}

// Makes the step in the cluster alone, without the book of its calls and without the administrator.
fn retire(cluster: &mut Cluster, name: &str, position: u64) -> Result<u64, Refusal>
    ensures step { OnOk result (cluster.new ≡ retired cluster.old name.entry.now) }
    ensures freed { IfOk result (λ bytes. stored_all cluster.new + bytes ≡ stored_all cluster.old) }
    ensures cause { IsExactlyByCause (retiring_cause cluster.old name.entry.now position) result }
    ensures unchanged { OnErr result (cluster.new ≡ cluster.old) }
    ensures count { client_calls cluster.new ≡ client_calls cluster.old }
    ensures course { PreservesReachable cluster.old cluster.new }
{
    cluster.retire(name, position)
}
