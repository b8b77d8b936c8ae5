//! The orders that the administrator carries out in one step.

ghost use Rattle.std.specs.Prelude.{◌≡◌, Some, IfOk, OnOk, OnErr};
ghost use Rattle.tag.specs.Refusal.{IsByCause};
ghost use Rattle.encoder.specs.Fragment.{fragment};
ghost use Rattle.soundness.specs.Sound.{IsSound};
ghost use Rattle.register.specs.State.{State};
ghost use Rattle.cluster.specs.Cluster.{named};
ghost use Rattle.locked_steps.specs.Calls.{client_calls};
ghost use Rattle.locked_steps.specs.Course.{PreservesReachable, IsStateOf};
ghost use Rattle.locked_steps.specs.Moves.{ordered_by};
ghost use Rattle.locked_steps.specs.Orders.{order_cause, ordered, ordered_id};

use crate::admin::{Admin, Order};
use crate::booked::{Booked, StoreName};
use cluster::{Cluster, LayoutId};
use tag::Refusal;

/// Carries out an order in one step, and counts it. Returns the number of the layout if the order adds one, and
/// otherwise none.
///
/// - `AddLayout`: `BadLayout` if a member is no server, and `Full` if the limit of steps or of layouts is met.
/// - `Create`: `ObjectExists` if an object has this name, `BadLayout` if there is no layout of this number, `TooLong`
///   if the name is longer than `LONGEST_NAME` bytes, and `Full` if the limit of steps or of objects is met.
/// - `SetServer`: `BadLayout` if there is no such server, and `Full` if the limit of steps is met.
pub fn admin_in<L: StoreName>(
    booked: &mut Booked<L>,
    admin: &mut Admin<L>,
    order: Order,
) -> Result<Option<LayoutId>, Refusal>
    ensures state { IsStateOf L.first booked.old }
    ensures step { OnOk result (booked.new ≡ ordered booked.old order.entry) }
    ensures id { IfOk result (λ id. id ≡ ordered_id booked.old order.entry) }
    ensures admin { OnOk result (admin.new ≡ ordered_by admin.old (ordered booked.old order.entry)) }
    ensures cause { IsByCause (order_cause booked.old order.entry) result }
    ensures unchanged { OnErr result (booked.new ≡ booked.old) }
    ensures kept { OnErr result (admin.new ≡ admin.old) }
{
    booked.cluster.invariant();
    let id = carry_out(&mut booked.cluster, order)?;
    admin.note_order(&booked.cluster);
    Ok(id)
}

// The step alone, of the cluster without its book.
fn carry_out(cluster: &mut Cluster, order: Order) -> Result<Option<LayoutId>, Refusal>
    ensures step { OnOk result (cluster.new ≡ ordered cluster.old order.entry) }
    ensures id { IfOk result (λ id. id ≡ ordered_id cluster.old order.entry) }
    ensures cause { IsByCause (order_cause cluster.old order.entry) result }
    ensures unchanged { OnErr result (cluster.new ≡ cluster.old) }
    ensures count { client_calls cluster.new ≡ client_calls cluster.old }
    ensures course { PreservesReachable cluster.old cluster.new }
{
    match order {
        Order::AddLayout(layout) => {
            // A law: the layout is lawful.
            layout.k();
            Ok(Some(cluster.add_layout(layout)?))
        }
        Order::Create {
            name,
            layout,
            delta,
        } => {
            cluster.create_with(name, layout, delta)?;
            record_is_sound(cluster, name);
            Ok(None)
        }
        Order::SetServer { server, up } => {
            cluster.set_server(server, up)?;
            Ok(None)
        }
    }
}

// A law: the record of the object of this name is sound. It changes nothing.
fn record_is_sound(cluster: &Cluster, name: &str)
    ensures { (state : State) → named cluster.now.objects name.now ≡ Some state
        → IsSound fragment state.object state.last }
{
    match cluster.register(name) {
        Ok(register) => register.soundness(),
        Err(_) => {}
    }
}
