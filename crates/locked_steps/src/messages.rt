//! What sections do to waiting messages.

ghost use Rattle.std.specs.Prelude.{◌≡◌, IfOk, IfErr, OnErr};
ghost use Rattle.locked_steps.specs.Calls.{client_calls};
ghost use Rattle.locked_steps.specs.Course.{PreservesReachable, IsStateOf};
ghost use Rattle.locked_steps.specs.Messages.{Disturbs, DisturbsNot, Stirs, StirsNot};

use crate::booked::{Booked, StoreName};
use cluster::Cluster;
use driver::{Chooser, Filter, choose, handle_at};
use tag::Refusal;

/// Handles one message of an object, the one that `chooser` chooses among those that can be handled: a request to a
/// server that is up is served, and a reply is taken. This is one step. Returns false, and makes no step, if no message
/// can be handled.
///
/// Is refused with `NoObject` if no object has this name, and with `Full` if the limit of steps or of stored bytes is
/// met.
pub fn stir_in<L: StoreName, C: Chooser>(
    booked: &mut Booked<L>,
    name: &str,
    chooser: &mut C,
) -> Result<bool, Refusal>
    ensures state { IsStateOf L.first booked.old }
    ensures step { IfOk result (λ b. Stirs C.chooses name.now booked.old chooser.old b booked.new chooser.new) }
    ensures refused { IfErr result (λ e. StirsNot C.chooses name.now booked.old chooser.old chooser.new e) }
    ensures unchanged { OnErr result (booked.new ≡ booked.old) }
{
    booked.cluster.invariant();
    stir(&mut booked.cluster, name, chooser)
}

// Handles a message in the cluster alone, without the book of its calls.
fn stir<C: Chooser>(cluster: &mut Cluster, name: &str, chooser: &mut C) -> Result<bool, Refusal>
    ensures step { IfOk result (λ b. Stirs C.chooses name.entry.now cluster.old chooser.old b cluster.new chooser.new) }
    ensures refused { IfErr result (λ e. StirsNot C.chooses name.entry.now cluster.old chooser.old chooser.new e) }
    ensures unchanged { OnErr result (cluster.new ≡ cluster.old) }
    ensures count { client_calls cluster.new ≡ client_calls cluster.old }
    ensures course { PreservesReachable cluster.old cluster.new }
{
    let object = cluster.place(name)?;
    let register = cluster.register_at(name, object);
    let Some(place) = choose(cluster, register, Filter::All, 0, chooser) else {
        return Ok(false);
    };
    handle_at(cluster, name, object, place)?;
    Ok(true)
}

/// Loses or repeats one waiting message of an object: one step. `chooser` first chooses the message among all that
/// wait, and then what happens to it: with an even number the message is lost, with an odd one it is repeated. Returns
/// false, and makes no step, if no message waits.
///
/// Is refused with `NoObject` if no object has this name, and with `Full` if the limit of steps or of the object's
/// waiting messages is met.
pub fn disturb_in<L: StoreName, C: Chooser>(
    booked: &mut Booked<L>,
    name: &str,
    chooser: &mut C,
) -> Result<bool, Refusal>
    ensures state { IsStateOf L.first booked.old }
    ensures step { IfOk result (λ b. Disturbs C.chooses name.now booked.old chooser.old b booked.new chooser.new) }
    ensures refused { IfErr result (λ e. DisturbsNot C.chooses name.now booked.old chooser.old chooser.new e) }
    ensures unchanged { OnErr result (booked.new ≡ booked.old) }
{
    booked.cluster.invariant();
    disturb(&mut booked.cluster, name, chooser)
}

// Loses or repeats a message in the cluster alone, without the book of its calls.
fn disturb<C: Chooser>(cluster: &mut Cluster, name: &str, chooser: &mut C) -> Result<bool, Refusal>
    ensures step { IfOk result
        (λ b. Disturbs C.chooses name.entry.now cluster.old chooser.old b cluster.new chooser.new) }
    ensures refused { IfErr result (λ e. DisturbsNot C.chooses name.entry.now cluster.old chooser.old chooser.new e) }
    ensures unchanged { OnErr result (cluster.new ≡ cluster.old) }
    ensures count { client_calls cluster.new ≡ client_calls cluster.old }
    ensures course { PreservesReachable cluster.old cluster.new }
{
    let count = cluster.register(name)?.mail_view().len();
    if count == 0 {
        return Ok(false);
    }
    let place = chooser.choose(count) % count;
    if chooser.choose(2) % 2 == 0 {
        cluster.lose(name, place)?;
    } else {
        cluster.repeat(name, place)?;
    }
    Ok(true)
}
