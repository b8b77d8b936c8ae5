//! The commands on the messages of an object.
ghost use Rattle.std.specs.Prelude.{◌≡◌, ℕ, Some, None, IfOk, IfErr, OnOk, MatchOption, MatchResult};
ghost use Rattle.cluster.specs.Causes.{object_cause};
ghost use Rattle.player.specs.MailCommands.{Serves, Takes, Loses, Repeats};
ghost use Rattle.player.specs.Deliver.{DeliversAll, Delivers, IsFirst, NoneBefore, HasNoneToHandle, IsDeliveryStopped};

use crate::report::Report;
use cluster::Cluster;
use driver::{Filter, choice_at, handle};
use printing::Outcome;
use tag::Refusal;

/// Serves the request at a place, from 0, of the object's mail.
pub(crate) fn serve(cluster: &mut Cluster, name: &str, place: u64) -> Report
    ensures { Serves cluster.old name.entry.now place cluster.new result }
{
    Report::of_step(cluster.serve(name, place as usize))
}

/// Takes the reply at a place, from 0, of the object's mail.
pub(crate) fn take(cluster: &mut Cluster, name: &str, place: u64) -> Report
    ensures { Takes cluster.old name.entry.now place cluster.new result }
{
    Report::of_take(cluster.take(name, place as usize))
}

/// Loses the message at a place, from 0, of the object's mail.
pub(crate) fn lose(cluster: &mut Cluster, name: &str, place: u64) -> Report
    ensures { Loses cluster.old name.entry.now place cluster.new result }
{
    Report::of_step(cluster.lose(name, place as usize))
}

/// Puts a copy of the message at a place, from 0, at the end of the object's mail.
pub(crate) fn repeat(cluster: &mut Cluster, name: &str, place: u64) -> Report
    ensures { Repeats cluster.old name.entry.now place cluster.new result }
{
    Report::of_step(cluster.repeat(name, place as usize))
}

/// Handles the first message that can be handled, until none can be or one is refused.
pub(crate) fn deliver(cluster: &mut Cluster, name: &str) -> Report
    ensures { DeliversAll cluster.old name.entry.now cluster.new result }
{
    match handle_all(cluster, name) {
        Ok(handled) => Report::Did(Outcome::Handled(handled)),
        Err(refusal) => Report::refused(refusal),
    }
}

// Handling a message leaves the messages before it unchanged, so the next search begins at its place.
fn handle_all(cluster: &mut Cluster, name: &str) -> Result<u64, Refusal>
    ensures { MatchResult result (λ count. Delivers name.entry.now cluster.old count cluster.new
        × (object_cause cluster.new name.entry.now (λ object. None) ≡ None)
        × HasNoneToHandle cluster.new name.entry.now)
        (λ refusal. (count : ℕ) × Delivers name.entry.now cluster.old count cluster.new
        × IsDeliveryStopped cluster.new name.entry.now refusal) }
{
    let mut handled = 0;
    let mut from = 0;
    while let Some(place) = first_handled(cluster, name, from)? {
        handle(cluster, name, place)?;
        // Each handled message is a step, and the number of steps is limited.
        let _ = cluster.counter();
        handled += 1;
        from = place;
    }
    Ok(handled)
}

// The place of the first message that can be handled, at `from` or after it.
fn first_handled(cluster: &Cluster, name: &str, from: usize) -> Result<Option<usize>, Refusal>
    requires { NoneBefore cluster.now name.now from }
    ensures first { IfOk result
        (λ found. MatchOption found (HasNoneToHandle cluster.now name.now) (IsFirst cluster.now name.now)) }
    ensures there { OnOk result (object_cause cluster.now name.now (λ object. None) ≡ None) }
    ensures refused { IfErr result (λ refusal. object_cause cluster.now name.now (λ object. None) ≡ Some refusal) }
{
    let register = cluster.register(name)?;
    Ok(choice_at(cluster, register, Filter::All, from, 0))
}
