//! Handling the messages of a call: which one comes next, and how.
ghost use Rattle.std.specs.Prelude.{◌≡◌, ◌<◌, [], length, Some, IfOk, IfErr, OnErr, OnOk, MatchOption, false};
ghost use Rattle.tag.specs.Refusal.{IsByCause, IsExactlyByCause};
ghost use Rattle.mail.specs.Bounds.{AreOthers};
ghost use Rattle.record.specs.declared.stage.Want.TheVariants as want;
ghost use Rattle.cluster.specs.Cluster.{if_named};
ghost use Rattle.cluster.specs.Causes.{object_cause, place_cause};
ghost use Rattle.cluster.specs.Places.{IsObjectAt};
ghost use Rattle.cluster.specs.Preconditions.{MayMake};
ghost use Rattle.cluster.specs.Steps.{with_step};
ghost use Rattle.driver.specs.Choices.{Picks, choices, handled_result_at, handling_cause, request_at, step_of_handled};
ghost use Rattle.driver.specs.Driver.{wanted, IsTurn, IsRefused};

use crate::Chooser;
use crate::choices::{Filter, choose};
use cluster::Cluster;
use mail::{Body, Took};
use register::Register;
use tag::{CallId, Refusal};

/// What was done with a message.
#[derive(Clone, Copy, Debug, PartialEq, Eq)]
pub enum Handled {
    /// It was a request, and its server served it.
    Served,
    /// It was a reply, and its call took it.
    Taken(Took),
}

/// Handles the message at a place, from 0, of an object's mail: a request is served, and a reply is taken. This is one
/// step.
///
/// Is refused with `NoObject` if no object has this name, with `NoMessage` if there is no message at this place, with
/// `Down` if it is a request to a server that is down, and with `Full` as for `Cluster::serve` and `Cluster::take`.
pub fn handle(cluster: &mut Cluster, name: &str, place: usize) -> Result<Handled, Refusal>
    ensures step { IfOk result (λ h. cluster.new ≡ with_step cluster.old name.entry.now (step_of_handled place h)) }
    ensures may { IfOk result (λ h. MayMake cluster.old name.entry.now (step_of_handled place h)) }
    ensures handled { IfOk result (λ h. if_named cluster.old name.entry.now (handled_result_at place) ≡ Some h) }
    ensures cause { IsByCause (object_cause cluster.old name.entry.now (handling_cause cluster.old place)) result }
    ensures unchanged { OnErr result (cluster.new ≡ cluster.old) }
{
    let object = cluster.place(name)?;
    handle_at(cluster, name, object, place)
}

/// Does what `handle` does, for a caller that has looked the object up by `Cluster::place`: `object` must be its index.
pub fn handle_at(
    cluster: &mut Cluster,
    name: &str,
    object: u32,
    place: usize,
) -> Result<Handled, Refusal>
    requires { IsObjectAt cluster.old name.now object }
    ensures step { IfOk result (λ h. cluster.new ≡ with_step cluster.old name.entry.now (step_of_handled place h)) }
    ensures may { IfOk result (λ h. MayMake cluster.old name.entry.now (step_of_handled place h)) }
    ensures handled { IfOk result (λ h. if_named cluster.old name.entry.now (handled_result_at place) ≡ Some h) }
    ensures cause { IsByCause (object_cause cluster.old name.entry.now (handling_cause cluster.old place)) result }
    ensures unchanged { OnErr result (cluster.new ≡ cluster.old) }
{
    let is_request = is_request(cluster, name, object, place)?;
    handle_as(cluster, name, object, place, is_request)
}

// Handles the message at a place. The caller knows whether it is a request.
#[inline(always)]
fn handle_as(
    cluster: &mut Cluster,
    name: &str,
    object: u32,
    place: usize,
    is_request: bool,
) -> Result<Handled, Refusal>
    requires request { if_named cluster.old name.now (request_at place) ≡ Some is_request }
    requires placed { IsObjectAt cluster.old name.now object }
    ensures step { IfOk result (λ h. cluster.new ≡ with_step cluster.old name.entry.now (step_of_handled place h)) }
    ensures may { IfOk result (λ h. MayMake cluster.old name.entry.now (step_of_handled place h)) }
    ensures handled { IfOk result (λ h. if_named cluster.old name.entry.now (handled_result_at place) ≡ Some h) }
    ensures cause { IsByCause (object_cause cluster.old name.entry.now (handling_cause cluster.old place)) result }
    ensures unchanged { OnErr result (cluster.new ≡ cluster.old) }
{
    if is_request {
        cluster.serve_at(name, object, place)?;
        return Ok(Handled::Served);
    }
    Ok(Handled::Taken(cluster.take_at(name, object, place)?))
}

/// Handles the chosen one of the call's messages that can be handled. Is refused with `Stuck` if there is none.
#[inline(always)]
pub(crate) fn handle_chosen<C: Chooser>(
    cluster: &mut Cluster,
    name: &str,
    object: u32,
    call: CallId,
    chooser: &mut C,
) -> Result<(), Refusal>
    requires wanted { wanted cluster.old name.now call ≡ Some want.Replies }
    requires placed { IsObjectAt cluster.old name.now object }
    ensures turn { OnOk result
        (IsTurn C.chooses name.entry.now call false cluster.old chooser.old cluster.new chooser.new) }
    ensures refused { IfErr result
        (λ e. IsRefused C.chooses name.entry.now call cluster.old false chooser.old chooser.new e) }
    ensures unchanged { OnErr result (cluster.new ≡ cluster.old) }
{
    let register = cluster.register_at(name, object);
    let Some(place) = chosen(cluster, register, call, chooser) else {
        return Err(Refusal::Stuck);
    };
    let is_request = is_request_at(register, place);
    handle_as(cluster, name, object, place, is_request)?;
    Ok(())
}

// Whether the message at a place is a request.
fn is_request(cluster: &Cluster, name: &str, object: u32, place: usize) -> Result<bool, Refusal>
    requires { IsObjectAt cluster.now name.now object }
    ensures value { IfOk result (λ b. if_named cluster.now name.now (request_at place) ≡ Some b) }
    ensures cause { IsExactlyByCause (object_cause cluster.now name.now (place_cause place)) result }
{
    let register = cluster.register_at(name, object);
    if register.mail_view().len() <= place {
        return Err(Refusal::NoMessage);
    }
    Ok(is_request_at(register, place))
}

// Whether the message at a place of an object's mail is a request.
fn is_request_at(register: &Register, place: usize) -> bool
    requires { place < length register.now.object.mail }
    ensures { request_at place register.now.object ≡ Some result }
{
    match &register.mail_view().at(place).body {
        Body::Request(_) => true,
        Body::Reply { kind: _, reply: _ } => false,
    }
}

// The place of the chosen one of the call's messages that can be handled, or none where there is none. The cost does
// not grow with the messages of earlier calls.
fn chosen<C: Chooser>(
    cluster: &Cluster,
    register: &Register,
    call: CallId,
    chooser: &mut C,
) -> Option<usize>
    ensures { MatchOption result ((choices cluster.now call register.now.object ≡ []) × (chooser.new ≡ chooser.old))
        (λ place. Picks C.chooses (choices cluster.now call register.now.object) chooser.old chooser.new place) }
{
    let from = first_place(register, call);
    choose(cluster, register, Filter::Call(call), from, chooser)
}

// The place in the object's mail from which on the call's messages are looked for. It is a function of its own, so that
// the search is compiled apart from the choice.
#[inline(never)]
fn first_place(register: &Register, call: CallId) -> usize
    ensures { AreOthers call result register.now.object.mail }
{
    register.mail_view().first_place(call)
}
