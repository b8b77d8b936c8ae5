//! How calls of seats begin.

ghost use Rattle.std.specs.Prelude.{◌≡◌, ◌+◌, ◌≤◌, suc, None, Some, IfOk, IfErr, OnOk, OnErr};
ghost use Rattle.tag.specs.declared.refusal.Refusal.TheVariants.{NoMemory};
ghost use Rattle.tag.specs.Refusal.{IsByCause, IsExactlyByCause};
ghost use Rattle.cluster.specs.Causes.{next, object_cause};
ghost use Rattle.cluster.specs.Cluster.{next_call_id, named, place_of};
ghost use Rattle.cluster.specs.Steps.{with_step};
ghost use Rattle.locked_steps.specs.Calls.{client_calls};
ghost use Rattle.locked_steps.specs.Course.{PreservesReachable, IsStateOf};
ghost use Rattle.locked_steps.specs.Seats.{begin_cause, record_begun, call_count, call_step, calling_cause};
ghost use Rattle.locked_steps.specs.Seats.{with_pending};

use crate::booked::{Booked, StoreName};
use crate::call_record::{Begin, CallRecord};
use crate::seat::{Seat, make_room_for};
use cluster::Cluster;
use tag::{CallId, Refusal, Stamp};

/// Begins a read or a write of a seat: one step, with its record in the seat.
///
/// Is refused with `Stranger` if the seat's floor is above the cluster's counter, with `NoObject` if no object has this
/// name, with `NotNow` if the seat has a pending call, with `TooLong` if the value is longer than `LONGEST_VALUE`
/// bytes, and with `Full` if the limit of steps, of the object's calls or of its waiting messages is met. Otherwise it
/// is refused with `NoMemory` if memory is refused. Without `Seat::make_room` for this name, the seat grows under the
/// lock, before the step.
pub fn begin_in<L: StoreName>(
    booked: &mut Booked<L>,
    seat: &mut Seat<L>,
    name: &str,
    what: Begin,
) -> Result<(), Refusal>
    ensures state { IsStateOf L.first booked.old }
    ensures step { OnOk result (booked.new
        ≡ with_step booked.old name.now (call_step (next_call_id booked.old name.now) what)) }
    ensures seat { OnOk result
        (seat.new ≡ with_pending seat.old name.now (record_begun booked.old name.now seat.old.floor what)) }
    ensures cause { IsByCause (begin_cause booked.old seat.old name.now what) result }
    ensures unchanged { OnErr result (booked.new ≡ booked.old) }
    ensures kept { OnErr result (seat.new ≡ seat.old) }
{
    booked.cluster.invariant();
    let object = may_begin(&booked.cluster, seat, name, &what)?;
    make_room_for(&mut seat.name, &mut seat.records, name)?;
    let record = begin_recorded(&mut booked.cluster, name, object, seat.floor, what)?;
    booked.book.add(&mut seat.share, 1);
    keep(&mut seat.pending, record);
    Ok(())
}

// Whether the seat may begin such a call, and the index of its object.
fn may_begin<L: StoreName>(
    cluster: &Cluster,
    seat: &Seat<L>,
    name: &str,
    what: &Begin,
) -> Result<u32, Refusal>
    ensures place { IfOk result (λ p. p ≡ place_of cluster.now.objects name.now) }
    ensures floor { OnOk result (seat.now.floor ≤ cluster.now.counter) }
    ensures free { OnOk result (seat.now.pending ≡ None) }
    ensures may { OnOk result (object_cause cluster.now name.now (λ object.
        calling_cause what.now (next cluster.now) object) ≡ None) }
    ensures cause { IsExactlyByCause (begin_cause cluster.now seat.now name.now what.now) result }
{
    if seat.floor > cluster.counter() {
        return Err(Refusal::Stranger);
    }
    let object = cluster.place(name)?;
    if seat.pending.is_some() {
        return Err(Refusal::NotNow);
    }
    cluster.may_call(name, what.len())?;
    Ok(object)
}

// Makes the step that begins the call, and returns the call's record.
fn begin_recorded(
    cluster: &mut Cluster,
    name: &str,
    object: u32,
    floor: Stamp,
    what: Begin,
) -> Result<CallRecord, Refusal>
    requires place { object ≡ place_of cluster.old.objects name.now }
    requires may { object_cause cluster.old name.now (λ object. calling_cause what (next cluster.old) object) ≡ None }
    ensures step { OnOk result (cluster.new
        ≡ with_step cluster.old name.entry.now (call_step (next_call_id cluster.old name.entry.now) what)) }
    ensures begun { IfOk result (λ r. r ≡ record_begun cluster.old name.entry.now floor what) }
    ensures count { OnOk result (client_calls cluster.new ≡ client_calls cluster.old + 1) }
    ensures course { PreservesReachable cluster.old cluster.new }
    ensures refused { IfErr result (λ r. r ≡ NoMemory) }
    ensures unchanged { OnErr result (cluster.new ≡ cluster.old) }
{
    let kind = what.operation();
    let written = what.written()?;
    let call = begin_call(cluster, name, what)?;
    Ok(CallRecord {
        object,
        call,
        kind,
        written,
        floor,
        called: cluster.counter(),
        receipt: None,
    })
}

// Makes the step alone, and returns the call's number.
fn begin_call(cluster: &mut Cluster, name: &str, what: Begin) -> Result<CallId, Refusal>
    ensures step { OnOk result (cluster.new
        ≡ with_step cluster.old name.entry.now (call_step (next_call_id cluster.old name.entry.now) what)) }
    ensures number { IfOk result (λ n. n ≡ suc (call_count (named cluster.old.objects name.entry.now))) }
    ensures count { OnOk result (client_calls cluster.new ≡ client_calls cluster.old + 1) }
    ensures course { PreservesReachable cluster.old cluster.new }
    ensures cause { IsByCause
        (object_cause cluster.old name.entry.now (λ object. calling_cause what (next cluster.old) object)) result }
    ensures unchanged { OnErr result (cluster.new ≡ cluster.old) }
{
    match what {
        Begin::Read => cluster.call_read(name),
        Begin::Write(value) => cluster.call_write(name, value),
    }
}

// Keeps the record of the pending call.
fn keep(pending: &mut Option<CallRecord>, begun: CallRecord)
    ensures { pending.new ≡ Some begun }
{
    *pending = Some(begun);
}
