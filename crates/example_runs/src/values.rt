//! What clients of a run saw, if they saw one write and then one read.
ghost use Rattle.std.specs.Prelude.{◌≡◌, ◌∷◌, [], IfSome};
ghost use Rattle.deeds.specs.Deeds.{Notice as Seen};
ghost use Rattle.node_effects.specs.Seen.{all_seen, seen_of};
ghost use Rattle.example_runs.specs.Reached.{IsReached};
ghost use Rattle.example_runs.specs.Values.{IsAnswerTo, IsWriteThenRead};

use crate::process_run::ProcessRun;
use bytes::Bytes;
use example_tests::the_only_write_is_read;
use local_object::Ended;
use node_effects::Notice;
use record::Operation;
use tag::CallId;

/// The value that was written and the value that was read, if all that clients saw is that a write began and was
/// answered, and then a read of the same name began and was answered. Of a run of processes, the two are the same.
pub fn write_and_read(run: &ProcessRun) -> Option<(&Bytes, &Bytes)>
    ensures saw { IfSome result (λ it. IsWriteThenRead (all_seen run.now.seen.items) it.0.now it.1.now) }
    ensures same { IsReached run.now → IfSome result (λ it. it.1.now ≡ it.0.now) }
{
    the_only_write_is_read();
    values_of(run)
}

// The two values, if that is all that clients saw.
fn values_of(run: &ProcessRun) -> Option<(&Bytes, &Bytes)>
    ensures { IfSome result (λ it. IsWriteThenRead (all_seen run.now.seen.items) it.0.now it.1.now) }
{
    match run.seen.as_slice() {
        [first, second, third, fourth] => of_four(first, second, third, fourth),
        _ => None,
    }
}

// The two values, if these four notices are those of a write and of a read behind it.
fn of_four<'a>(
    first: &'a Notice,
    second: &'a Notice,
    third: &'a Notice,
    fourth: &'a Notice,
) -> Option<(&'a Bytes, &'a Bytes)>
    ensures { IfSome result (λ it. IsWriteThenRead
        (seen_of first.now ∷ seen_of second.now ∷ seen_of third.now ∷ seen_of fourth.now ∷ []) it.0.now it.1.now) }
{
    let (name, id, value) = begun_write(first)?;
    let write = told(second, name, id, Operation::Write)?;
    let other = begun_read(third, name)?;
    let read = told(fourth, name, other, Operation::Read)?;
    match &read.value {
        Some(found) => Some((value, found)),
        None => None,
    }
}

// The name, the id and the value of a write that began.
fn begun_write(notice: &Notice) -> Option<(&Bytes, CallId, &Bytes)>
    ensures { IfSome result (λ it. seen_of notice.now ≡ Seen.Writes it.0.now it.1 it.2.now) }
{
    match notice {
        Notice::Writes { name, id, value } => Some((name, *id, value)),
        _ => None,
    }
}

// The id of a read of this name that began.
fn begun_read(notice: &Notice, wanted: &Bytes) -> Option<CallId>
    ensures { IfSome result (λ id. seen_of notice.now ≡ Seen.Reads wanted.now id) }
{
    match notice {
        Notice::Reads { name, id } if name == wanted => Some(*id),
        _ => None,
    }
}

// The answer to the call of this name, id and kind, if the notice says that a client is told that.
fn told<'a>(notice: &'a Notice, wanted: &Bytes, id: CallId, kind: Operation) -> Option<&'a Ended>
    ensures { IfSome result (λ ended. IsAnswerTo wanted.now id kind ended.now (seen_of notice.now)) }
{
    match notice {
        Notice::Tells { name, ended } if name == wanted && ended.id == id && ended.kind == kind => {
            Some(ended)
        }
        _ => None,
    }
}
