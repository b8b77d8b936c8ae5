//! For each message of a mail, an upper bound of the call numbers of all messages up to it.
ghost use Rattle.std.specs.Prelude.{◌≡◌, ◌<◌, ◌≤◌, ◌++◌, ℕ, length, slice_index, OnOk, OnErr};
ghost use Rattle.mail.specs.Bounds.{AreRising, bounds_from, last_bound};

use crate::Message;
use std::alloc::AllocError;
use tag::CallId;

/// Appends the bounds of more messages, which come behind those that have the bounds given. It appends none where the
/// list cannot grow.
pub(crate) fn add_bounds(bounds: &mut Vec<CallId>, messages: &[Message]) -> Result<(), AllocError>
    ensures added { OnOk result (bounds.new.items
        ≡ bounds.old.items ++ bounds_from (last_bound 0 bounds.old.items) messages.now) }
    ensures unchanged { OnErr result (bounds.new.items ≡ bounds.old.items) }
{
    bounds.reserve(messages.len())?;
    let mut bound = last_of(bounds);
    for message in messages {
        bound = bound.max(message.call);
        bounds.push_reserved(bound);
    }
    Ok(())
}

// The last bound, or 0 where there is none.
fn last_of(bounds: &[CallId]) -> CallId
    ensures { result ≡ last_bound 0 bounds.now }
{
    match bounds.last() {
        Some(bound) => *bound,
        None => 0,
    }
}

/// The place of the first bound that is at least `call`, or the number of bounds where there is none. The search goes
/// from the last bound to earlier ones, since the bounds rise.
pub(crate) fn first_at_least(bounds: &[CallId], call: CallId) -> usize
    requires { AreRising bounds.now }
    ensures within { result ≤ length bounds.now }
    ensures below { (place : ℕ) → place < result → slice_index bounds.now place < call }
{
    let mut first = bounds.len();
    while first > 0 {
        if bounds[first - 1] < call {
            return first;
        }
        first -= 1;
    }
    0
}
