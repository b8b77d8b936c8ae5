//! The values of calls, encoded for the pieces that are sent.

ghost use Rattle.std.specs.Prelude.{◌≡◌, ◌≤◌, true, length, IfOk, IfErr};
ghost use Rattle.tag.specs.declared.refusal.Refusal.TheVariants.{NoMemory};
ghost use Rattle.local_object.specs.Coding.{phase_coding, is_sendable, call_value};

use bank::Kind;
use bytes::Bytes;
use call::Call;
use encoder::{Coded, encode};
use layout::Layout;
use std::alloc::Global;
use tag::{LONGEST_VALUE, Refusal};

/// Returns whether a phase of this kind sends no pieces, or the value of the call is short enough to be encoded.
pub(crate) fn is_sendable(kind: Kind, call: &Call) -> bool
    ensures { result ≡ is_sendable kind call.now }
{
    match kind {
        Kind::PreWrite(_) => value_len(call) <= LONGEST_VALUE,
        _ => true,
    }
}

/// The value of the call, encoded for a layout, if this is a phase that sends pieces. None for any other phase.
///
/// `NoMemory` is the only refusal.
pub(crate) fn coded_for(
    alloc: Global,
    kind: Kind,
    call: &Call,
    layout: &Layout,
) -> Result<Option<Coded>, Refusal>
    requires { is_sendable kind call.now ≡ true }
    ensures coded { IfOk result (λ coded. coded ≡ phase_coding kind layout.now call.now) }
    ensures refused { IfErr result (λ e. e ≡ NoMemory) }
{
    match kind {
        Kind::PreWrite(_) => Ok(Some(coded(alloc, value_of(call)?, layout)?)),
        _ => Ok(None),
    }
}

// The value, encoded for a layout.
fn coded(alloc: Global, value: Bytes, layout: &Layout) -> Result<Coded, Refusal>
    requires { length value ≤ LONGEST_VALUE }
    ensures coded { IfOk result (λ coded. coded
        ≡ record { k = layout.now.k; n = length layout.now.members; value = value }) }

    ensures refused { IfErr result (λ e. e ≡ NoMemory) }
{
    encode(alloc, layout.k(), layout.n(), value)
}

// The value that the call writes, or settled, or else the empty one.
fn value_of(call: &Call) -> Result<Bytes, Refusal>
    ensures value { IfOk result (λ value. value ≡ call_value call.now) }
    ensures refused { IfErr result (λ e. e ≡ NoMemory) }
{
    match call.value() {
        Some(value) => Ok(value.clone()?),
        None => Ok(Bytes::new()),
    }
}

// The length of the value that the call writes, or settled, or else 0.
fn value_len(call: &Call) -> usize
    ensures { result ≡ length (call_value call.now) }
{
    match call.value() {
        Some(value) => value.len(),
        None => 0,
    }
}
