//! The calls of a client, by their numbers.
ghost use Rattle.std.specs.Prelude.{◌≡◌, IfOk};
ghost use Rattle.soak_plan.specs.Call.{object_called, value_written};

use bytes::Bytes;
use std::alloc::{AllocError, Global};

/// Returns the name of the object that a client's call of this number is for: `a` for two calls and `b` for two, in
/// turn.
pub fn object_called(call: u64) -> &'static str
    ensures { result.now ≡ object_called call }
{
    if call % 4 < 2 { "a" } else { "b" }
}

/// Returns the value that a client's call of this number writes: `CLIENT:CALL`.
pub fn value_written(alloc: Global, client: u32, call: u64) -> Result<Bytes, AllocError>
    ensures { IfOk result (λ value. value ≡ value_written client call) }
{
    let text = format!(in alloc; "{client}:{call}")?;
    Bytes::from_string(text)
}
