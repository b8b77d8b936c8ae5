//! The bytes of a task, copied to where the program wants them.
ghost use Rattle.std.specs.Prelude.{◌≡◌, ◌≢◌, ◌+◌, ◌++◌, ◌≤◌, length, take, drop, Some, MatchBool};
ghost use Rattle.node_handle.specs.Tasks.{bytes_of, the_task};

use crate::task::Task;
use frames::Gathered;

impl<'a> Task<'a> {
    /// Writes its bytes to `out`, if it has their length, and returns whether it has. A sync and a cut have no bytes.
    pub fn write(&self, out: &mut [u8]) -> bool
        ensures { MatchBool result (out.new ≡ bytes_of (Some (the_task self.now)))
            ((out.new ≡ out.old) × (length out.old ≢ length (bytes_of (Some (the_task self.now))))) }
    {
        match self {
            Task::Send(bytes) => write_bytes(bytes, out),
            Task::Append(bytes) => write_bytes(bytes, out),
            Task::Sync => out.is_empty(),
            Task::Cut(_) => out.is_empty(),
            Task::Replace(bytes) => write_bytes(bytes, out),
        }
    }
}

// Writes the bytes to `out`, if it has their length, and returns whether it has.
fn write_bytes(bytes: &Gathered, out: &mut [u8]) -> bool
    ensures { MatchBool result (out.new ≡ bytes.now)
        ((out.new ≡ out.old) × (length out.old ≢ length bytes.now)) }
{
    if out.len() != bytes.len() {
        return false;
    }
    let (parts, last) = bytes.parts();
    let mut count = 0;
    for part in parts {
        write_at(out, count, part);
        count += part.len();
    }
    write_at(out, count, last);
    true
}

// Writes the bytes behind the first `count` ones of `out`.
fn write_at(out: &mut [u8], count: usize, bytes: &[u8])
    requires { count + length bytes.now ≤ length out.old }
    ensures { out.new ≡ take count out.old ++ bytes.now ++ drop (count + length bytes.now) out.old }
{
    out[count..count + bytes.len()].copy_from_slice(bytes);
}
