//! What the program has to do, task by task.
ghost use Rattle.std.specs.Prelude.{◌≡◌, ◌≢◌, ◌↔◌, ◌⊎◌, None, Some, length};
ghost use Rattle.node_handle.specs.Tasks.{bytes_of, kind_of, length_of, task_at, the_task};
ghost use Rattle.node_exports.specs.Nodes.{Has};
ghost use Rattle.node_exports.specs.declared.answer.TheConstants.{BAD_BUFFER, NO_TASK, NOT_OPEN};

use crate::answer::{BAD_BUFFER, NO_TASK, NOT_OPEN};
use node_handle::{Held, Task};
use std::alloc::Global;

/// Says what the task in this place is, from 0: its kind, which is 0 behind the last task, and how many bytes it has,
/// or how many bytes of the log stay. Answers 0 or `NOT_OPEN`.
#[unsafe(no_mangle)]
pub extern "C" fn casnode_task(
    alloc: Global,
    node: &mut Held,
    place: usize,
    kind: &mut u8,
    count: &mut u64,
) -> u8
    ensures answers { (result ≡ 0) ⊎ (result ≡ NOT_OPEN) }
    ensures not_open { (result ≡ NOT_OPEN) ↔ (node.old.value ≡ None) }
    ensures task { result ≡ 0 → Has node.old (λ it. (kind.new ≡ kind_of (task_at it.work place))
        × (count.new ≡ length_of (task_at it.work place))) }
    ensures same { node.new.value ≡ node.old.value }
    ensures unchanged { result ≢ 0 → (kind.new ≡ kind.old) × (count.new ≡ count.old) }
{
    let Some(held) = node.take(alloc) else {
        return NOT_OPEN;
    };
    match held.work.task_at(place) {
        Some(task) => {
            *kind = task.kind();
            *count = task.count();
        }
        None => {
            *kind = 0;
            *count = 0;
        }
    }
    node.put(alloc, held);
    0
}

/// Writes the bytes of the task in this place to `out`. Answers `NOT_OPEN`; else `NO_TASK` if there is no task in this
/// place; else `BAD_BUFFER` if `out` has not their length. Then it is as it was.
#[unsafe(no_mangle)]
pub extern "C" fn casnode_bytes(alloc: Global, node: &mut Held, place: usize, out: &mut [u8]) -> u8
    ensures answers { (result ≡ 0) ⊎ (result ≡ NOT_OPEN) ⊎ (result ≡ NO_TASK) ⊎ (result ≡ BAD_BUFFER) }
    ensures not_open { (result ≡ NOT_OPEN) ↔ (node.old.value ≡ None) }
    ensures no_task { result ≡ NO_TASK → Has node.old (λ it. task_at it.work place ≡ None) }
    ensures bytes { result ≡ 0 → Has node.old (λ it. (task_at it.work place ≢ None)
        × (out.new ≡ bytes_of (task_at it.work place))) }
    ensures bad_buffer { result ≡ BAD_BUFFER → Has node.old (λ it. (task_at it.work place ≢ None)
        × (length out.old ≢ length (bytes_of (task_at it.work place)))) }
    ensures same { node.new.value ≡ node.old.value }
    ensures unchanged { result ≢ 0 → out.new ≡ out.old }
{
    let Some(held) = node.take(alloc) else {
        return NOT_OPEN;
    };
    let answer = match held.work.task_at(place) {
        Some(task) => write_task(&task, out),
        None => NO_TASK,
    };
    node.put(alloc, held);
    answer
}

// Writes the bytes of a task to `out`, if it has their length.
fn write_task(task: &Task<'_>, out: &mut [u8]) -> u8
    ensures answers { (result ≡ 0) ⊎ (result ≡ BAD_BUFFER) }
    ensures bytes { result ≡ 0 → out.new ≡ bytes_of (Some (the_task task.now)) }
    ensures bad_buffer { result ≢ 0 → length out.old ≢ length (bytes_of (Some (the_task task.now))) }
    ensures unchanged { result ≢ 0 → out.new ≡ out.old }
{
    if task.write(out) { 0 } else { BAD_BUFFER }
}
