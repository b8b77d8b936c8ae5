//! What a program has to do for a node, one task after another.
ghost use Rattle.std.specs.Prelude.{◌≡◌, Some, option_map, slice_get};
ghost use Rattle.node_handle.specs.Tasks.{kind_of, length_of, start_tasks, task_at, the_task};

use frames::Gathered;
use node_core::{Step, step_at};
use node_store::Batch;

/// What a node wants done before its program calls it again.
pub enum Work {
    /// Nothing.
    Idle,
    /// What is due after a start: the log is cut behind so many bytes and synced, and gets these entries, and is synced
    /// again.
    Start(u64, Gathered),
    /// What is due for the frames that were handled last.
    Round(Batch),
    /// The log gets these bytes in place of its own.
    Rewriting(Gathered),
}

impl Drop for Work {
    fn drop(self) {
        match self {
            Work::Idle => {}
            Work::Start(_length, entries) => drop(entries),
            Work::Round(batch) => drop(batch),
            Work::Rewriting(bytes) => drop(bytes),
        }
    }
}

/// One task of a program.
#[derive(Clone, Copy)]
pub enum Task<'a> {
    /// These frames are sent.
    Send(&'a Gathered),
    /// These bytes are appended to the log.
    Append(&'a Gathered),
    /// The log is synced.
    Sync,
    /// The log is cut behind so many bytes.
    Cut(u64),
    /// A file with these bytes takes the place of the log, and is synced before.
    Replace(&'a Gathered),
}

impl Work {
    /// The task in this place, from 0; none behind the last one.
    pub fn task_at(&self, place: usize) -> Option<Task<'_>>
        ensures { option_map the_task result ≡ task_at self.now place }
    {
        match self {
            Work::Idle => None,
            Work::Start(length, entries) => start_task(*length, entries, place),
            Work::Round(batch) => match step_at(batch, place) {
                Some(Step::Send(bytes)) => Some(Task::Send(bytes)),
                Some(Step::Append(bytes)) => Some(Task::Append(bytes)),
                Some(Step::Sync) => Some(Task::Sync),
                None => None,
            },
            Work::Rewriting(bytes) => match place {
                0 => Some(Task::Replace(bytes)),
                _ => None,
            },
        }
    }
}

// The task in this place after a start.
fn start_task(length: u64, entries: &Gathered, place: usize) -> Option<Task<'_>>
    ensures { option_map the_task result ≡ slice_get (start_tasks length entries.now) place }
{
    match place {
        0 => Some(Task::Cut(length)),
        1 => Some(Task::Sync),
        2 => Some(Task::Append(entries)),
        3 => Some(Task::Sync),
        _ => None,
    }
}

impl<'a> Task<'a> {
    /// The number of its kind.
    pub fn kind(&self) -> u8
        ensures { result ≡ kind_of (Some (the_task self.now)) }
    {
        match self {
            Task::Send(_) => 1,
            Task::Append(_) => 2,
            Task::Sync => 3,
            Task::Cut(_) => 4,
            Task::Replace(_) => 5,
        }
    }

    /// How many bytes it has; of a cut, how many bytes of the log stay.
    pub fn count(&self) -> u64
        ensures { result ≡ length_of (Some (the_task self.now)) }
    {
        match self {
            Task::Send(bytes) => bytes.len() as u64,
            Task::Append(bytes) => bytes.len() as u64,
            Task::Sync => 0,
            Task::Cut(count) => *count,
            Task::Replace(bytes) => bytes.len() as u64,
        }
    }
}
