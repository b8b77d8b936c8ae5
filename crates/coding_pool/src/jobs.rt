//! The queue of job numbers, and the rule that it keeps.
ghost use Rattle.std.specs.Prelude.{◌≡◌, ◌<◌, ◌≤◌, []};
ghost use Rattle.crossbeam_queue.specs.Passes.{view, IsPassOf, ruled_capacity};
ghost use Rattle.coding_pool.specs.Jobs.{known, PARTS};

use crossbeam_queue::protocol::{Join, Lesson, Outcome, Protocol, Split};
use crossbeam_queue::{Pass, RuledArrayQueue};
use std::collections::LinkedList;
use std::sync::Wait;

/// The queue of the jobs that no worker has taken yet, by number.
pub type Jobs = RuledArrayQueue<u8, Known, Once>;

/// The right to push and pop jobs, with what its holder knows.
pub type JobPass = Pass<u8, Known>;

/// What the holder of a pass knows. Only proofs have values of it.
pub struct Known {
    /// How many parts of the right to know the whole queue come with the pass.
    pub parts: u64,
    /// How many jobs were pushed with it.
    pub pushed: u64,
    /// The jobs that were popped with it, in that order.
    pub popped: LinkedList<u8>,
}

/// The rule of the queue: the jobs in the queue and the popped jobs of all views are the jobs below the number pushed,
/// each once.
pub struct Once;

impl Protocol<u8, Known> for Once {
    ghost use Rattle.std.specs.Prelude.{[]};
    ghost use Rattle.coding_pool.specs.Jobs.{known, HaveEachJobOnce, PARTS};

    ghost holds = { HaveEachJobOnce };

    ghost first = { known PARTS 0 [] };
}

/// The step that pushes a job.
pub struct Push;

impl Outcome<u8, Known> for Push {
    ghost use Rattle.std.specs.Prelude.{◌≡◌, ◌+◌};
    ghost use Rattle.coding_pool.specs.Jobs.{known};

    ghost then = { λ v job w. w ≡ known v.parts (v.pushed + 1) v.popped };
}

impl Lesson<u8, Known> for Push {
    ghost use Rattle.coding_pool.specs.Jobs.{HasNoMore};

    ghost fact = { HasNoMore };
}

/// The step that pops a job.
pub struct Pop;

impl Outcome<u8, Known> for Pop {
    ghost use Rattle.std.specs.Prelude.{◌≡◌, ◌++◌, ◌∷◌, []};
    ghost use Rattle.coding_pool.specs.Jobs.{known};

    ghost then = { λ v job w. w ≡ known v.parts v.pushed (v.popped ++ job ∷ []) };
}

impl Lesson<u8, Known> for Pop {
    ghost use Rattle.coding_pool.specs.Jobs.{IsWhole};

    ghost fact = { IsWhole };
}

/// The step that cuts a pass with one part off another pass, and the step that joins it again.
pub struct Cut;

impl Split<Known> for Cut {
    ghost use Rattle.std.specs.Prelude.{◌-◌, []};
    ghost use Rattle.coding_pool.specs.Jobs.{known};

    ghost left = { λ v. known (v.parts - 1) v.pushed v.popped };

    ghost right = { λ v. known 1 0 [] };
}

impl Join<Known> for Cut {
    ghost use Rattle.std.specs.Prelude.{◌+◌, ◌++◌, []};
    ghost use Rattle.coding_pool.specs.Jobs.{known};

    ghost both = { λ v w. known (v.parts + w.parts) (v.pushed + w.pushed) (v.popped ++ w.popped) };

    ghost spent = { known 0 0 [] };
}

/// Pushes the jobs 0 to `n` - 1, for which an empty queue has room.
pub fn push_all<R: Wait>(rt: &R, queue: &Jobs, pass: &mut JobPass, n: u8)
    requires pass { IsPassOf queue.now pass.old }
    requires first { view pass.old ≡ known PARTS 0 [] }
    requires room { n ≤ ruled_capacity queue.now }
    ensures pass { IsPassOf queue.now pass.new }
    ensures pushed { view pass.new ≡ known PARTS n [] }
{
    for job in 0..n {
        if queue.push_as::<Push, R>(rt, pass, job).is_err() {
            unreachable!();
        }
    }
}
