//! The thread of the administrator.
ghost use Rattle.std.specs.Prelude.{◌≡◌, IfOk, OnOk};
ghost use Rattle.locked_steps.specs.Moves.{new_admin};
ghost use Rattle.soak.specs.Made.{HasMoved, MakesMove};

use crate::counts::Counts;
use client::{Admin, Store, StoreName};
use driver::Congruential;
use soak_plan::{MOST_CLIENTS, Plan, layout_after, object_moved};
use std::sync::Wait;
use std::thread::Threads;
use tag::Refusal;

/// The greatest number of turns of each call and each move.
pub(crate) const MOST_TURNS: u64 = 1_000_000;

/// What the thread of the administrator returns: the administrator, or the refusal of one of its moves.
pub(crate) type Moved<L> = Result<Admin<L>, Refusal>;

/// Makes the administrator's moves, one after another.
pub(crate) fn make_moves<L: StoreName, R: Threads + Wait + Sync>(
    rt: &R,
    store: &Store<L>,
    mut admin: Admin<L>,
    plan: Plan,
    counts: &Counts,
) -> Moved<L>
    requires { admin ≡ new_admin L.first }
    ensures { IfOk result (λ admin. HasMoved L.first plan.moves admin) }
{
    let mut chooser = Congruential::new(plan.choices, MOST_CLIENTS);
    for number in 0..plan.moves {
        make_move(rt, store, &mut admin, number, &mut chooser)?;
        counts.add_move();
    }
    Ok(admin)
}

// Makes the move of this number.
fn make_move<L: StoreName, R: Threads + Wait + Sync>(
    rt: &R,
    store: &Store<L>,
    admin: &mut Admin<L>,
    number: u64,
    chooser: &mut Congruential,
) -> Result<(), Refusal>
    ensures { OnOk result (MakesMove L.first number admin.old admin.new) }
{
    let name = object_moved(number);
    store.move_object(rt, admin, name, layout_after(number), chooser, MOST_TURNS)?;
    Ok(())
}
