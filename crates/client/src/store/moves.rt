//! What the administrator does through the lock.

ghost use Rattle.std.specs.Prelude.{◌≡◌, ◌⊎◌, None, IfErr, IfOk, OnErr};
ghost use Rattle.client.specs.Locked.{AddsLayoutThen, CreatesThen, MovesThen, MovesNotThen, RetiresThen};
ghost use Rattle.client.specs.Locked.{SetsServerThen};
ghost use Rattle.client.specs.Refusals.{LeavesMoving, MoveIsRefused};
ghost use Rattle.locked_steps.specs.Moves.{Ends, has_asked};

use crate::store::Store;
use cluster::LayoutId;
use coding_pool::NoGate;
use driver::Chooser;
use layout::Layout;
use locked_steps::{Admin, Order, StoreName, admin_in, begin_move_in, retire_in};
use register::Receipt;
use std::sync::Wait;
use std::thread::Threads;
use tag::Refusal;

impl<L: StoreName> Store<L> {
    /// Adds a layout. Returns its number, from 0 in the order in which the layouts were added.
    ///
    /// Is refused with `BadLayout` if a member is no server, and with `Full` if the limit of steps or of layouts is
    /// met.
    pub fn add_layout<R: Wait>(
        &self,
        rt: &R,
        admin: &mut Admin<L>,
        layout: Layout,
    ) -> Result<LayoutId, Refusal>
        ensures { AddsLayoutThen L.first admin.old layout result admin.new }
    {
        let order = Order::AddLayout(layout);
        match admin_in(&mut *self.booked.lock(rt), admin, order)? {
            Some(id) => Ok(id),
            None => unreachable!(),
        }
    }

    /// Creates an object, with one position of this layout, whose banks keep every piece.
    ///
    /// It is refused as `create_with` is.
    pub fn create<R: Wait>(
        &self,
        rt: &R,
        admin: &mut Admin<L>,
        name: &str,
        layout: LayoutId,
    ) -> Result<(), Refusal>
        ensures { CreatesThen L.first admin.old name.now layout None result admin.new }
    {
        self.create_with(rt, admin, name, layout, None)
    }

    /// Creates an object, with one position of this layout. The banks of all its positions keep the pieces of the
    /// newest finalized version and of `delta` others; without `delta` they keep every piece.
    ///
    /// Is refused with `ObjectExists` if an object has this name, with `BadLayout` if there is no layout of this
    /// number, with `TooLong` if the name is longer than `LONGEST_NAME` bytes, and with `Full` if the limit of steps or
    /// of objects is met.
    pub fn create_with<R: Wait>(
        &self,
        rt: &R,
        admin: &mut Admin<L>,
        name: &str,
        layout: LayoutId,
        delta: Option<u32>,
    ) -> Result<(), Refusal>
        ensures { CreatesThen L.first admin.old name.now layout delta result admin.new }
    {
        let order = Order::Create {
            name,
            layout,
            delta,
        };
        admin_in(&mut *self.booked.lock(rt), admin, order)?;
        Ok(())
    }

    /// Brings a server up or takes it down.
    ///
    /// Is refused with `BadLayout` if there is no server of this number, and with `Full` if the limit of steps is met.
    pub fn set_server<R: Wait>(
        &self,
        rt: &R,
        admin: &mut Admin<L>,
        server: u8,
        up: bool,
    ) -> Result<(), Refusal>
        ensures { SetsServerThen L.first admin.old server up result admin.new }
    {
        let order = Order::SetServer { server, up };
        admin_in(&mut *self.booked.lock(rt), admin, order)?;
        Ok(())
    }

    /// Retires the base of an object, which must be this position. Its banks drop all pieces, and drop those that come
    /// later; the next position becomes the base, where first readings begin from then on. Returns how many bytes this
    /// frees. It allocates no memory.
    ///
    /// Is refused with `NoObject` if no object has this name, with `NotNow` unless the position is the object's base
    /// and the move out of it was answered, and with `Full` if the limit of steps is met.
    pub fn retire<R: Wait>(
        &self,
        rt: &R,
        admin: &mut Admin<L>,
        name: &str,
        position: u64,
    ) -> Result<u64, Refusal>
        ensures { RetiresThen L.first admin.old name.now position result admin.new }
    {
        retire_in(&mut *self.booked.lock(rt), admin, name, position)
    }

    /// Moves an object to the layout of this number, in at most `turns` steps besides the one that begins the move.
    ///
    /// If the move does not begin, the administrator is unchanged: `NoObject` if no object has this name, `MovePending`
    /// if the object or the administrator has a move that is not answered, `BadLayout` if there is no layout of this
    /// number, `Full` if a limit is met, and otherwise `NoMemory`. A later refusal leaves the move pending, and is one
    /// of those of `resume_move`.
    pub fn move_object<R: Threads + Wait + Sync, C: Chooser>(
        &self,
        rt: &R,
        admin: &mut Admin<L>,
        name: &str,
        layout: LayoutId,
        chooser: &mut C,
        turns: u64,
    ) -> Result<Receipt, Refusal>
        ensures ok { IfOk result (λ receipt. MovesThen L.first admin.old name.now layout receipt admin.new) }
        ensures err { IfErr result (λ r. ((admin.new ≡ admin.old) × MovesNotThen L.first admin.old name.now layout r)
            ⊎ LeavesMoving L.first admin.old name.now layout admin.new r) }
    {
        let _ = admin.make_room(name);
        begin_move_in(&mut *self.booked.lock(rt), admin, name, layout)?;
        self.finish(rt, &NoGate, admin, false, chooser, turns)
    }

    /// Continues the administrator's pending move, in at most `turns` steps.
    ///
    /// Is refused with `NoCall` if no move is pending. Otherwise it is refused as `resume` is, but never as `Stranger`,
    /// and the move stays pending.
    pub fn resume_move<R: Threads + Wait + Sync, C: Chooser>(
        &self,
        rt: &R,
        admin: &mut Admin<L>,
        chooser: &mut C,
        turns: u64,
    ) -> Result<Receipt, Refusal>
        ensures ok { IfOk result (λ receipt. Ends (has_asked admin.old) receipt admin.new) }
        ensures err { OnErr result ((admin.new ≡ admin.old) ⊎ (admin.new ≡ has_asked admin.old)) }
        ensures refused { IfErr result (λ r. MoveIsRefused L.first admin.new r) }
        ensures without_move { IfErr result (λ r. (admin.old.moving ≡ None) → r ≡ Refusal.NoCall) }
    {
        self.finish(rt, &NoGate, admin, true, chooser, turns)
    }
}
