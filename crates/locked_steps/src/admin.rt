//! The one administrator of a store.

ghost use Rattle.std.specs.Prelude.{◌≡◌, ◌<◌, ◌↔◌, IsTrue, IsSome, IfErr};
ghost use Rattle.tag.specs.declared.refusal.Refusal.TheVariants.{NoMemory};
ghost use Rattle.locked_steps.specs.Moves.{EndsCall, IsOfMove, has_asked, new_admin, ordered_by};

use crate::booked::StoreName;
use crate::seat::hold;
use cluster::{Cluster, LayoutId};
use layout::Layout;
use register::Receipt;
use std::alloc::Global;
use std::marker::{Model, PhantomData};
use std::snapshot::Snapshot;
use tag::{CallId, Refusal, Stamp};

/// The one administrator of a store: the right to add layouts, to create and move objects, to retire positions, and to
/// bring servers up and take them down. It has at most one move that is not answered.
pub struct Admin<L: StoreName> {
    // The move that is not answered, and the name of its object.
    pub(crate) pending: Option<PendingMove>,
    pub(crate) name: String,
    // How many orders were carried out. It never wraps, since a store has fewer steps.
    pub(crate) orders: u64,
    // How many rounds of its moves were made with `asks_again`.
    pub(crate) asked: u64,
    // The cluster as the last order left it. Only contracts see it.
    pub(crate) left: Snapshot<Cluster>,
    pub(crate) of: PhantomData<L>,
}

impl<L: StoreName> Drop for Admin<L> {
    fn drop(self) {
        let Self {
            pending: _,
            name: _,
            orders: _,
            asked: _,
            left: _,
            of: _,
        } = self;
    }
}

/// A move that the administrator began and that is not answered.
#[derive(Clone, Copy, Debug)]
pub(crate) struct PendingMove {
    /// The object's place in the order of creation, from 0.
    pub(crate) object: u32,
    /// The move's number among the object's calls, from 1.
    pub(crate) call: CallId,
    /// The number of the step that began the move.
    pub(crate) called: Stamp,
}

/// An order that the administrator carries out in one step.
#[derive(Drop)]
pub enum Order<'a> {
    /// Adds a layout.
    AddLayout(Layout),
    /// Creates an object under a layout. Its banks keep `delta` finalized versions besides the newest, or all pieces
    /// without `delta`.
    Create {
        name: &'a str,
        layout: LayoutId,
        delta: Option<u32>,
    },
    /// Brings a server up or takes it down.
    SetServer {
        server: u8,
        up: bool,
    },
}

impl<L: StoreName> Model for Admin<L> {
    ghost use Rattle.std.specs.String.{string_bytes};
    ghost use Rattle.cluster.specs.contracts.cluster.Cluster as whole;
    ghost use Rattle.locked_steps.specs.Moves.{AdminState, admin_code, moving_of};

    ghost Value = { AdminState };

    ghost coded = { admin_code whole.the_row.coded };

    ghost view = { λ a. record {
      moving = moving_of (string_bytes a.name) a.pending;
      orders = a.orders;
      asked = a.asked;
      left = a.left.value;
    } };
}

impl<L: StoreName> Admin<L> {
    /// Makes the administrator of a store that is opened with this cluster. It allocates no memory.
    pub(crate) fn new(alloc: Global, cluster: &Cluster) -> Admin<L>
        ensures { result ≡ new_admin cluster.now }
    {
        Admin {
            pending: None,
            name: String::new(alloc),
            orders: 0,
            asked: 0,
            left: Snapshot::of(cluster),
            of: PhantomData,
        }
    }

    /// Returns whether the administrator has a move that is not answered. A resume continues that move
    /// (`move_round_in`).
    pub fn is_pending(&self) -> bool
        ensures { IsTrue result ↔ IsSome self.now.moving }
    {
        self.pending.is_some()
    }

    /// Returns how many orders were carried out: layouts added, objects created, servers set, positions retired, and
    /// moves begun.
    pub fn orders(&self) -> u64
        ensures { result ≡ self.now.orders }
    {
        self.orders
    }

    /// Returns how many rounds of the administrator's moves were made with `asks_again`.
    pub fn asked(&self) -> u64
        ensures { result ≡ self.now.asked }
    {
        self.asked
    }

    /// Copies the name of the object that is to be moved, so that `begin_move_in` does not do it under the lock. It
    /// does nothing if a move is pending. `NoMemory` is the only refusal.
    pub fn make_room(&mut self, name: &str) -> Result<(), Refusal>
        ensures same { self.new ≡ self.old }
        ensures refused { IfErr result (λ r. r ≡ NoMemory) }
    {
        if self.is_pending() {
            return Ok(());
        }
        hold(&mut self.name, name)
    }

    /// Counts an order that left this cluster.
    pub(crate) fn note_order(&mut self, cluster: &Cluster)
        ensures { self.new ≡ ordered_by self.old cluster.now }
    {
        self.orders = self.orders.wrapping_add(1);
        self.left = Snapshot::of(cluster);
    }

    /// Ends its pending move, which is answered with this receipt.
    pub(crate) fn end_move(&mut self, receipt: &Receipt)
        requires call { IsOfMove self.old.moving receipt.now }
        requires later { receipt.now.called < receipt.now.answered }
        ensures { EndsCall self.old.moving self.old receipt.now self.new }
    {
        self.pending = None;
    }

    /// Counts a round that was made with `asks_again`.
    pub(crate) fn note_asked(&mut self)
        ensures { self.new ≡ has_asked self.old }
    {
        self.asked = self.asked.wrapping_add(1);
    }
}
