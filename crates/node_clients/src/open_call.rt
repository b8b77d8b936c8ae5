//! A call that a node carries out.
ghost use Rattle.std.specs.Prelude.{◌≡◌, IfErr, IfOk, OnOk};
ghost use Rattle.node_effects.specs.declared.error.NodeError.TheVariants.{NoMemory};
ghost use Rattle.node_clients.specs.Calls.{aged_of, asks_all_at, asks_at, older_of};

use bytes::Bytes;
use client_commands::{Deletion, Wanted};
use node_effects::NodeError;
use node_strings::ConnectionId;

/// A call that this node carries out.
#[derive(Debug, Drop)]
pub struct OpenCall {
    /// The name of its object.
    pub name: Bytes,
    /// The connection that waits for its answer, if one does.
    pub client: Option<ConnectionId>,
    /// What its client is told of the value, if it is a read.
    pub wanted: Wanted,
    /// Whether it is a move, which is never given up.
    pub is_move: bool,
    /// The number of ticks since it began, at most 2^32 - 1.
    pub age: u32,
    /// The `DEL` of which it is the next write, if it is one.
    pub deletion: Option<Deletion>,
}

/// What `Desk::aged` returns of an open call that a tick has made older.
#[derive(Debug)]
pub struct Aged {
    /// The name of its object.
    pub name: Bytes,
    /// Whether it is a move.
    pub is_move: bool,
    /// Whether it has been open for too many ticks.
    pub is_late: bool,
    /// Whether its requests are to be sent again to the members that have not replied.
    pub asks_again: bool,
    /// Whether it asks again, and is also to ask all nodes for the start of its object.
    pub asks_all: bool,
}

impl Drop for Aged {
    fn drop(self) {
        let Self {
            name: _,
            is_move: _,
            is_late: _,
            asks_again: _,
            asks_all: _,
        } = self;
    }
}

impl OpenCall {
    /// Makes the call older by a tick. It is late if it is then older than this number of ticks. It asks again after 2,
    /// 4, 8, 16, 32 and 64 ticks, and then at each 64th tick; from 8 ticks on it asks all nodes. Fails with `NoMemory`,
    /// and then nothing changes.
    pub(crate) fn grow_older(&mut self, ticks: u32) -> Result<Aged, NodeError>
        ensures older { OnOk result (self.new ≡ older_of self.old) }
        ensures aged { IfOk result (λ aged. aged ≡ aged_of ticks self.old) }
        ensures unchanged { IfErr result (λ e. self.new ≡ self.old) }
        ensures refused { IfErr result (λ e. e ≡ NoMemory) }
    {
        let Ok(name) = self.name.clone() else {
            return Err(NodeError::NoMemory);
        };
        self.age = self.age.saturating_add(1);
        let is_late = self.age > ticks;
        let asks_again = asks_at(self.age);
        let asks_all = asks_all_at(self.age);
        Ok(Aged {
            name,
            is_move: self.is_move,
            is_late,
            asks_again,
            asks_all,
        })
    }
}

// Whether a call of this age asks again.
fn asks_at(age: u32) -> bool
    ensures { result ≡ asks_at age }
{
    age == 2 || age == 4 || age == 8 || age == 16 || age == 32 || age % 64 == 0
}

// Whether a call of this age asks again, and asks all nodes.
fn asks_all_at(age: u32) -> bool
    ensures { result ≡ asks_all_at age }
{
    age >= 8 && asks_at(age)
}
