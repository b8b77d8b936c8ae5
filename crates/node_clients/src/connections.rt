//! All connections, by their numbers.
ghost use Rattle.std.specs.Prelude.{◌≡◌, ◌≢◌, ◌++◌, ◌∷◌, ℕ, [], nat_eq, None, IfOk, OnOk, IsSome, is_some};
ghost use Rattle.indexmap.specs.IndexMap.{get, index_map_len};
ghost use Rattle.node_clients.specs.declared.connection.State.TheVariants.{Idle, Quit};
ghost use Rattle.node_clients.specs.declared.next.Next.TheVariants as next_of;
ghost use Rattle.node_clients.specs.Connections.{waiting_on, doing, has_next, TakesNextAt};

use crate::connection::{Connection, State};
use crate::next::Next;
use crate::rest::Rest;
use frames::Frame;
use indexmap::IndexMap;
use std::alloc::{AllocError, Global};
use std::collections::VecDeque;

/// The connections of clients. The commands of one connection are carried out one after another: the next one is given
/// out only when the one before it has been answered.
#[derive(Debug)]
pub struct Connections {
    alloc: Global,
    pub by_number: IndexMap<u64, Connection>,
}

impl Drop for Connections {
    fn drop(self) {
        let Self {
            alloc: _,
            by_number: _,
        } = self;
    }
}

impl Connections {
    /// Makes a table without connections.
    pub fn new(alloc: Global) -> Connections
        ensures { result.by_number.entries ≡ [] }
    {
        Connections {
            alloc,
            by_number: IndexMap::new(alloc),
        }
    }

    /// Returns how many connections there are.
    pub fn count(&self) -> usize
        ensures { result ≡ index_map_len self.now.by_number }
    {
        self.by_number.len()
    }

    /// Keeps a command that has come on the connection with this number, and makes the connection if it is not there
    /// yet. It fails only if there is no memory.
    pub fn push(&mut self, number: u64, command: Frame) -> Result<(), AllocError>
        ensures waiting { OnOk result (waiting_on (get nat_eq self.new.by_number number)
            ≡ waiting_on (get nat_eq self.old.by_number number) ++ next_of.Came command ∷ []) }
        ensures state { OnOk result (doing (get nat_eq self.new.by_number number)
            ≡ doing (get nat_eq self.old.by_number number)) }
        ensures there { OnOk result (IsSome (get nat_eq self.new.by_number number)) }
        ensures others { OnOk result ((other : ℕ) → other ≢ number
            → get nat_eq self.new.by_number other ≡ get nat_eq self.old.by_number other) }
    {
        match self.by_number.get_mut(&number) {
            Some(connection) => connection.push(command),
            None => self.open(number, command),
        }
    }

    // A connection with its first command.
    fn open(&mut self, number: u64, command: Frame) -> Result<(), AllocError>
        requires { get nat_eq self.old.by_number number ≡ None }
        ensures waiting { OnOk result
            (waiting_on (get nat_eq self.new.by_number number) ≡ next_of.Came command ∷ []) }
        ensures state { OnOk result (doing (get nat_eq self.new.by_number number) ≡ Idle) }
        ensures there { OnOk result (IsSome (get nat_eq self.new.by_number number)) }
        ensures others { OnOk result ((other : ℕ) → other ≢ number
            → get nat_eq self.new.by_number other ≡ get nat_eq self.old.by_number other) }
    {
        let mut waiting = VecDeque::new(self.alloc);
        waiting.push_back(Next::Came(command))?;
        let state = State::Idle;
        self.by_number
            .insert(number, Connection { waiting, state })?;
        Ok(())
    }

    /// Whether the next command of the connection of this number may be carried out: it is there, it is idle, and a
    /// command waits.
    pub fn has_next(&self, number: u64) -> bool
        ensures { result ≡ has_next (get nat_eq self.now.by_number number) }
    {
        match self.by_number.get(&number) {
            Some(connection) => connection.has_next(),
            None => false,
        }
    }

    /// Returns the next command of the connection with this number, which is then busy. Returns none, and changes
    /// nothing, if no command waits, if the connection is busy or has quit, or if there is no connection with this
    /// number.
    pub fn next(&mut self, number: u64) -> Option<Next>
        ensures taken { TakesNextAt (get nat_eq self.old.by_number number)
            (get nat_eq self.new.by_number number) result }
        ensures stays { is_some (get nat_eq self.new.by_number number)
            ≡ is_some (get nat_eq self.old.by_number number) }
        ensures others { (other : ℕ) → other ≢ number
            → get nat_eq self.new.by_number other ≡ get nat_eq self.old.by_number other }
    {
        match self.by_number.get_mut(&number) {
            Some(connection) => connection.next(),
            None => None,
        }
    }

    /// Notes that the command of a connection is answered, so that the connection is idle. Returns whether there is a
    /// connection of this number.
    pub fn answered(&mut self, number: u64) -> bool
        ensures told { result ≡ is_some (get nat_eq self.old.by_number number) }
        ensures stays { is_some (get nat_eq self.new.by_number number)
            ≡ is_some (get nat_eq self.old.by_number number) }
        ensures state { doing (get nat_eq self.new.by_number number) ≡ Idle }
        ensures waiting { waiting_on (get nat_eq self.new.by_number number)
            ≡ waiting_on (get nat_eq self.old.by_number number) }
        ensures others { (other : ℕ) → other ≢ number
            → get nat_eq self.new.by_number other ≡ get nat_eq self.old.by_number other }
    {
        match self.by_number.get_mut(&number) {
            Some(connection) => {
                connection.state = State::Idle;
                true
            }
            None => false,
        }
    }

    /// Puts what is left of a command before all that waits on a connection, which is then idle. Returns whether there
    /// is a connection of this number. It fails only if there is no memory.
    pub fn put_back(&mut self, number: u64, rest: Rest) -> Result<bool, AllocError>
        ensures told { IfOk result (λ told. told ≡ is_some (get nat_eq self.old.by_number number)) }
        ensures stays { OnOk result (is_some (get nat_eq self.new.by_number number)
            ≡ is_some (get nat_eq self.old.by_number number)) }
        ensures state { OnOk result (doing (get nat_eq self.new.by_number number) ≡ Idle) }
        ensures waiting { OnOk result (IsSome (get nat_eq self.old.by_number number)
            → waiting_on (get nat_eq self.new.by_number number)
            ≡ next_of.Rest rest ∷ waiting_on (get nat_eq self.old.by_number number)) }
        ensures others { OnOk result ((other : ℕ) → other ≢ number
            → get nat_eq self.new.by_number other ≡ get nat_eq self.old.by_number other) }
    {
        match self.by_number.get_mut(&number) {
            Some(connection) => {
                connection.put_back(rest)?;
                Ok(true)
            }
            None => Ok(false),
        }
    }

    /// Notes that the client of a connection has quit, if the connection is there. Its commands wait for ever.
    pub fn quit(&mut self, number: u64)
        ensures state { IsSome (get nat_eq self.old.by_number number)
            → doing (get nat_eq self.new.by_number number) ≡ Quit }
        ensures waiting { waiting_on (get nat_eq self.new.by_number number)
            ≡ waiting_on (get nat_eq self.old.by_number number) }
        ensures stays { is_some (get nat_eq self.new.by_number number)
            ≡ is_some (get nat_eq self.old.by_number number) }
        ensures others { (other : ℕ) → other ≢ number
            → get nat_eq self.new.by_number other ≡ get nat_eq self.old.by_number other }
    {
        if let Some(connection) = self.by_number.get_mut(&number) {
            connection.state = State::Quit;
        }
    }

    /// Removes a connection that has ended, with the commands that waited on it.
    pub fn leave(&mut self, number: u64)
        ensures gone { get nat_eq self.new.by_number number ≡ None }
        ensures others { (other : ℕ) → other ≢ number
            → get nat_eq self.new.by_number other ≡ get nat_eq self.old.by_number other }
    {
        let _ = self.by_number.swap_remove(&number);
    }
}
