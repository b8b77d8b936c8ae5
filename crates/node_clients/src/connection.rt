use crate::next::Next;
use crate::rest::Rest;
use frames::Frame;
use std::alloc::AllocError;
use std::collections::VecDeque;

/// What a client's connection is doing.
#[derive(Clone, Copy, Debug, PartialEq, Eq)]
pub enum State {
    /// The next command may be carried out.
    Idle,
    /// A command is being carried out, and is not answered.
    Busy,
    /// The client has quit: no further command is carried out.
    Quit,
}

/// A client's connection: the commands that wait on it, the next one first, and what it is doing.
#[derive(Debug)]
pub struct Connection {
    pub waiting: VecDeque<Next>,
    pub state: State,
}

impl Drop for Connection {
    fn drop(self) {
        let Self {
            waiting: _,
            state: _,
        } = self;
    }
}

impl Connection {
    ghost use Rattle.std.specs.Prelude.{◌≡◌, ◌≢◌, ◌++◌, ◌∷◌, [], OnOk, IfSome, IfNone, IsNone};
    ghost use Rattle.node_clients.specs.declared.connection.State.TheVariants.{Idle, Busy};
    ghost use Rattle.node_clients.specs.declared.next.Next.TheVariants as next_of;
    ghost use Rattle.node_clients.specs.Connections.{TakesNext, gives_next};

    /// Keeps a command that has come, after those that wait. It fails only if there is no memory.
    pub(crate) fn push(&mut self, command: Frame) -> Result<(), AllocError>
        ensures waiting { OnOk result (self.new.waiting.items ≡ self.old.waiting.items ++ next_of.Came command ∷ []) }
        ensures state { self.new.state ≡ self.old.state }
    {
        self.waiting.push_back(Next::Came(command))?;
        Ok(())
    }

    /// Keeps what is left of a command, before all that waits, and makes the connection idle. It fails only if there is
    /// no memory.
    pub(crate) fn put_back(&mut self, rest: Rest) -> Result<(), AllocError>
        ensures waiting { OnOk result (self.new.waiting.items ≡ next_of.Rest rest ∷ self.old.waiting.items) }
        ensures state { OnOk result (self.new.state ≡ Idle) }
    {
        self.waiting.push_front(Next::Rest(rest))?;
        self.state = State::Idle;
        Ok(())
    }

    /// Whether the connection is idle and a command waits.
    pub(crate) fn has_next(&self) -> bool
        ensures { result ≡ gives_next self.now }
    {
        match self.state {
            State::Idle => !self.waiting.is_empty(),
            State::Busy | State::Quit => false,
        }
    }

    /// The next command, if the connection is idle and one waits. The connection is then busy.
    pub(crate) fn next(&mut self) -> Option<Next>
        ensures { TakesNext self.old self.new result }
    {
        if self.state != State::Idle {
            return None;
        }
        let command = self.waiting.pop_front()?;
        self.state = State::Busy;
        Some(command)
    }
}
