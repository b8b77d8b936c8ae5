//! What waits on a connection.
ghost use Rattle.std.specs.Prelude.{◌≡◌};
ghost use Rattle.node_clients.specs.Connections.{asked};

use crate::rest::Rest;
use client_commands::{Command, CommandFault, read_command};
use frames::Frame;

/// One thing that waits on a connection.
#[derive(Debug, Drop)]
pub enum Next {
    /// A command that has come, and that nobody has read yet.
    Came(Frame),
    /// What is left of a command that has begun.
    Rest(Rest),
}

impl Next {
    /// Returns the command for which it asks, or why a frame asks for none.
    pub fn command(self) -> Result<Command, CommandFault>
        ensures { result ≡ asked self }
    {
        match self {
            Next::Came(frame) => read_command(frame),
            Next::Rest(rest) => Ok(rest.command()),
        }
    }
}
