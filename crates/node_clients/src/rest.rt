//! What is left of a command when one of its calls has ended.
ghost use Rattle.std.specs.Prelude.{◌≡◌};
ghost use Rattle.node_clients.specs.Connections.{rest_command};

use bytes::Bytes;
use client_commands::{Command, Deletion, Wanted};

/// What is left of a command that has begun: it goes on with a further call, for which the same client waits.
#[derive(Debug, Drop)]
pub enum Rest {
    /// What is left of a `DEL`.
    Deletes(Deletion),
    /// The read with which the move of the object of this name ends. Its requests tell a quorum of the object's new
    /// members that its calls begin with their layout.
    Confirms(Bytes),
}

impl Rest {
    /// Returns the command with which the node goes on.
    pub(crate) fn command(self) -> Command
        ensures { result ≡ rest_command self }
    {
        match self {
            Rest::Deletes(deletion) => Command::Delete(deletion),
            Rest::Confirms(name) => Command::Read {
                wanted: Wanted::Nothing,
                name,
            },
        }
    }
}
