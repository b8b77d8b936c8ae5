//! The addresses at the front of frames that go out.
ghost use Rattle.std.specs.Prelude.{◌≡◌, IfOk};
ghost use Rattle.node_strings.specs.Arrival.{client_address, node_address};

use bytes::Bytes;
use std::alloc::{AllocError, Global};

/// The number of a client's connection. The host never uses a number again.
pub type ConnectionId = u64;

/// The address of a client. It fails only if there is no memory.
pub fn client_address(alloc: Global, client: ConnectionId) -> Result<Bytes, AllocError>
    ensures { IfOk result (λ string. string ≡ client_address client) }
{
    Bytes::from_string(format!(in alloc; "client {client}")?)
}

/// The address of a node. It fails only if there is no memory.
pub fn node_address(alloc: Global, node: u8) -> Result<Bytes, AllocError>
    ensures { IfOk result (λ string. string ≡ node_address node) }
{
    Bytes::from_string(format!(in alloc; "node {node}")?)
}
