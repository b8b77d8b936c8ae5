//! What has come to a node.
ghost use Rattle.std.specs.Prelude.{◌≡◌, IfSome, Some};
ghost use Rattle.node_strings.specs.declared.arrival.Arrival.{Arrival as Came};
ghost use Rattle.node_strings.specs.Arrival.{IsArrival, arrival_strings, arrival_at, arrival_from, client_arrival};
ghost use Rattle.node_strings.specs.Arrival.{node_arrival, tick_arrival};

use crate::address::ConnectionId;
use crate::heard::{Heard, are_node_numbers};
use crate::is_text;
use crate::parts::{behind, number_of, split};
use frames::Frame;

/// What has come to a node.
#[derive(Debug, Drop)]
pub enum Arrival {
    /// A command of a client, with at least one string.
    Command(ConnectionId, Frame),
    /// The end of a client's connection.
    Left(ConnectionId),
    /// A frame that the node with this number sent.
    Message(u8, Frame),
    /// Time has passed.
    Tick(Heard),
}

/// What has come, by the address at the front of the frame; none if the first string is no address. The function
/// allocates no memory.
pub fn read_arrival(frame: Frame) -> Option<Arrival>
    // The frame is the one that says what is read.
    ensures found { IfSome result (λ arrival. frame ≡ arrival_strings arrival) }
    // Whatever a frame says has come is read.
    ensures only { (arrival : Came) → IsArrival arrival → frame ≡ arrival_strings arrival → result ≡ Some arrival }
    ensures exact { result ≡ arrival_at frame }
{
    read_split(frame)
}

// Does what `read_arrival` does, and promises its clause `exact` alone. The other clauses follow from that one.
#[tactic(auto, unfolding(crate::specs::Arrival::arrival_at))]
fn read_split(frame: Frame) -> Option<Arrival>
    ensures { result ≡ arrival_at frame }
{
    match split(frame) {
        Some((address, rest)) => read_behind(&address, rest),
        None => None,
    }
}

// What has come, with this address and these strings behind it.
#[tactic(auto, unfolding(crate::specs::Arrival::arrival_from))]
fn read_behind(address: &[u8], rest: Frame) -> Option<Arrival>
    ensures { result ≡ arrival_from address.now rest }
{
    match behind(address, b"client ") {
        Some(number) => client_of(number, rest),
        None => read_other(address, rest),
    }
}

// What has come from a node, or that time has passed, with this address and these strings behind it.
fn read_other(address: &[u8], rest: Frame) -> Option<Arrival>
    ensures { result ≡ node_arrival address.now rest }
{
    match behind(address, b"node ") {
        Some(number) => {
            let number = number_of(number, 255)?;
            Some(Arrival::Message(number as u8, rest))
        }
        None => tick_of(address, rest),
    }
}

// Time has passed, where the address says that and only numbers of nodes stand behind it.
fn tick_of(address: &[u8], rest: Frame) -> Option<Arrival>
    ensures { result ≡ tick_arrival address.now rest }
{
    if is_text(address, b"tick") && are_node_numbers(rest.strings()) {
        Some(Arrival::Tick(Heard { numbers: rest }))
    } else {
        None
    }
}

// A command of the client of this number, or the end of its connection where nothing stands behind the address.
fn client_of(number: &[u8], rest: Frame) -> Option<Arrival>
    ensures { result ≡ client_arrival number.now rest }
{
    let number = number_of(number, u64::MAX)?;
    if rest.strings().is_empty() {
        return Some(Arrival::Left(number));
    }
    Some(Arrival::Command(number, rest))
}
