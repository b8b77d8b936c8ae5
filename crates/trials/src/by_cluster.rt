//! An example that embeds a `Cluster` and delivers every message itself. It writes a value and reads it back.

ghost use Rattle.cluster.specs.Atomic.{AreAtomic, AreFragments};

use bytes::Bytes;
use cluster::Cluster;
use decoder::decode;
use driver::handle;
use encoder::encode;
use layout::Layout;
use record::Want;
use register::Receipt;
use std::alloc::Global;
use tag::{CallId, Refusal};

/// The name of the object.
const NAME: &str = "greeting";

/// A limit on the turns of one call, above what a write or a read takes here.
const MOST_TURNS: u64 = 1000;

/// Writes `hello` to an object of four servers, any two of which give the value back, and reads it.
pub(crate) fn write_and_read(alloc: Global) -> Result<Bytes, Refusal> {
    let mut cluster = four_servers(alloc)?;
    let write = cluster.call_write(NAME, Bytes::from_static(b"hello"))?;
    bring_to_answer(alloc, &mut cluster, write)?;
    let read = cluster.call_read(NAME)?;
    let receipt = bring_to_answer(alloc, &mut cluster, read)?;
    receipt.value.ok_or(Refusal::NotNow)
}

/// Returns a cluster of four servers, with the object. Any two of the servers give a value back.
fn four_servers(alloc: Global) -> Result<Cluster, Refusal> {
    let mut cluster = Cluster::new(alloc, 4);
    let layout = cluster.add_layout(Layout::new(2, &[0, 1, 2, 3])?)?;
    cluster.create(NAME, layout)?;
    Ok(cluster)
}

/// Makes turns until the call is answered: the loop over `want`. Whatever the loop does, every object stays atomic, and
/// each piece in a bank or message stays its member's fragment of a value that was written.
fn bring_to_answer(alloc: Global, cluster: &mut Cluster, call: CallId) -> Result<Receipt, Refusal>
    ensures atomic { AreAtomic cluster.new }
    ensures fragments { AreFragments cluster.new }
{
    let answer = make_turns(alloc, cluster, call);
    cluster.atomic();
    answer
}

fn make_turns(alloc: Global, cluster: &mut Cluster, call: CallId) -> Result<Receipt, Refusal> {
    for _ in 0..MOST_TURNS {
        match cluster.want(NAME, call)? {
            Want::Replies => handle_first(cluster)?,
            Want::Advance => cluster.advance(NAME, call)?,
            Want::Supply { k: _, n: _ } => supply(alloc, cluster, call)?,
            Want::Settle { k, len } => settle(alloc, cluster, call, k, len)?,
            Want::Again => cluster.again(NAME, call)?,
            Want::Answer => return cluster.answer(NAME, call),
            Want::Done => return Err(Refusal::NotNow),
        }
    }
    Err(Refusal::GaveUp)
}

/// Encodes the value that the call writes, and gives the call its fragments.
fn supply(alloc: Global, cluster: &mut Cluster, call: CallId) -> Result<(), Refusal> {
    let (value, k, n) = cluster.value_to_code(NAME, call)?;
    cluster.supply(NAME, call, encode(alloc, k, n, value)?)
}

/// Decodes the fragments that the call has fetched, and gives it the value.
fn settle(
    alloc: Global,
    cluster: &mut Cluster,
    call: CallId,
    k: u8,
    len: u32,
) -> Result<(), Refusal> {
    let decoded = decode(alloc, k, len, cluster.pieces(NAME, call)?)?;
    cluster.settle(NAME, call, decoded)
}

/// Handles the message that has waited longest: a request is served, and a reply is taken.
fn handle_first(cluster: &mut Cluster) -> Result<(), Refusal> {
    handle(cluster, NAME, 0)?;
    Ok(())
}
