//! A node is opened, and closed.
ghost use Rattle.std.specs.Prelude.{◌≡◌, ◌≢◌, ◌↔◌, ◌⊎◌, None, Some};
ghost use Rattle.node_core.specs.Opening.{IsUnopened};
ghost use Rattle.node_core.specs.declared.error.CoreError.{CoreError as Refusal};
ghost use Rattle.node_core.specs.declared.error.CoreError.TheVariants as errors;
ghost use Rattle.node_handle.specs.Embedding.{HasStarted};
ghost use Rattle.node_exports.specs.Answer.{detail_of, number_of};
ghost use Rattle.node_exports.specs.Nodes.{Has};
ghost use Rattle.node_exports.specs.declared.answer.TheConstants.{IS_OPEN};

use crate::answer::{IS_OPEN, detail, number};
use node_handle::{Held, open};
use std::alloc::Global;

/// Opens the node of this number: `text` is that of the cluster file, and `log` all bytes that the node's log has. Its
/// first tasks are those of a start. Answers `IS_OPEN` if the handle has a node; else the number of an error, and says
/// in `place` where it lies; else 1 if there is no memory for the node. Then the handle is as it was.
#[unsafe(no_mangle)]
pub extern "C" fn casnode_open(
    alloc: Global,
    node: &mut Held,
    text: &[u8],
    member: u8,
    log: &[u8],
    place: &mut u64,
) -> u8
    ensures is_open { (result ≡ IS_OPEN) ↔ (node.old.value ≢ None) }
    ensures opened { result ≡ 0 → Has node.new (HasStarted text.now member log.now) }
    ensures same { result ≢ 0 → node.new.value ≡ node.old.value }
    ensures refused { (result ≡ 0) ⊎ (result ≡ IS_OPEN)
        ⊎ ((error : Refusal) × (result ≡ number_of error) × (place.new ≡ detail_of error)
        × IsUnopened text.now member log.now error) ⊎ ((result ≡ number_of errors.NoMemory) × (place.new ≡ place.old)) }
    ensures unchanged { (result ≡ 0) ⊎ (result ≡ IS_OPEN) → place.new ≡ place.old }
{
    if let Some(held) = node.take(alloc) {
        node.put(alloc, held);
        return IS_OPEN;
    }
    match open(alloc, text, member, log) {
        Ok(embedded) => match Box::new(alloc, embedded) {
            Ok(held) => {
                node.put(alloc, held);
                0
            }
            Err(_) => 1,
        },
        Err(error) => {
            *place = detail(&error);
            number(&error)
        }
    }
}

/// Drops the node of a handle, which then has none.
#[unsafe(no_mangle)]
pub extern "C" fn casnode_close(alloc: Global, node: &mut Held)
    ensures { node.new.value ≡ None }
{
    drop(node.take(alloc));
}
