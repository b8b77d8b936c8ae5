//! A node handles frames.
ghost use Rattle.std.specs.Prelude.{◌≡◌, ◌≢◌, ◌↔◌, None, true};
ghost use Rattle.node_core.specs.declared.error.CoreError.TheVariants.{Stopped};
ghost use Rattle.node_store.specs.Serving.{IsInputEnd};
ghost use Rattle.node_exports.specs.Answer.{number_of, other_of};
ghost use Rattle.node_exports.specs.Nodes.{BothHave, HandlesFrames, Has, StopsAt};
ghost use Rattle.node_exports.specs.declared.answer.TheConstants.{NOT_OPEN};

use crate::answer::{NOT_OPEN, number};
use node_effects::Report;
use node_handle::Held;
use std::alloc::Global;

/// What `other` is if there is nothing to report: above the number of each node.
const NO_NODE: u16 = 256;

/// Handles the frames with which these bytes begin, one after another. The bytes behind the first `used` ones are to be
/// handed over again, with those that come next. What is to be done for the frames are the next tasks; those of before
/// have been carried out. `other` is the number of a node that has another cluster file, or 256. Answers `NOT_OPEN`, or
/// the number of an error; then the node has stopped, and neither number has changed.
#[unsafe(no_mangle)]
pub extern "C" fn casnode_handle(
    alloc: Global,
    node: &mut Held,
    input: &[u8],
    used: &mut usize,
    other: &mut u16,
) -> u8
    ensures not_open { (result ≡ NOT_OPEN) ↔ (node.old.value ≡ None) }
    ensures handled { result ≡ 0 → BothHave node.old node.new (HandlesFrames input.now used.new other.new) }
    ensures ended { result ≡ 0 → used.new ≡ 0 → IsInputEnd input.now }
    ensures stopped { result ≢ 0 → result ≢ NOT_OPEN → BothHave node.old node.new (StopsAt input.now result) }
    ensures over { Has node.old (λ it. it.core.is_stopped ≡ true) → result ≡ number_of Stopped }
    ensures closed { result ≡ NOT_OPEN → node.new.value ≡ None }
    ensures unchanged { result ≢ 0 → (used.new ≡ used.old) × (other.new ≡ other.old) }
{
    let Some(mut held) = node.take(alloc) else {
        return NOT_OPEN;
    };
    let answer = match held.handle_frames(alloc, input) {
        Ok(handled) => {
            *used = handled.used;
            *other = number_of_other(handled.report);
            0
        }
        Err(error) => number(&error),
    };
    node.put(alloc, held);
    answer
}

// The number of the node with another cluster file, if there is one.
fn number_of_other(report: Option<Report>) -> u16
    ensures { result ≡ other_of report }
{
    match report {
        Some(report) => u16::from(report.node),
        None => NO_NODE,
    }
}
