//! The log of a node, written anew.
ghost use Rattle.std.specs.Prelude.{◌≡◌, ◌≢◌, ◌↔◌, ◌⊎◌, None, true};
ghost use Rattle.node_core.specs.declared.error.CoreError.TheVariants.{Stopped};
ghost use Rattle.node_store.specs.Rewriting.{HasGrown};
ghost use Rattle.node_exports.specs.Answer.{number_of};
ghost use Rattle.node_exports.specs.Nodes.{BothHave, GivesLog, Has, KeepsLog, RefusesLog};
ghost use Rattle.node_exports.specs.declared.answer.TheConstants.{NOT_OPEN};

use crate::answer::{NOT_OPEN, number};
use node_handle::Held;
use std::alloc::Global;

/// Says how many bytes the log has once all tasks are carried out. Answers 0 or `NOT_OPEN`.
#[unsafe(no_mangle)]
pub extern "C" fn casnode_log_length(alloc: Global, node: &mut Held, length: &mut u64) -> u8
    ensures answers { (result ≡ 0) ⊎ (result ≡ NOT_OPEN) }
    ensures not_open { (result ≡ NOT_OPEN) ↔ (node.old.value ≡ None) }
    ensures length { result ≡ 0 → Has node.old (λ it. length.new ≡ it.core.end.length) }
    ensures same { node.new.value ≡ node.old.value }
    ensures unchanged { result ≢ 0 → length.new ≡ length.old }
{
    let Some(held) = node.take(alloc) else {
        return NOT_OPEN;
    };
    *length = held.core.log_length();
    node.put(alloc, held);
    0
}

/// Says by 1 or 0 whether it is worth writing the log anew. Answers 0 or `NOT_OPEN`.
#[unsafe(no_mangle)]
pub extern "C" fn casnode_should_rewrite(alloc: Global, node: &mut Held, worth: &mut u8) -> u8
    ensures answers { (result ≡ 0) ⊎ (result ≡ NOT_OPEN) }
    ensures not_open { (result ≡ NOT_OPEN) ↔ (node.old.value ≡ None) }
    ensures asked { result ≡ 0 → BothHave node.old node.new (λ old new.
        (new.core ≡ record old.core { asked = new.core.asked }) × (new.work ≡ old.work)) }
    ensures worth { result ≡ 0 → (worth.new ≡ 0)
        ⊎ ((worth.new ≡ 1) × Has node.old (λ it. HasGrown it.core.asked it.core.end.length)) }
    ensures closed { result ≡ NOT_OPEN → node.new.value ≡ None }
    ensures unchanged { result ≢ 0 → worth.new ≡ worth.old }
{
    let Some(mut held) = node.take(alloc) else {
        return NOT_OPEN;
    };
    *worth = u8::from(held.should_rewrite());
    node.put(alloc, held);
    0
}

/// Writes the log anew. `given` is 1 if it may be, and the next task is then to replace the log by the new one; else it
/// is 0, and the node has not changed. Answers `NOT_OPEN`, or the number of an error; then the node has not changed.
#[unsafe(no_mangle)]
pub extern "C" fn casnode_rewrite(alloc: Global, node: &mut Held, given: &mut u8) -> u8
    ensures not_open { (result ≡ NOT_OPEN) ↔ (node.old.value ≡ None) }
    ensures anew { result ≡ 0 → BothHave node.old node.new (GivesLog given.new) }
    ensures refused { result ≢ 0 → result ≢ NOT_OPEN → BothHave node.old node.new (RefusesLog result) }
    ensures over { Has node.old (λ it. it.core.is_stopped ≡ true) → result ≡ number_of Stopped }
    ensures closed { result ≡ NOT_OPEN → node.new.value ≡ None }
    ensures unchanged { result ≢ 0 → given.new ≡ given.old }
{
    let Some(mut held) = node.take(alloc) else {
        return NOT_OPEN;
    };
    let answer = match held.rewrite() {
        Ok(is_given) => {
            *given = u8::from(is_given);
            0
        }
        Err(error) => number(&error),
    };
    node.put(alloc, held);
    answer
}

/// Goes on with the old log, because the new one was not put in its place. `kept` is 1 if it did, and 0 if frames were
/// handled since, or no new log was given. Answers 0 or `NOT_OPEN`.
#[unsafe(no_mangle)]
pub extern "C" fn casnode_keep_log(alloc: Global, node: &mut Held, kept: &mut u8) -> u8
    ensures answers { (result ≡ 0) ⊎ (result ≡ NOT_OPEN) }
    ensures not_open { (result ≡ NOT_OPEN) ↔ (node.old.value ≡ None) }
    ensures kept { result ≡ 0 → BothHave node.old node.new (KeepsLog kept.new) }
    ensures closed { result ≡ NOT_OPEN → node.new.value ≡ None }
    ensures unchanged { result ≢ 0 → kept.new ≡ kept.old }
{
    let Some(mut held) = node.take(alloc) else {
        return NOT_OPEN;
    };
    *kept = u8::from(held.keep_log());
    node.put(alloc, held);
    0
}
