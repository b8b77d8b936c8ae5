//! The requests of a call's current phase that are sent again.

ghost use Rattle.std.specs.Prelude.{◌≡◌, true, IfOk, IfErr};
ghost use Rattle.tag.specs.declared.refusal.Refusal.TheVariants.{NoMemory};
ghost use Rattle.local_object.specs.Coding.{is_sendable};
ghost use Rattle.local_object.specs.Sent.{missing_letters, unanswered};

use crate::early::asks_piece;
use crate::going::{begins_anew, coded_requests};
use crate::letters::letters_of;
use crate::places::Places;
use call::Call;
use letter::{Letter, SharedLayout};
use std::alloc::Global;
use tag::Refusal;

/// The requests of the call's current phase to the members of this layout whose replies are not recorded, in the order
/// of the members, from a node with this start. If the phase is a complete fetch that lacks pieces, they are those to
/// all members.
///
/// `NoMemory` is the only refusal.
pub(crate) fn missing(
    alloc: Global,
    places: &Places,
    start: u32,
    call: &Call,
    layout: &SharedLayout,
) -> Result<Vec<Letter>, Refusal>
    requires { is_sendable call.now.phase.kind call.now ≡ true }
    ensures letters { IfOk result (λ letters. letters.items ≡ missing_letters places.now start call.now layout.now) }
    ensures refused { IfErr result (λ e. e ≡ NoMemory) }
{
    let messages = coded_requests(alloc, call.ask(), call, layout.layout())?;
    let mut letters = letters_of(alloc, places, start, asks_piece(call), layout, messages)?;
    if begins_anew(call) {
        return Ok(letters);
    }
    keep_unanswered(&mut letters, call);
    Ok(letters)
}

// Keeps those of the letters that go to members whose replies are not recorded.
fn keep_unanswered(letters: &mut Vec<Letter>, call: &Call)
    ensures { letters.new.items ≡ unanswered call.now.phase.replies letters.old.items }
{
    let phase = call.phase();
    letters.retain(|letter| !phase.has_taken(letter.message.member));
}
