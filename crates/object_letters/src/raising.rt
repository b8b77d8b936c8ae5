//! The letter with which a node asks itself to raise a pointer to final.
ghost use Rattle.std.specs.Prelude.{◌≡◌, ◌+◌, ◌<◌, ◌^◌, is_some, option_copied, IfErr, IfOk, IfSome};
ghost use Rattle.tag.specs.declared.refusal.Refusal.TheVariants.{NoMemory};
ghost use Rattle.local_object.specs.Local.{heard_place};
ghost use Rattle.local_object.specs.Passed.{can_raise};
ghost use Rattle.object_letters.specs.Raising.{raising_letter};

use crate::letters::{index_of, letter_for};
use bank::{Request, Status};
use letter::Letter;
use local_object::{LocalObject, Place};
use tag::Refusal;

/// The letter with which a node asks itself to raise the pointer of its bank of a position to final. There is none if
/// the node cannot raise the pointer (`can_raise` of `LocalObject`). If the node serves the letter, this changes the
/// object as `raise` does.
///
/// `NoMemory` is the only refusal.
pub fn raising_letter(local: &LocalObject, position: u32) -> Result<Option<Letter>, Refusal>
    ensures letter { IfOk result (λ letter. letter ≡ raising_letter local.now position) }
    ensures asks { IfOk result (λ letter. is_some letter ≡ can_raise local.now position) }
    ensures next { IfOk result (λ letter. IfSome letter (λ letter. position + 1 < 2 ^ 32)) }
    ensures refused { IfErr result (λ e. e ≡ NoMemory) }
{
    if position >= local.start() || !local.can_raise(position) {
        return Ok(None);
    }
    let place = place_at(local.places(), position);
    let (Some(place), Some(member)) = (place, local.member_at(position)) else {
        return Ok(None);
    };
    let request = Request::Spread(Status::Final);
    Ok(Some(letter_for(local, place, member, request)?))
}

// The place of a position, if the node has heard of it.
fn place_at(places: &[Place], position: u32) -> Option<&Place>
    ensures { option_copied result ≡ heard_place places.now position }
{
    match index_of(places, u64::from(position)) {
        Some(index) => Some(&places[index]),
        None => None,
    }
}
