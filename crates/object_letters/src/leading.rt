//! To which objects letters can lead back.
ghost use Rattle.std.specs.Prelude.{◌≡◌, ◌+◌, ◌^◌, nat_lt};
ghost use Rattle.std.specs.List.{list_all};
ghost use Rattle.object_letters.specs.Leading.{can_be_led_to, is_place_led_to};

use local_object::{LocalObject, Place};

/// Whether the letters of `letters_of` lead back to this object, from a new one that hears of its positions first: no
/// move is open, and each position has a next one.
pub fn can_be_led_to(local: &LocalObject) -> bool
    ensures { result ≡ can_be_led_to local.now }
{
    !local.is_moving() && are_led_to(local.places())
}

// Whether letters can lead to each of these places.
fn are_led_to(places: &[Place]) -> bool
    ensures { result ≡ list_all is_place_led_to places.now }
{
    places.iter().all(|place| is_led_to(place))
}

// Whether letters can lead to what the node keeps in a place: there is a number for the position after this one.
fn is_led_to(place: &Place) -> bool
    ensures { result ≡ is_place_led_to place.now }
{
    has_next(place.position())
}

// Whether there is a number for the position after this one.
fn has_next(position: u32) -> bool
    ensures { result ≡ nat_lt (position + 1) (2 ^ 32) }
{
    position < u32::MAX
}
