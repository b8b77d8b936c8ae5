//! The numbers at the front of a head, each at its place.
ghost use Rattle.std.specs.Prelude.{◌≡◌, ◌+◌, ◌≤◌, ◌<◌, length};
ghost use Rattle.node_messages.specs.Head.{byte_in, long_in, short_in};
ghost use Rattle.node_messages.specs.Parts.{tag_in};
ghost use Rattle.node_messages.specs.Besides.{greatest_in};

use tag::Tag;

/// The form of messages, which is the first byte of each head. In form 4, no letter asked for a piece, and no letter
/// told anything but a start; in form 3, no letter told a start, either. Before that, the first string of a message was
/// the digest.
pub const FORM: u8 = 5;

/// The number of bytes of all numbers of a head.
pub(crate) const NUMBERS_LENGTH: usize = 74;

pub(crate) const FORM_PLACE: usize = 0;

pub(crate) const CALL_PLACE: usize = 1;

pub(crate) const PHASE_PLACE: usize = 9;

pub(crate) const POSITION_PLACE: usize = 13;

pub(crate) const MEMBER_PLACE: usize = 17;

pub(crate) const ROLE_PLACE: usize = 18;

pub(crate) const KIND_PLACE: usize = 19;

pub(crate) const STATUS_PLACE: usize = 20;

const TAG_NUMBER_PLACE: usize = 21;

const TAG_CALL_PLACE: usize = 29;

pub(crate) const STEP_PLACE: usize = 37;

pub(crate) const PIECE_PLACE: usize = 45;

pub(crate) const POINT_PLACE: usize = 46;

pub(crate) const LEN_PLACE: usize = 47;

pub(crate) const MARK_PLACE: usize = 51;

pub(crate) const TOLD_STATUS_PLACE: usize = 52;

const GREATEST_NUMBER_PLACE: usize = 53;

const GREATEST_CALL_PLACE: usize = 61;

pub(crate) const TOLD_POINT_PLACE: usize = 69;

pub(crate) const TOLD_LEN_PLACE: usize = 70;

/// The numbers of a head, as bytes.
pub(crate) type Numbers = [u8; NUMBERS_LENGTH];

/// Returns the number of 64 bits at a place.
pub(crate) fn long_in(place: usize, numbers: &Numbers) -> u64
    requires { place + 8 ≤ NUMBERS_LENGTH }
    ensures { result ≡ long_in place numbers.now }
{
    let Some(bytes) = numbers[place..].first_chunk::<8>() else {
        unreachable!()
    };
    u64::from_be_bytes(*bytes)
}

/// Returns the number of 32 bits at a place.
pub(crate) fn short_in(place: usize, numbers: &Numbers) -> u32
    requires { place + 4 ≤ NUMBERS_LENGTH }
    ensures { result ≡ short_in place numbers.now }
{
    let Some(bytes) = numbers[place..].first_chunk::<4>() else {
        unreachable!()
    };
    u32::from_be_bytes(*bytes)
}

/// Returns the byte at a place.
pub(crate) fn byte_in(place: usize, numbers: &Numbers) -> u8
    requires { place < NUMBERS_LENGTH }
    ensures { result ≡ byte_in place numbers.now }
{
    numbers[place]
}

/// Returns the tag.
pub(crate) fn tag_in(numbers: &Numbers) -> Tag
    ensures { result ≡ tag_in numbers.now }
{
    Tag {
        number: long_in(TAG_NUMBER_PLACE, numbers),
        call: long_in(TAG_CALL_PLACE, numbers),
    }
}

/// Returns the greatest tag that is told.
pub(crate) fn greatest_in(numbers: &Numbers) -> Tag
    ensures { result ≡ greatest_in numbers.now }
{
    Tag {
        number: long_in(GREATEST_NUMBER_PLACE, numbers),
        call: long_in(GREATEST_CALL_PLACE, numbers),
    }
}
