//! Strings, one by one.
ghost use Rattle.std.specs.Prelude.{◌≡◌, ◌≤◌, ◌∷◌, [], IfSome, MatchOption};
ghost use Rattle.node_strings.specs.Parts.{IsReadAs, first_and_rest, rest_behind};
ghost use Rattle.node_strings.specs.Parts.{number_or_none, layout_or_none, digest_or_none};

use crate::{read_layout, read_number};
use bytes::Bytes;
use cluster_file::DIGEST_LENGTH;
use frames::Frame;
use layout::Layout;

/// The first string of a frame, and the frame of the others. None if the frame has no string.
pub(crate) fn split(frame: Frame) -> Option<(Bytes, Frame)>
    ensures { MatchOption result (frame ≡ []) (λ parts. frame ≡ parts.0 ∷ parts.1) }
{
    let mut strings = frame.into_strings();
    if strings.is_empty() {
        return None;
    }
    let first = strings.remove(0);
    match Frame::new(strings) {
        Ok(rest) => Some((first, rest)),
        Err(_) => unreachable!(),
    }
}

/// The first string, and the others.
pub(crate) fn string_of(strings: &[Bytes]) -> Option<(&Bytes, &[Bytes])>
    ensures { IsReadAs (λ x. (x.0.now, x.1.now)) result (first_and_rest strings.now) }
{
    match strings {
        [first, rest @ ..] => Some((first, rest)),
        [] => None,
    }
}

/// Returns the number up to `most` that a string writes.
pub(crate) fn number_of(string: &[u8], most: u64) -> Option<u64>
    requires { 9 ≤ most }
    ensures within { IfSome result (λ number. number ≤ most) }
    ensures exact { result ≡ number_or_none most string.now }
{
    match read_number(string, most, (), ()) {
        Ok(number) => Some(number),
        Err(_) => None,
    }
}

/// What follows these bytes, if the string begins with them.
pub(crate) fn behind<'a>(string: &'a [u8], front: &[u8]) -> Option<&'a [u8]>
    ensures { IsReadAs (λ rest. rest.now) result (rest_behind front.now string.now) }
{
    string.strip_prefix(front)
}

/// Returns the layout whose string this is.
pub(crate) fn layout_of(string: &[u8]) -> Option<Layout>
    ensures { result ≡ layout_or_none string.now }
{
    match read_layout(string, ()) {
        Ok(layout) => Some(layout),
        Err(()) => None,
    }
}

/// Returns the digest that a string is.
pub(crate) fn digest_of(string: &[u8]) -> Option<[u8; DIGEST_LENGTH]>
    ensures { result ≡ digest_or_none string.now }
{
    match <[u8; DIGEST_LENGTH]>::try_from(string) {
        Ok(digest) => Some(digest),
        Err(_) => None,
    }
}
