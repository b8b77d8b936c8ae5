ghost use Rattle.std.specs.Prelude.{◌≡◌, ◌↔◌, ◌+◌, ◌<◌, ◌^◌, IsTrue, Some};
ghost use Rattle.tag.specs.Tag.{later_tag, next_tag, opening_tag, tag_lt, tag_eq, tag_text, IsBelow};

use crate::CallId;
use std::fmt;

/// The name of a version of an object's value, after the tags of Coded Atomic Storage (Cadambe, Lynch, Médard and
/// Musial, 2014): tags are ordered by number, and then by the call that wrote the version.
#[derive(Clone, Copy, Debug, PartialEq, Eq, PartialOrd, Ord, Hash)]
pub struct Tag {
    /// One more than the greatest number that the writing call found.
    pub number: u64,
    /// The writing call's number in its object, from 1.
    pub call: CallId,
}

impl Tag {
    /// The tag of the empty value, with which every bank begins.
    pub const OPENING: Tag = Tag { number: 0, call: 0 };

    /// Returns whether this tag comes before `other`: by number, and then by call.
    pub fn is_below(self, other: Tag) -> bool
        ensures order { IsTrue result ↔ IsBelow self other }
        ensures value { result ≡ tag_lt self other }
    {
        self < other
    }

    /// Returns whether the two tags are the same.
    pub fn is(self, other: Tag) -> bool
        ensures same { IsTrue result ↔ (self ≡ other) }
        ensures value { result ≡ tag_eq self other }
    {
        self == other
    }

    /// Returns the later of the two tags.
    pub fn later(self, other: Tag) -> Tag
        ensures { result ≡ later_tag self other }
    {
        if self < other { other } else { self }
    }

    /// Returns the tag of a write by the call of this number, where `self` is the greatest tag that its queries found.
    pub fn next(self, call: CallId) -> Tag
        requires { self.number + 1 < 2 ^ 64 }
        ensures { result ≡ next_tag self call }
    {
        Tag {
            number: self.number + 1,
            call,
        }
    }
}

/// A tag is printed as its number, a point and its call, such as `3.7`.
impl fmt::Display for Tag {
    ghost output = { λ t. Some (tag_text t) };

    fn fmt<W: fmt::Write>(&self, f: &mut fmt::Formatter<W>) -> fmt::Result {
        write!(f, "{}.{}", self.number, self.call)
    }
}
