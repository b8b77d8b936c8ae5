//! Values that may be absent: each prints as itself, or as `-` if it is absent.
ghost use Rattle.std.specs.Prelude.{Some};
ghost use Rattle.std.specs.Fmt.{decimal};
ghost use Rattle.tag.specs.Tag.{tag_text};
ghost use Rattle.words.specs.Hexadecimal.{hexadecimal_text};
ghost use Rattle.printing.specs.Words.{text_or_dash};

use bytes::Bytes;
use std::fmt;
use tag::Tag;
use words::Hexadecimal;

/// A number, or `-`.
#[derive(Clone, Copy)]
pub struct NumberOrDash(pub Option<u64>);

impl fmt::Display for NumberOrDash {
    ghost output = { λ n. Some (text_or_dash decimal n.0) };

    fn fmt<W: fmt::Write>(&self, f: &mut fmt::Formatter<W>) -> fmt::Result {
        match self.0 {
            Some(number) => write!(f, "{number}"),
            None => f.write_str("-"),
        }
    }
}

/// A tag, or `-`.
#[derive(Clone, Copy)]
pub struct TagOrDash(pub Option<Tag>);

impl fmt::Display for TagOrDash {
    ghost output = { λ t. Some (text_or_dash tag_text t.0) };

    fn fmt<W: fmt::Write>(&self, f: &mut fmt::Formatter<W>) -> fmt::Result {
        match self.0 {
            Some(tag) => write!(f, "{tag}"),
            None => f.write_str("-"),
        }
    }
}

/// A value in hexadecimal, or `-`.
#[derive(Clone, Copy)]
pub struct ValueOrDash<'a>(pub &'a Option<Bytes>);

impl fmt::Display for ValueOrDash<'_> {
    ghost output = { λ v. Some (text_or_dash hexadecimal_text v.0.now) };

    fn fmt<W: fmt::Write>(&self, f: &mut fmt::Formatter<W>) -> fmt::Result {
        match self.0 {
            Some(value) => write!(f, "{}", Hexadecimal(value.as_slice())),
            None => f.write_str("-"),
        }
    }
}
