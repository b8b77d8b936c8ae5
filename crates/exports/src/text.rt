//! Texts in a picture.
ghost use Rattle.std.specs.Prelude.{Some};
ghost use Rattle.exports.specs.CallLanes.{course_text};

use bank::{Kind, Status};
use std::fmt;
use tag::Stamp;
use words::Hexadecimal;

/// A text in which `<` and `&` are escaped, and anything but printable ASCII prints as `?`.
#[derive(Clone, Copy)]
pub(crate) struct Escaped<'a>(pub(crate) &'a str);

impl fmt::Display for Escaped<'_> {
    fn fmt<W: fmt::Write>(&self, f: &mut fmt::Formatter<W>) -> fmt::Result {
        for letter in self.0.chars() {
            write_escaped(f, letter)?;
        }
        Ok(())
    }
}

fn write_escaped<W: fmt::Write>(f: &mut fmt::Formatter<W>, letter: char) -> fmt::Result {
    match letter {
        '<' => f.write_str("&lt;"),
        '&' => f.write_str("&amp;"),
        ' '..='~' => write!(f, "{letter}"),
        _ => f.write_str("?"),
    }
}

/// How many bytes are shown of a value that is not shown whole.
pub(crate) const FRONT: usize = 4;

/// The longest value that is shown whole at the end of a call.
const LONGEST_WHOLE: usize = 6;

/// The first bytes of a value in hexadecimal, at most `most` of them.
#[derive(Clone, Copy)]
pub(crate) struct Front<'a> {
    pub(crate) bytes: &'a [u8],
    pub(crate) most: usize,
}

impl fmt::Display for Front<'_> {
    fn fmt<W: fmt::Write>(&self, f: &mut fmt::Formatter<W>) -> fmt::Result {
        match self.bytes.get(..self.most) {
            Some(front) if front.len() < self.bytes.len() => {
                write!(f, "{}…", Hexadecimal(front))
            }
            _ => write!(f, "{}", Hexadecimal(self.bytes)),
        }
    }
}

/// A short value whole, and of a longer one the first bytes and the length.
#[derive(Clone, Copy)]
pub(crate) struct Short<'a>(pub(crate) &'a [u8]);

impl fmt::Display for Short<'_> {
    fn fmt<W: fmt::Write>(&self, f: &mut fmt::Formatter<W>) -> fmt::Result {
        let bytes = self.0;
        if bytes.len() <= LONGEST_WHOLE {
            return write!(f, "{}", Hexadecimal(bytes));
        }
        write!(f, "{} {} B", Front { bytes, most: FRONT }, bytes.len())
    }
}

/// The text that gives the steps of a call or of a phase: the first one, and the last one if it has ended.
#[derive(Clone, Copy)]
pub(crate) struct Course {
    pub(crate) from: Stamp,
    pub(crate) to: Option<Stamp>,
}

impl fmt::Display for Course {
    ghost output = { λ course. Some (course_text course.from course.to) };

    fn fmt<W: fmt::Write>(&self, f: &mut fmt::Formatter<W>) -> fmt::Result {
        let from = self.from;
        match self.to {
            Some(to) => write!(f, "steps {from} to {to}"),
            None => write!(f, "from step {from}, open"),
        }
    }
}

/// The word for what a phase asks.
#[derive(Clone, Copy)]
pub(crate) struct KindText(pub(crate) Kind);

impl fmt::Display for KindText {
    fn fmt<W: fmt::Write>(&self, f: &mut fmt::Formatter<W>) -> fmt::Result {
        match self.0 {
            Kind::Next => f.write_str("asks for the next position"),
            Kind::Spread(Status::Unset) => f.write_str("spreads that there is no next position"),
            Kind::Spread(Status::Pending) => f.write_str(
                "spreads that the next position is pending",
            ),
            Kind::Spread(Status::Final) => f.write_str("spreads that the next position is final"),
            Kind::Query => f.write_str("asks for the greatest tag"),
            Kind::PreWrite(tag) => write!(f, "pre-writes tag {tag}"),
            Kind::Finalize(tag) => write!(f, "finalizes tag {tag}"),
            Kind::Fetch(tag) => write!(f, "fetches tag {tag}"),
        }
    }
}

/// Returns the letter for what a phase asks, which is drawn if its word has no room.
pub(crate) fn kind_letter(kind: Kind) -> &'static str {
    match kind {
        Kind::Next => "n",
        Kind::Spread(_) => "s",
        Kind::Query => "q",
        Kind::PreWrite(_) => "p",
        Kind::Finalize(_) => "f",
        Kind::Fetch(_) => "g",
    }
}
