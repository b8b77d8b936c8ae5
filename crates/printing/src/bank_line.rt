//! The line of a bank.
ghost use Rattle.std.specs.Prelude.{Some};
ghost use Rattle.printing.specs.BankLine.{bank_text, row_text};

use crate::dash::NumberOrDash;
use crate::vocabulary::{label_word, status_word};
use bank::{Bank, Row};
use std::fmt;
use tag::Tag;

/// The line of a bank: `next S`, and then `; NUMBER.CALL LABEL LEN` for each tag in rising order. LEN is the number of
/// bytes of the piece, or `-` if there is no piece.
#[derive(Clone, Copy)]
pub struct BankLine<'a>(pub &'a Bank);

impl fmt::Display for BankLine<'_> {
    ghost output = { λ line. Some (bank_text line.0.now) };

    fn fmt<W: fmt::Write>(&self, f: &mut fmt::Formatter<W>) -> fmt::Result {
        let bank = self.0;
        write!(f, "next {}", status_word(bank.pointer().status()))?;
        for i in 0..bank.count() {
            write!(f, "; {}", RowText(bank.kept(i)))?;
        }
        Ok(())
    }
}

// A tag, and what the bank keeps for it.
#[derive(Clone, Copy)]
struct RowText<'a>((Tag, &'a Row));

impl fmt::Display for RowText<'_> {
    ghost output = { λ text. Some (row_text text.0.0 text.0.1.now) };

    fn fmt<W: fmt::Write>(&self, f: &mut fmt::Formatter<W>) -> fmt::Result {
        let (tag, row) = self.0;
        let bytes = match row.piece() {
            Some(piece) => Some(piece.bytes.len() as u64),
            None => None,
        };
        write!(f, "{tag} {} {}", label_word(row.label), NumberOrDash(bytes))
    }
}
