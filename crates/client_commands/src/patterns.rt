//! Glob patterns: `*` stands for any bytes, `?` for one byte, and a byte behind `\` for itself.
ghost use Rattle.std.specs.Prelude.{◌≡◌, ◌+◌, [], ◌∷◌, ◌++◌, if◌then◌else◌, IfOk, List, OnOk, length};
ghost use Rattle.std.specs.List.{filter};
ghost use Rattle.client_commands.specs.Patterns.{
  IsRow,
  fits,
  fits_here,
  fits_none,
  has_set,
  matches,
  part_of,
  parts_from,
};
ghost use Rattle.client_commands.specs.declared.patterns.Part.{Part as Piece};

use bytes::Bytes;
use std::alloc::{AllocError, Global};

/// A part of a pattern.
#[derive(Clone, Copy, Debug, PartialEq, Eq)]
pub(crate) enum Part {
    /// Any number of bytes, whatever they are.
    AnyBytes,
    /// One byte, whatever it is.
    OneByte,
    /// This byte.
    This(u8),
}

/// Returns those of the names that match a pattern, in their order.
///
/// For each name it takes time that is linear in the product of the lengths of the pattern and of the name.
pub fn matching_names(
    alloc: Global,
    pattern: &[u8],
    names: &[Bytes],
) -> Result<Vec<Bytes>, AllocError>
    ensures { IfOk result (λ told. told.items ≡ filter (matches pattern.now) names.now) }
{
    let mut parts = Vec::new(alloc);
    push_parts(&mut parts, false, pattern)?;
    names_of(alloc, &parts, names)
}

// Those of the names that these parts match.
fn names_of(alloc: Global, parts: &[Part], names: &[Bytes]) -> Result<Vec<Bytes>, AllocError>
    ensures { IfOk result (λ told. told.items ≡ filter (fits parts.now) names.now) }
{
    let mut told = Vec::new(alloc);
    for name in names {
        let is_told = fits(alloc, parts, name)?;
        push_if(&mut told, name, is_told)?;
    }
    Ok(told)
}

// Appends this name, if it is told.
fn push_if(told: &mut Vec<Bytes>, name: &Bytes, is_told: bool) -> Result<(), AllocError>
    ensures { OnOk result (told.new.items ≡ told.old.items ++ (if is_told then name.now ∷ [] else [])) }
{
    if is_told {
        told.push(name.clone()?)?;
    }
    Ok(())
}

// Appends the parts of a pattern, before which there is a `\` or not.
fn push_parts(parts: &mut Vec<Part>, is_escaped: bool, pattern: &[u8]) -> Result<(), AllocError>
    ensures { OnOk result (parts.new.items ≡ parts.old.items ++ parts_from is_escaped pattern.now) }
{
    match pattern {
        [] => {
            if is_escaped {
                parts.push(Part::This(b'\\'))?;
            }
            Ok(())
        }
        [byte, rest @ ..] => {
            if is_escaped {
                parts.push(Part::This(*byte))?;
                return push_parts(parts, false, rest);
            }
            if *byte == b'\\' {
                return push_parts(parts, true, rest);
            }
            parts.push(part_of(*byte))?;
            push_parts(parts, false, rest)
        }
    }
}

// The part for which a byte stands.
fn part_of(byte: u8) -> Part
    ensures { result ≡ part_of byte }
{
    if byte == b'*' {
        Part::AnyBytes
    } else if byte == b'?' {
        Part::OneByte
    } else {
        Part::This(byte)
    }
}

/// Returns whether a pattern, before which there is a `\` or not, has a `[` that does not stand for itself.
pub(crate) fn has_set(is_escaped: bool, pattern: &[u8]) -> bool
    ensures { result ≡ has_set is_escaped pattern.now }
{
    match pattern {
        [] => false,
        [byte, rest @ ..] => {
            if is_escaped {
                return has_set(false, rest);
            }
            if *byte == b'[' {
                return true;
            }
            has_set(*byte == b'\\', rest)
        }
    }
}

// Whether these parts match a text.
fn fits(alloc: Global, parts: &[Part], text: &[u8]) -> Result<bool, AllocError>
    ensures { IfOk result (λ is. is ≡ fits parts.now text.now) }
{
    let row = row_of(alloc, parts, text)?;
    Ok(row[text.len()])
}

// For each number of bytes at the end of a text, whether these parts match these bytes.
fn row_of(alloc: Global, parts: &[Part], text: &[u8]) -> Result<Vec<bool>, AllocError>
    ensures { IfOk result (λ row. IsRow parts.now text.now row.items) }
{
    match parts {
        [] => row_of_none(alloc, text),
        [part, rest @ ..] => {
            let row = row_of(alloc, rest, text)?;
            next_row(alloc, *part, text, &row)
        }
    }
}

// The row of no parts, which match no bytes alone.
fn row_of_none(alloc: Global, text: &[u8]) -> Result<Vec<bool>, AllocError>
    ensures { IfOk result (λ row. IsRow [] text.now row.items) }
{
    let mut row = Vec::new(alloc);
    row.push(true)?;
    for _byte in text {
        row.push(false)?;
    }
    Ok(row)
}

// The row of a part and of those behind it, whose row is given.
fn next_row(alloc: Global, part: Part, text: &[u8], row: &[bool]) -> Result<Vec<bool>, AllocError>
    requires { length row.now ≡ length text.now + 1 }
    ensures { IfOk result (λ next. (parts : List Piece) → IsRow parts text.now row.now
        → IsRow (part ∷ parts) text.now next.items) }
{
    let mut next = Vec::new(alloc);
    let mut last = fits_none(part, row[0]);
    next.push(last)?;
    for count in 0..text.len() {
        let byte = text[text.len() - 1 - count];
        last = fits_here(part, byte, row[count + 1], row[count], last);
        next.push(last)?;
    }
    Ok(next)
}

// Whether a part and those behind it match no bytes, where those behind it do so or not.
fn fits_none(part: Part, rest_fits: bool) -> bool
    ensures { result ≡ fits_none part rest_fits }
{
    match part {
        Part::AnyBytes => rest_fits,
        _ => false,
    }
}

// Whether a part and those behind it match a byte and more bytes: by whether the parts behind it match all of these
// bytes, or those behind the first, and whether the part and those behind it match those behind the first.
fn fits_here(part: Part, byte: u8, all: bool, more: bool, same: bool) -> bool
    ensures { result ≡ fits_here part byte all more same }
{
    match part {
        Part::AnyBytes => all || same,
        Part::OneByte => more,
        Part::This(wanted) => byte == wanted && more,
    }
}
