//! Appends to a list of strings. Each function fails only if there is no memory, or if the bytes to be shared have as
//! many owners as can be counted.
ghost use Rattle.std.specs.Prelude.{◌≡◌, ◌++◌, ◌∷◌, [], OnOk};
ghost use Rattle.std.specs.Fmt.{decimal};
ghost use Rattle.layout.specs.Layout.{IsLawful};
ghost use Rattle.node_strings.specs.Layouts.{layout_string};

use bytes::Bytes;
use itoa::Buffer;
use layout::Layout;
use std::alloc::{AllocError, Global};

/// Appends a word, whose bytes are part of the program.
pub fn push_word(strings: &mut Vec<Bytes>, word: &'static [u8]) -> Result<(), AllocError>
    ensures { OnOk result (strings.new.items ≡ strings.old.items ++ word.now ∷ []) }
{
    strings.push(Bytes::from_static(word))?;
    Ok(())
}

/// Appends a copy of these bytes.
pub fn push_bytes(alloc: Global, strings: &mut Vec<Bytes>, bytes: &[u8]) -> Result<(), AllocError>
    ensures { OnOk result (strings.new.items ≡ strings.old.items ++ bytes.now ∷ []) }
{
    strings.push(Bytes::copy_from_slice(alloc, bytes)?)?;
    Ok(())
}

/// Appends these bytes without a copy: they get one more owner.
pub fn push_shared(strings: &mut Vec<Bytes>, bytes: &Bytes) -> Result<(), AllocError>
    ensures { OnOk result (strings.new.items ≡ strings.old.items ++ bytes.now ∷ []) }
{
    strings.push(bytes.clone()?)?;
    Ok(())
}

/// Appends a number in decimal digits.
pub fn push_number(alloc: Global, strings: &mut Vec<Bytes>, number: u64) -> Result<(), AllocError>
    ensures { OnOk result (strings.new.items ≡ strings.old.items ++ decimal number ∷ []) }
{
    let mut buffer = Buffer::new();
    push_bytes(alloc, strings, buffer.format(number).as_bytes())
}

/// Appends a layout as one string: a byte for k, and then one for each member.
pub fn push_layout(
    alloc: Global,
    strings: &mut Vec<Bytes>,
    layout: &Layout,
) -> Result<(), AllocError>
    ensures pushed { OnOk result (strings.new.items ≡ strings.old.items ++ layout_string layout.now ∷ []) }
    ensures lawful { OnOk result (IsLawful layout.now) }
{
    let mut bytes = Vec::new(alloc);
    bytes.push(layout.k())?;
    for i in 0..layout.n() {
        bytes.push(layout.member(i))?;
    }
    strings.push(Bytes::from_vec(bytes)?)?;
    Ok(())
}
