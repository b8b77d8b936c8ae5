//! The erasure code of `encoder` meets the premise of the record's laws.
ghost use Rattle.encoder.specs.Fragment.{fragment};
ghost use Rattle.record.specs.Fragments.{IsCode};

/// A law: the fragments that `encoder` makes are an erasure code. Any k of them determine a value of known length, and
/// the fragments of the empty value are empty.
pub fn fragments_are_a_code()
    ensures { IsCode fragment }
{}
