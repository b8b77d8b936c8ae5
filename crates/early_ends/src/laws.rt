//! Answers that may be told leave the history atomic, and told reads return the journal's values.
ghost use Rattle.std.specs.Prelude.{◌≡◌, ℕ, List, Some};
ghost use Rattle.std.specs.List.{AllByRecursion};
ghost use Rattle.atomicity.specs.Atomic.{IsAtomic};
ghost use Rattle.early_ends.specs.Told.{IsTold, Told, told_entries};
ghost use Rattle.record.specs.declared.call.CallKind.TheVariants.{Read};
ghost use Rattle.record.specs.Fragments.{Code, IsCode};
ghost use Rattle.record.specs.Journals.{IsJournaled};
ghost use Rattle.record.specs.Records.{Object};
ghost use Rattle.soundness.specs.Sound.{IsSound};

/// A law: if a record is sound, and each of these answers may be told, the history with these answers is atomic.
pub fn told_answers_are_atomic()
    ensures { (fragment : Code) (object : Object) (last : ℕ) (told : List Told) → IsCode fragment
        → IsSound fragment object last → AllByRecursion (IsTold fragment object) told
        → IsAtomic (told_entries object told) }
{}

/// A law: if a record is sound, each read whose answer may be told returned the journal's value of the tag that is
/// held. The journal maps each tag to the value that was written with it.
pub fn told_reads_return_journaled_values()
    ensures { (fragment : Code) (object : Object) (last : ℕ) (answer : Told) (may : IsTold fragment object answer)
        → IsCode fragment → IsSound fragment object last → may.call.kind ≡ Read
        → (value : List ℕ) × (answer.value ≡ Some value) × IsJournaled object may.tag value }
{}
