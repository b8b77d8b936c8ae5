//! A sound record is atomic, and so is every run.
ghost use Rattle.std.specs.Prelude.{◌≡◌, ℕ, suc, List, Option, Some, slice_get};
ghost use Rattle.tag.specs.declared.tag.Tag.{Tag};
ghost use Rattle.layout.specs.Layout.{IsLawful, Layout};
ghost use Rattle.atomicity.specs.Atomic.{IsAtomic, IsSequence};
ghost use Rattle.record.specs.Fragments.{Code, IsCode, IsSettled};
ghost use Rattle.record.specs.Journals.{entries, IsJournaled, ReadsJournaled};
ghost use Rattle.record.specs.Preconditions.{MayRun};
ghost use Rattle.record.specs.Records.{Call, Object};
ghost use Rattle.atomicity.specs.Sequence.{IsTagSequence};
ghost use Rattle.soundness.specs.Sound.{IsSound};
ghost use Rattle.record.specs.Steps.{opened_object, run, Step};

/// A law: the entries of a sound record are atomic. The answered reads and writes, with some unanswered writes, follow
/// one register in an order that keeps answer before call.
pub fn sound_records_are_atomic()
    ensures { (fragment : Code) (object : Object) (last : ℕ) → IsCode fragment → IsSound fragment object last
        → IsAtomic (entries object) }
{}

/// A law: every list of steps that may be made, with any number of moves, leaves an atomic history.
pub fn runs_are_atomic()
    ensures { (fragment : Code) (layout : Layout) (delta : Option ℕ) (start : ℕ) (steps : List Step)
        → IsCode fragment → IsLawful layout → MayRun fragment steps (suc start) (opened_object layout delta start)
        → IsAtomic (entries (run fragment steps (suc start) (opened_object layout delta start))) }
{}

/// A law: the list that the tags define is a sequence of the entries. It has the answered reads and writes, and those
/// unanswered writes whose tag an answered read has. It is ordered by tag, then writes before reads, then by the step
/// of the call.
pub fn tag_sequences_are_sequences()
    ensures { (fragment : Code) (object : Object) (last : ℕ) (order : List ℕ) → IsCode fragment
        → IsSound fragment object last → IsTagSequence object order → IsSequence (entries object) order }
{}

/// A law: each answered read of a sound record returns the journal's value of its tag. The journal maps each tag to the
/// value that was written with it.
pub fn reads_return_journaled_values()
    ensures { (fragment : Code) (object : Object) (last : ℕ) → IsCode fragment → IsSound fragment object last
        → ReadsJournaled object }
{}

/// A law: the value that a call of a sound record has settled is the journal's value of the tag that the call fetched.
pub fn settled_values_are_journaled()
    ensures { (fragment : Code) (object : Object) (last index : ℕ) (call : Call) (value : List ℕ)
        → IsCode fragment → IsSound fragment object last
        → slice_get object.calls index ≡ Some call → call.settled ≡ Some value
        → (settled : IsSettled fragment object call value) × IsJournaled object settled.fetch.0 value }
{}

/// A law: the journal of a sound record has at most one value for a tag.
pub fn journaled_values_are_unique()
    ensures { (fragment : Code) (object : Object) (last : ℕ) (tag : Tag) (v w : List ℕ)
        → IsSound fragment object last → IsJournaled object tag v → IsJournaled object tag w → v ≡ w }
{}
