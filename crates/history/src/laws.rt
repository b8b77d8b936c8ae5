//! Laws about the entries of a sound record: they are lawful, and the order that the tags define is a sequence of them.
ghost use Rattle.std.specs.Prelude.{◌≡◌, ℕ, suc, List, Some, slice_get};
ghost use Rattle.atomicity.specs.Atomic.{IsSequence};
ghost use Rattle.record.specs.Fragments.{Code, IsCode};
ghost use Rattle.record.specs.Journals.{entries};
ghost use Rattle.record.specs.Records.{Call, Object};
ghost use Rattle.atomicity.specs.Sequence.{IsTagOrder};
ghost use Rattle.soundness.specs.Sound.{IsSound};
ghost use Rattle.record.specs.declared.call.TaggedCall.{TaggedCall as Tagged};
ghost use Rattle.history.specs.CallOrder.{AreCallsOf, AreInCallOrder};
ghost use Rattle.history.specs.Check.{AreLawfulEntries};

/// A law: the calls of a sound record are in the order of their numbers and of their steps, as `order_by_tags`
/// requires.
pub fn calls_are_in_turn()
    ensures { (fragment : Code) (object : Object) (last : ℕ) (calls : List Tagged) → IsSound fragment object last
        → AreCallsOf object calls → AreInCallOrder calls }
{}

/// A law: the entries of a sound record are lawful, as `check` demands, if the id of each call is its number.
pub fn entries_are_lawful()
    ensures { (fragment : Code) (object : Object) (last : ℕ) → IsCode fragment → IsSound fragment object last
        → ((index : ℕ) (call : Call) → slice_get object.calls index ≡ Some call → call.id ≡ suc index)
        → AreLawfulEntries (entries object) }
{}

/// A law: the order that the tags define for the calls of a sound record is a sequence of its entries, so `check`
/// accepts it.
pub fn tag_orders_are_sequences()
    ensures { (fragment : Code) (object : Object) (last : ℕ) (calls : List Tagged) (order : List ℕ)
        → IsCode fragment → IsSound fragment object last → AreCallsOf object calls → IsTagOrder calls order
        → IsSequence (entries object) order }
{}
