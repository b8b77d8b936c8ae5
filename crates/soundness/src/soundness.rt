//! Every step that may be made keeps a record sound.
ghost use Rattle.std.specs.Prelude.{◌≡◌, ◌<◌, ◌≤◌, ◌+◌, ◌⊎◌};
ghost use Rattle.std.specs.Prelude.{ℕ, suc, true, List, length, Option, Some, IsSome, slice_get};
ghost use Rattle.tag.specs.declared.tag.Tag.{Tag};
ghost use Rattle.layout.specs.Layout.{IsLawful, Layout};
ghost use Rattle.bank.specs.Bank.{knows};
ghost use Rattle.bank.specs.declared.kind.Kind.{Kind};
ghost use Rattle.bank.specs.declared.kind.Kind.TheVariants.{PreWrite};
ghost use Rattle.record.specs.Fragments.{Code, IsCode};
ghost use Rattle.record.specs.Legal.{due_of};
ghost use Rattle.record.specs.Preconditions.{AwaitsPieces, MayRun, MayStep, WantsPieces};
ghost use Rattle.record.specs.Records.{bank_at, Call, layout_at, Object};
ghost use Rattle.soundness.specs.Sound.{IsSound};
ghost use Rattle.record.specs.Steps.{opened_object, run, Step, stepped};
ghost use Rattle.record.specs.Sending.{sent_value};
ghost use Rattle.record.specs.Wants.{want_of};
ghost use Rattle.record.specs.declared.stage.Want.TheVariants as wants;

/// A law: an object that was just opened is sound.
pub fn opened_objects_are_sound()
    ensures { (fragment : Code) (layout : Layout) (delta : Option ℕ) (now : ℕ) → IsCode fragment
        → IsLawful layout → IsSound fragment (opened_object layout delta now) now }
{}

/// A law: every step that may be made keeps a record sound.
pub fn steps_keep_soundness()
    ensures { (fragment : Code) (object : Object) (last now : ℕ) (step : Step) → IsCode fragment → last < now
        → IsSound fragment object last → MayStep fragment object step
        → IsSound fragment (stepped fragment step now object) now }
{}

/// A law: every list of steps that may be made, one after another, keeps a record sound.
pub fn runs_keep_soundness()
    ensures { (fragment : Code) (object : Object) (last : ℕ) (steps : List Step) → IsCode fragment
        → IsSound fragment object last → MayRun fragment steps (suc last) object
        → IsSound fragment (run fragment steps (suc last) object) (last + length steps) }
{}

/// A law: an object that began with a lawful layout is sound after any list of steps that may be made.
pub fn runs_are_sound()
    ensures { (fragment : Code) (layout : Layout) (delta : Option ℕ) (start : ℕ) (steps : List Step)
        → IsCode fragment → IsLawful layout → MayRun fragment steps (suc start) (opened_object layout delta start)
        → IsSound fragment (run fragment steps (suc start) (opened_object layout delta start))
        (start + length steps) }
{}

/// A law: in a sound record the number of each tag that a bank knows is at most the number of the last step.
pub fn tags_are_past()
    ensures { (fragment : Code) (object : Object) (last position member : ℕ) (tag : Tag)
        → IsSound fragment object last → knows (bank_at object position member) tag ≡ true
        → tag.number ≤ last }
{}

/// A law: in a sound record a call that wants the pieces of its value, or sends them, has the value.
pub fn sent_values_are_there()
    ensures { (fragment : Code) (object : Object) (last index : ℕ) (call : Call)
        → IsSound fragment object last → slice_get object.calls index ≡ Some call
        → WantsPieces object index call ⊎ AwaitsPieces object index call
        → IsSome (sent_value call.kind call.settled) }
{}

/// A law: the pieces that a call wants are for the k and the n of the layout of the position where they are due.
pub fn wanted_pieces_fit_the_layout()
    ensures { (object : Object) (index k n : ℕ) (call : Call) → want_of object index call ≡ wants.Supply k n
        → (tag : Tag) × (position : ℕ) × (due_of object index call ≡ Some (PreWrite tag, position))
        × (k ≡ (layout_at object position).k) × (n ≡ length (layout_at object position).members) }
{}

/// A law: in a sound record each phase that is due is due at a position that exists.
pub fn due_positions_are_there()
    ensures { (fragment : Code) (object : Object) (last index position : ℕ) (call : Call) (kind : Kind)
        → IsSound fragment object last → slice_get object.calls index ≡ Some call
        → due_of object index call ≡ Some (kind, position) → position < length object.layouts }
{}
