//! Which pieces are kept if banks drop those of old versions, and when a read lacks pieces because of it.
ghost use Rattle.std.specs.Prelude.{◌≡◌, ◌<◌, ◌≤◌, ◌+◌, ◌↔◌, ◌⊎◌};
ghost use Rattle.std.specs.Prelude.{ℕ, false, length, Option, Some, slice_get};
ghost use Rattle.tag.specs.declared.tag.Tag.{Tag};
ghost use Rattle.bank.specs.Collect.{final_pieces};
ghost use Rattle.mail.specs.Phase.{lacks_pieces, Phase};
ghost use Rattle.record.specs.Fragments.{Code, HasDropped, HasEnough, IsFetch};
ghost use Rattle.atomicity.specs.Lacking.{IsLackingFetch, IsOverlapped};
ghost use Rattle.record.specs.Records.{bank_at, Call, IsRetiredBy, layout_at, Object};
ghost use Rattle.soundness.specs.Sound.{IsSound};

/// A law: in a sound record each bank of an object with `delta` keeps pieces of at most `delta` + 1 finalized tags.
pub fn few_pieces_are_kept()
    ensures { (fragment : Code) (object : Object) (last position member delta : ℕ) → IsSound fragment object last
        → position < length object.layouts → member < length (layout_at object position).members
        → object.delta ≡ Some delta → final_pieces (bank_at object position member) ≤ delta + 1 }
{}

/// A law: in a sound record each complete fetch has pieces of at least k distinct members, or one of its replies was
/// made by a member that had dropped the pieces of the tag.
pub fn complete_fetches_have_enough()
    ensures { (fragment : Code) (object : Object) (last index place end : ℕ) (call : Call) (phase : Phase)
        → IsSound fragment object last → slice_get object.calls index ≡ Some call
        → slice_get call.phases place ≡ Some phase → (fetch : IsFetch phase.kind) → phase.end ≡ Some end
        → HasEnough object phase ⊎ HasDropped object phase fetch.0 }
{}

/// A law: in a sound record a phase has pieces of at least k distinct members exactly if it does not lack pieces.
pub fn lacking_is_to_have_too_few()
    ensures { (fragment : Code) (object : Object) (last index place : ℕ) (call : Call) (phase : Phase)
        → IsSound fragment object last → slice_get object.calls index ≡ Some call
        → slice_get call.phases place ≡ Some phase → (lacks_pieces phase ≡ false) ↔ HasEnough object phase }
{}

/// A law: in a sound record a read's complete fetch lacks pieces only in two cases. Either its position was retired by
/// the end of the fetch, or the object has `delta` and at least `delta` + 1 writes with greater tags were called before
/// that end and not answered before the read last began or restarted.
pub fn lacking_fetches_are_overlapped()
    ensures { (fragment : Code) (object : Object) (last index place end : ℕ) (call : Call) (phase : Phase) (tag : Tag)
        → IsSound fragment object last → IsLackingFetch object index place call phase tag end
        → IsRetiredBy object phase.position end ⊎ IsOverlapped object call place tag end }
{}
