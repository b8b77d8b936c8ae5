//! Where the tags and labels of a sound record come from.
ghost use Rattle.std.specs.Prelude.{◌≡◌, ◌<◌, ℕ, List, Some, slice_get};
ghost use Rattle.tag.specs.declared.tag.Tag.{Tag};
ghost use Rattle.bank.specs.declared.row.Label.{Label};
ghost use Rattle.mail.specs.Phase.{Phase};
ghost use Rattle.record.specs.Fragments.{Code, kind_tag};
ghost use Rattle.record.specs.Journals.{IsJournaled};
ghost use Rattle.soundness.specs.Origins.{ComesWithIts};
ghost use Rattle.record.specs.Records.{Call, Object};
ghost use Rattle.soundness.specs.Sound.{IsSound};
ghost use Rattle.record.specs.Steps.{Step};

/// A law: in a sound record each tag that a phase names (in a pre-write, a finalize or a fetch) is in the journal, from
/// the step at which the phase begins. This does not depend on the phase's replies.
pub fn sent_tags_are_journaled()
    ensures { (fragment : Code) (object : Object) (last index place : ℕ) (call : Call) (phase : Phase) (tag : Tag)
        → IsSound fragment object last → slice_get object.calls index ≡ Some call
        → slice_get call.phases place ≡ Some phase → kind_tag phase.kind ≡ Some tag
        → (value : List ℕ) × IsJournaled object tag value }
{}

/// A law: if a tag has a label at a bank after a step, it had the label before, or got it by this step, whose number
/// the label then carries. In the second case the step serves a request for the tag, of a phase that began before the
/// step, or a move opens the bank with the opening tag.
pub fn labels_come_with_their_requests()
    ensures { (fragment : Code) (object : Object) (last now position member : ℕ) (step : Step) (tag : Tag)
        (label : Label) → last < now → IsSound fragment object last
        → ComesWithIts fragment object step now position member tag label }
{}
