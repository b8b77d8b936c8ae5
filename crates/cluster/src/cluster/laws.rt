//! What holds for every cluster, whatever steps made it.

ghost use Rattle.std.specs.Prelude.{◌≡◌, ℕ, List, None};
ghost use Rattle.std.specs.List.{AllByRecursion};
ghost use Rattle.layout.specs.Layout.{IsLawful};
ghost use Rattle.record.specs.Steps.{Step};
ghost use Rattle.register.specs.Act.{HasLawfulValues, act_cause, step_of};
ghost use Rattle.register.specs.Retiring.{retire_cause};
ghost use Rattle.register.specs.declared.act.Act.{Act};
ghost use Rattle.cluster.specs.Accounts.{banks_all, calls};
ghost use Rattle.cluster.specs.Atomic.{AreAtomic, AreFragments, AreJournaled, AreSound, AreSums, AreWithinLimits};
ghost use Rattle.cluster.specs.Atomic.{CarryJournaled, HaveEnough, HaveOneValue, KeepFew, LackWhereOvertaken};
ghost use Rattle.cluster.specs.Causes.{moving_cause, next, object_cause, serving_cause};
ghost use Rattle.cluster.specs.Cluster.{next_call_id, layout_numbered};
ghost use Rattle.cluster.specs.Kept.{IsKeptCluster};
ghost use Rattle.cluster.specs.Preconditions.{MayMake};

use crate::cluster::{Accounts, Cluster};
use atomicity::{
    complete_fetches_have_enough, few_pieces_are_kept, journaled_values_are_unique,
    lacking_fetches_are_overlapped, reads_return_journaled_values, sound_records_are_atomic,
};
use layout::Layout;
use register::fragments_are_a_code;
use soundness::sent_tags_are_journaled;

impl Cluster {
    /// A law: what holds for every cluster. It changes nothing and allocates no memory. The clauses say:
    ///
    /// - `atomic`: each object's answered reads and writes, with some unanswered writes, follow one register in an
    ///   order that keeps answer before call.
    /// - `fragments`: each piece in a bank or a message is its member's fragment of the value that the object's journal
    ///   has for its tag.
    /// - `enough`: a complete fetch has pieces of at least k members, or one of its replies was made by a bank that had
    ///   dropped its own.
    /// - `few`: a bank of an object with `delta` keeps at most `delta` + 1 pieces of finalized tags.
    /// - `overtaken`: a read's fetch lacks pieces only if its position was retired, or if at least `delta` + 1 newer
    ///   writes overlap the read.
    /// - `phases`: each tag that a phase carries, in a pre-write, a finalize or a fetch, is in the object's journal,
    ///   even if no reply has come yet.
    /// - `reads`, `journal`: an answered read returns the journal's value of its tag, and the journal has one value for
    ///   each tag.
    /// - `accounts`: the accounts that are returned are the exact sums of the pieces' bytes.
    pub fn atomic(&self) -> Accounts
        ensures atomic { AreAtomic self.now }
        ensures fragments { AreFragments self.now }
        ensures enough { HaveEnough self.now }
        ensures few { KeepFew self.now }
        ensures overtaken { LackWhereOvertaken self.now }
        ensures phases { CarryJournaled self.now }
        ensures reads { AreJournaled self.now }
        ensures journal { HaveOneValue self.now }
        ensures accounts { AreSums self.now result }
    {
        let told = self.accounts();
        fragments_are_a_code();
        sound_records_are_atomic();
        complete_fetches_have_enough();
        few_pieces_are_kept();
        lacking_fetches_are_overlapped();
        sent_tags_are_journaled();
        reads_return_journaled_values();
        journaled_values_are_unique();
        self.soundness();
        told
    }

    /// A law: the record of each object is sound and within the limits, and none of its steps is later than the
    /// counter. It changes nothing and allocates no memory.
    pub fn soundness(&self)
        ensures sound { AreSound self.now }
        ensures limits { AreWithinLimits self.now }
        ensures kept { IsKeptCluster self.now (banks_all self.now.objects) (calls self.now.objects) }
    {
        for register in self.objects.values() {
            register.soundness();
        }
    }

    /// A law: a step of an object that no cause refuses may be made, as `record` defines it. It changes nothing and
    /// allocates no memory. The causes are those in the contracts of the methods.
    ///
    /// - `moves`, `serves` and `retires` are about `call_move`, `serve` and `retire`.
    /// - `acts` is about every other method that makes a step of an object.
    pub fn allowed_steps_may_be_made(&self)
        ensures acts { (name : List ℕ) (act : Act) → HasLawfulValues act
            → object_cause self.now name (act_cause act (next self.now)) ≡ None
            → MayMake self.now name (step_of (next_call_id self.now name) act) }

        ensures moves { (name : List ℕ) (id : ℕ) → object_cause self.now name (moving_cause self.now id) ≡ None
            → MayMake self.now name (Step.CallMove (next_call_id self.now name) (layout_numbered self.now id)) }

        ensures serves { (name : List ℕ) (place : ℕ) → object_cause self.now name (serving_cause self.now place) ≡ None
            → MayMake self.now name (Step.Serve place) }

        ensures retires { (name : List ℕ) (position : ℕ)
            → object_cause self.now name (λ object. retire_cause (next self.now) object position) ≡ None
            → MayMake self.now name Step.Retire }
    {
        are_lawful(&self.layouts);
        for register in self.objects.values() {
            register.allowed_steps_may_be_made();
        }
    }
}

// A law: the layouts are lawful.
fn are_lawful(layouts: &[Layout])
    ensures { AllByRecursion IsLawful layouts.now }
{
    for layout in layouts {
        layout.k();
    }
}
