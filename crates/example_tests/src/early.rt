//! An answer that is told too early, proved as a theorem.
ghost use Rattle.std.specs.Prelude.{◌≡◌, [], ◌∷◌};
ghost use Rattle.atomicity.specs.Atomic.{IsAtomic};
ghost use Rattle.early_ends.specs.Told.{told_entries};
ghost use Rattle.record.specs.Preconditions.{MayRun};
ghost use Rattle.record.specs.Steps.{run};
ghost use Rattle.soundness.specs.Sound.{IsSound};
ghost use Rattle.example_tests.specs.EarlyEnd.{early_answer, IsHeldByQuorum, losing_script, lost_entries};
ghost use Rattle.example_tests.specs.EarlyEnd.{lost_tag, three_opened};
ghost use Rattle.example_tests.specs.RecordExamples.{whole};

/// Example: that a quorum held a tag is not enough to answer a write. With three members, any two of which are a
/// quorum, the members 0 and 1 finalized the write's tag when their pointers were unset, but at different steps. A move
/// came between, and a read that is called after the answer misses the write. So `IsHeld` asks for more than n - k
/// members, here for all three.
pub fn a_quorum_is_not_enough()
    ensures may { MayRun whole losing_script 3 three_opened }
    ensures sound { IsSound whole (run whole losing_script 3 three_opened) 84 }
    ensures held { IsHeldByQuorum (run whole losing_script 3 three_opened) early_answer lost_tag }
    ensures gives { told_entries (run whole losing_script 3 three_opened) (early_answer ∷ []) ≡ lost_entries }
    ensures not_atomic { IsAtomic lost_entries → ⊥ }
{}
