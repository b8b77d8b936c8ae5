//! Runs of the record of one object, proved as theorems.
ghost use Rattle.std.specs.Prelude.{◌≡◌, ◌++◌, None, Some};
ghost use Rattle.atomicity.specs.Atomic.{IsAtomic};
ghost use Rattle.example_tests.specs.RecordExamples.{move_entries, move_script, one_member};
ghost use Rattle.example_tests.specs.RecordExamples.{anew_entries, anew_script, IsMetExactly, lacking_script};
ghost use Rattle.example_tests.specs.RecordExamples.{retire_entries, retire_script};
ghost use Rattle.example_tests.specs.RecordExamples.{script, script_entries, stale_entries, whole};
ghost use Rattle.record.specs.Journals.{entries};
ghost use Rattle.record.specs.Preconditions.{MayRun};
ghost use Rattle.record.specs.Steps.{opened_object, run};

/// Example: a whole write and a whole read with one member. Each step may be made, and the calls have the
/// steps 3 to 18 and 19 to 32.
pub fn a_write_and_a_read()
    ensures may { MayRun whole script 3 (opened_object one_member None 2) }
    ensures gives { entries (run whole script 3 (opened_object one_member None 2)) ≡ script_entries }
{}

/// Example: a write, a move to another server, and a read that finds the value there.
pub fn a_write_a_move_and_a_read()
    ensures may { MayRun whole move_script 3 (opened_object one_member None 2) }
    ensures gives { entries (run whole move_script 3 (opened_object one_member None 2)) ≡ move_entries }
{}

/// Example: with `delta` 0, a write comes between the queries and the fetch of a read. The fetch lacks pieces,
/// and the read restarts. Each step may be made, and the calls have the steps 3 to 41 and 9 to 24.
pub fn a_read_that_begins_anew()
    ensures may { MayRun whole (lacking_script ++ anew_script) 3 (opened_object one_member (Some 0) 2) }
    ensures gives { entries (run whole (lacking_script ++ anew_script) 3 (opened_object one_member (Some 0) 2))
        ≡ anew_entries }
{}

/// Example: in the run of `a_read_that_begins_anew`, exactly `delta` + 1 writes overlap the read when its
/// fetch lacks pieces. So the bound of `lacking_fetches_are_overlapped` is met exactly.
pub fn the_bound_is_met_exactly()
    ensures { IsMetExactly (run whole lacking_script 3 (opened_object one_member (Some 0) 2)) }
{}

/// Example: after a write and a move to another server the first position is retired, and then a read begins
/// at the second. The read asks for no pointer of the first position.
pub fn a_read_from_the_base()
    ensures may { MayRun whole retire_script 3 (opened_object one_member None 2) }
    ensures gives { entries (run whole retire_script 3 (opened_object one_member None 2)) ≡ retire_entries }
{}

/// Example: a history in which a read misses a write that was answered before the read was called is not atomic.
pub fn a_stale_read_is_not_atomic()
    ensures { ¬ (IsAtomic stale_entries) }
{}
