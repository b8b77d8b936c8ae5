//! What retiring a position frees, and when it may be done.
ghost use Rattle.std.specs.Prelude.{◌≡◌, ◌<◌, ℕ, suc, Some};
ghost use Rattle.std.specs.List.{AllByRecursion};
ghost use Rattle.record.specs.Accounts.{base_bytes, freed_by, member_sum};
ghost use Rattle.record.specs.Fragments.{Code};
ghost use Rattle.record.specs.Legal.{IsMovedOut};
ghost use Rattle.record.specs.Records.{base_of, layout_at, Object, retired_at};
ghost use Rattle.soundness.specs.Sound.{IsSound};
ghost use Rattle.record.specs.Steps.{Step, stepped};

/// A law: retiring frees the bytes of the base's banks. Summed over all servers, they store less by what these banks
/// stored.
pub fn retiring_frees_the_base()
    ensures { (fragment : Code) (object : Object) (last now servers : ℕ) → IsSound fragment object last
        → AllByRecursion (λ server. server < servers) (layout_at object (base_of object)).members
        → member_sum (λ server. freed_by object Step.Retire now server) 0 servers ≡ base_bytes object }
{}

/// A law: retiring raises the base by one.
pub fn retiring_raises_the_base()
    ensures { (fragment : Code) (object : Object) (last now : ℕ) → last < now → IsSound fragment object last
        → base_of (stepped fragment Step.Retire now object) ≡ suc (base_of object) }
{}

/// A law: each retired position was retired only after the move out of it was answered.
pub fn retired_positions_were_moved_out_of()
    ensures { (fragment : Code) (object : Object) (last position step : ℕ) → IsSound fragment object last
        → retired_at object position ≡ Some step
        → (answered : ℕ) × IsMovedOut object position answered × (answered < step) }
{}
