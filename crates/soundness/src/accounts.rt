//! How each step changes the bytes that servers store and the bytes that wait in messages.
ghost use Rattle.std.specs.Prelude.{◌≡◌, ◌+◌, ℕ};
ghost use Rattle.record.specs.Accounts.{freed_by, mailed, mailed_by, stored, stored_by, unmailed_by};
ghost use Rattle.record.specs.Fragments.{Code};
ghost use Rattle.record.specs.Records.{Object};
ghost use Rattle.soundness.specs.Sound.{IsSound};
ghost use Rattle.record.specs.Steps.{Step, stepped};

/// A law: a step that serves a request adds to the bytes that a server stores those of the piece that its bank gains,
/// and subtracts those of the pieces that the bank then drops. Retiring subtracts those of the base's banks. No other
/// step changes them.
pub fn stored_bytes_come_and_go()
    ensures { (fragment : Code) (object : Object) (last now server : ℕ) (step : Step) → IsSound fragment object last
        → stored (stepped fragment step now object) server + freed_by object step now server
        ≡ stored object server + stored_by object step server }
{}

/// A law: the bytes that wait in messages grow by the pieces in the messages that a step posts or copies and in the
/// reply that it makes, and fall by the pieces in the messages that it removes or replaces.
pub fn mailed_bytes_come_and_go()
    ensures { (fragment : Code) (object : Object) (now : ℕ) (step : Step)
        → mailed (stepped fragment step now object) + unmailed_by object step
        ≡ mailed object + mailed_by fragment object step }
{}
