//! What holds for every object, whatever steps made it.

ghost use Rattle.std.specs.Prelude.{◌≡◌, ℕ, None};
ghost use Rattle.encoder.specs.Fragment.{fragment};
ghost use Rattle.record.specs.Preconditions.{MayStep};
ghost use Rattle.record.specs.Records.{IsNewId};
ghost use Rattle.soundness.specs.Sound.{IsSound};
ghost use Rattle.record.specs.Steps.{Step};
ghost use Rattle.register.specs.Act.{HasLawfulValues, act_cause, step_of};
ghost use Rattle.register.specs.Kept.{IsWithinLimits};
ghost use Rattle.register.specs.Retiring.{retire_cause};
ghost use Rattle.register.specs.State.{HasNumbersAsIds, next_id};
ghost use Rattle.register.specs.declared.act.Act.{Act};

use crate::register::Register;

impl Register {
    /// A law: the record is sound and within the limits of `tag`, and the id of each call is its number. It changes
    /// nothing and allocates no memory.
    pub fn soundness(&self)
        ensures sound { IsSound fragment self.now.object self.now.last }
        ensures limits { IsWithinLimits self.now.object }
        ensures numbered { HasNumbersAsIds self.now.object }
    {
        // Reading a field makes the invariant of the type known here.
        let _ = &self.positions;
    }

    /// A law: a step that no cause refuses may be made, as `record` defines it. This holds for every act and for
    /// retiring any position, whatever the number of the step. No call has the id that the next one gets (`next`). It
    /// changes nothing and allocates no memory.
    pub fn allowed_steps_may_be_made(&self)
        ensures acts { (act : Act) (now : ℕ) → HasLawfulValues act → act_cause act now self.now.object ≡ None
            → MayStep fragment self.now.object (step_of (next_id self.now.object) act) }
        ensures next { IsNewId self.now.object (next_id self.now.object) }
        ensures retire { (position now : ℕ) → retire_cause now self.now.object position ≡ None
            → MayStep fragment self.now.object Step.Retire }
    {
        // As in `soundness`.
        let _ = &self.positions;
    }
}
