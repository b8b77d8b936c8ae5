//! The cost of a call, as sums over its phases.
ghost use Rattle.std.specs.Prelude.{◌≡◌};
ghost use Rattle.trace.specs.Cost.{cost_of, plus};

use crate::sums;
use register::Register;
use tag::CallId;

/// What calls cost. A sum that does not fit 64 bits is replaced by the greatest number of 64 bits.
#[derive(Clone, Copy, Debug, PartialEq, Eq)]
pub struct Cost {
    /// How many phases were begun.
    pub phases: u64,
    /// How many requests these phases sent: one to each member that a phase asks. Requests that are resent do not
    /// count.
    pub requests: u64,
    /// How many replies these phases took.
    pub replies: u64,
    /// The bytes of the fragments that pre-writes sent: those of the phase's tag that came to the members of its
    /// position, whether a member keeps its fragment or not.
    pub sent: u64,
    /// The bytes of the fragments in the replies that these phases took.
    pub returned: u64,
}

impl Cost {
    /// The cost of no call.
    pub const NONE: Cost = Cost {
        phases: 0,
        requests: 0,
        replies: 0,
        sent: 0,
        returned: 0,
    };

    /// Returns the sum of two costs.
    pub fn plus(self, other: Cost) -> Cost
        ensures { result ≡ plus self other }
    {
        Cost {
            phases: self.phases.saturating_add(other.phases),
            requests: self.requests.saturating_add(other.requests),
            replies: self.replies.saturating_add(other.replies),
            sent: self.sent.saturating_add(other.sent),
            returned: self.returned.saturating_add(other.returned),
        }
    }
}

/// Returns what the call of this number cost so far; `Cost::NONE` if there is no such call.
pub fn cost_of(register: &Register, call: CallId) -> Cost
    ensures { result ≡ cost_of register.now.object call }
{
    Cost {
        phases: register.phase_count(call) as u64,
        requests: sums::requests(register, call),
        replies: sums::replies(register, call),
        sent: sums::sent(register, call),
        returned: sums::returned(register, call),
    }
}
