//! Read access to a phase.

ghost use Rattle.std.specs.Prelude.{◌≡◌};

use crate::phase::{Phase, Taken};
use bank::Kind;
use tag::Stamp;

impl Phase {
    /// Returns the replies in the order in which they were taken.
    pub fn replies(&self) -> &[Taken]
        ensures { result.now ≡ self.now.replies }
    {
        &self.replies
    }

    /// Returns the phase's number in its call, from 1.
    pub fn number(&self) -> u32
        ensures { result ≡ self.now.number }
    {
        self.ask.number
    }

    /// Returns what each member is asked.
    pub fn kind(&self) -> Kind
        ensures { result ≡ self.now.kind }
    {
        self.ask.kind
    }

    /// Returns the position whose members are asked, from 0.
    pub fn position(&self) -> u32
        ensures { result ≡ self.now.position }
    {
        self.ask.position
    }

    /// Returns the step at which the phase began, and the step at which it got the last reply of a quorum, if it did.
    pub fn steps(&self) -> (Stamp, Option<Stamp>)
        ensures { (result.0 ≡ self.now.start) × (result.1 ≡ self.now.end) }
    {
        (self.start, self.end())
    }

    // The step at which the phase got the last reply of a quorum, if it did.
    fn end(&self) -> Option<Stamp>
        ensures { result ≡ self.now.end }
    {
        if !self.complete() {
            return None;
        }
        match self.replies.last() {
            Some(taken) => Some(taken.step),
            None => None,
        }
    }

    /// Returns how many members the position has.
    pub fn members(&self) -> u8
        ensures { result ≡ self.now.members }
    {
        self.members
    }

    /// Returns how many replies make a quorum.
    pub fn quorum(&self) -> u8
        ensures { result ≡ self.now.quorum }
    {
        self.quorum
    }
}
