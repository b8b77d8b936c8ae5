ghost use Rattle.std.specs.Prelude.{◌≡◌, ℕ, ◌+◌, ◌<◌, ◌^◌, IsSome, IsTrue};
ghost use Rattle.tag.specs.declared.tag.Tag.{Tag};
ghost use Rattle.record.specs.declared.stage.Stage.TheVariants.{ReadBegin, ReadNext, AgainNext};
ghost use Rattle.record.specs.PhaseOrder.{begun_at, due, after_next, after_spread, after_again};
ghost use Rattle.call.specs.Reading.{is_next, is_spread, position_of, finalized_of, spread_status, last_of};
ghost use Rattle.call.specs.Reading.{next_phase_of, found_by, spread_by, first_of, again_of};

use bank::{Kind, Status};

/// A reading of the sequence of layouts, from a position to the last one.
///
/// The clauses `first` describe it as a call's first reading. The clauses `again` describe it as a later one, which
/// began at the position `last` with the tag `tag`.
#[derive(Clone, Copy, Debug, PartialEq, Eq)]
pub enum Reading {
    /// The pointers of this position are asked for. `finalized` is the last position known to be finalized.
    Next {
        position: u32,
        finalized: u32,
    },
    /// The status that was found at this position is spread there. Then the reading goes on at the next position.
    Spread {
        position: u32,
        finalized: u32,
        status: Status,
    },
    /// A quorum of the position `last` showed no pointer.
    Ended {
        last: u32,
        finalized: u32,
    },
}

impl Reading {
    /// Returns a reading that begins at a position, from 0.
    pub fn start(position: u32) -> Reading
        ensures first { first_of result ≡ ReadNext position position }
        ensures begun { first_of result ≡ begun_at ReadBegin position }
        ensures again { (tag : Tag) → again_of position tag result ≡ AgainNext position position tag }
    {
        Reading::Next {
            position,
            finalized: position,
        }
    }

    /// Returns the reading after a quorum replied to Next, where `status` is the greatest status that the replies show.
    pub fn found(self, status: Status) -> Reading
        requires { IsTrue (is_next self) }
        ensures value { result ≡ found_by self status }
        ensures first { first_of result ≡ after_next status (position_of self) (finalized_of self) }
        ensures again { (last : ℕ) (tag : Tag)
            → again_of last tag result ≡ after_again status last (position_of self) tag }
    {
        let Reading::Next {
            position,
            finalized,
        } = self
        else {
            return self;
        };
        match status {
            Status::Unset => Reading::Ended {
                last: position,
                finalized,
            },
            Status::Pending | Status::Final => Reading::Spread {
                position,
                finalized,
                status,
            },
        }
    }

    /// Returns the reading after the status that it found is spread to a quorum.
    pub fn spread(self) -> Reading
        requires due { IsTrue (is_spread self) }
        requires room { position_of self + 1 < 2 ^ 32 }
        ensures value { result ≡ spread_by self }
        ensures first { first_of result ≡ after_spread (spread_status self) (position_of self) (finalized_of self) }
        ensures again { (last : ℕ) (tag : Tag)
            → again_of last tag result ≡ AgainNext last (position_of self + 1) tag }
    {
        let Reading::Spread {
            position,
            finalized,
            status,
        } = self
        else {
            return self;
        };
        let position = position + 1;
        Reading::Next {
            position,
            finalized: if status == Status::Final {
                position
            } else {
                finalized
            },
        }
    }

    /// Returns the phase that is next, with its position, or none if the reading has ended.
    pub fn next_phase(self) -> Option<(Kind, u32)>
        ensures value { result ≡ next_phase_of self }
        ensures first { IsSome result → result ≡ due (first_of self) }
        ensures again { IsSome result → (last : ℕ) (tag : Tag) → result ≡ due (again_of last tag self) }
    {
        match self {
            Reading::Next { position, .. } => Some((Kind::Next, position)),
            Reading::Spread {
                position,
                status,
                ..
            } => Some((Kind::Spread(status), position)),
            Reading::Ended { .. } => None,
        }
    }

    /// Returns the last position known to be finalized: the greatest whose predecessor showed Final, or else the
    /// position where the reading began.
    pub fn last_final(self) -> u32
        ensures { result ≡ finalized_of self }
    {
        match self {
            Reading::Next { finalized, .. }
            | Reading::Spread { finalized, .. }
            | Reading::Ended { finalized, .. } => finalized,
        }
    }

    /// Returns the last position, or none while the reading has not ended.
    pub fn last(self) -> Option<u32>
        ensures { result ≡ last_of self }
    {
        match self {
            Reading::Ended { last, .. } => Some(last),
            Reading::Next { .. } | Reading::Spread { .. } => None,
        }
    }
}
