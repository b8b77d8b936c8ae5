//! The lanes of calls.
ghost use Rattle.std.specs.Prelude.{◌≡◌};
ghost use Rattle.exports.specs.Lane.{bar_top_of, baseline_of};

use crate::px::Px;
use record::Entry;

/// How far below the upper edge of the lane the baseline of its texts is.
pub(crate) const BASELINE: u64 = 120;

/// How far below the upper edge of the lane the mark begins with which the bar begins.
pub(crate) const BAR_TOP: u64 = 30;

/// How far below the upper edge of the lane the lower edge of the bar is.
const FOOT: u64 = 140;

/// The lane of a call.
#[derive(Drop)]
pub struct Lane {
    /// The entry of the call.
    pub entry: Entry,
    /// The upper edge of the lane.
    pub(crate) top: u64,
}

impl Lane {
    /// Returns the baseline of the texts in the lane.
    pub(crate) fn base(&self) -> Px
        ensures { result.0 ≡ baseline_of self.now }
    {
        Px(self.top).plus(BASELINE)
    }

    /// Returns the upper end of the mark with which the bar begins.
    pub(crate) fn bar_top(&self) -> Px
        ensures { result.0 ≡ bar_top_of self.now }
    {
        Px(self.top).plus(BAR_TOP)
    }

    /// Returns the lower edge of the bar.
    pub(crate) fn foot(&self) -> Px {
        Px(self.top).plus(FOOT)
    }
}
