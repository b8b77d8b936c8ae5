//! Every run of worlds follows a run of the record, and so keeps what the record promises.
ghost use Rattle.network.specs.Followed.{RunsAreFollowed};
ghost use Rattle.network.specs.Laws.{WorldsAreAtomic, WorldsKeepValues};

/// A law: whatever events happen, steps of the record that may be made lead to a sound record, which the world follows.
pub fn runs_are_followed()
    ensures { RunsAreFollowed }
{}

/// A law: the history of each world that is reached is atomic.
pub fn worlds_are_atomic()
    ensures { WorldsAreAtomic }
{}

/// A law: in each world that is reached a tag has one value, that of the write which it names. Every piece in a bank or
/// in a message ever sent is its member's fragment of its tag's value, and each answered read returned the value of a
/// tag.
pub fn worlds_keep_values()
    ensures { WorldsKeepValues }
{}
