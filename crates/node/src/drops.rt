//! How many frames a node dropped, by cause.
ghost use Rattle.std.specs.Prelude.{◌≡◌};
ghost use Rattle.node.specs.Peers.{with_letter, with_malformed, with_not_admitted, with_unreadable};

/// Frames that a node dropped since its start, by cause, except those of nodes with another cluster file, which `Peers`
/// counts. A count stops at 2^64 - 1.
#[derive(Clone, Copy, Debug, PartialEq, Eq)]
pub struct Drops {
    /// Frames that come neither from a client nor from a node, and are no tick: no host sends any.
    pub malformed: u64,
    /// Frames of nodes that are no message, such as messages of another form.
    pub unreadable: u64,
    /// Messages with the same digest as the node's own cluster file that come from no node of this file, or have a tag
    /// above the limit.
    pub not_admitted: u64,
    /// Messages that are admitted, but whose letter the node does not heed: it names no member, contradicts what the
    /// node knows of layouts, or has a layout of which the node that moves objects has not heard.
    pub not_heeded: u64,
}

impl Drops {
    pub(crate) const ZERO: Drops = Drops {
        malformed: 0,
        unreadable: 0,
        not_admitted: 0,
        not_heeded: 0,
    };

    /// A frame came that no host sends.
    pub(crate) fn count_malformed(&mut self)
        ensures { self.new ≡ with_malformed self.old }
    {
        self.malformed = self.malformed.saturating_add(1);
    }

    /// A frame of a node came that is no message.
    pub(crate) fn count_unreadable(&mut self)
        ensures { self.new ≡ with_unreadable self.old }
    {
        self.unreadable = self.unreadable.saturating_add(1);
    }

    /// A message came that is not admitted.
    pub(crate) fn count_not_admitted(&mut self)
        ensures { self.new ≡ with_not_admitted self.old }
    {
        self.not_admitted = self.not_admitted.saturating_add(1);
    }

    /// A message came that is admitted. It is dropped, and counts, unless the node heeds its letter.
    pub(crate) fn count_letter(&mut self, heeded: bool)
        ensures { self.new ≡ with_letter heeded self.old }
    {
        if !heeded {
            self.not_heeded = self.not_heeded.saturating_add(1);
        }
    }
}
