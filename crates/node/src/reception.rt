//! What became of a letter that a node handled.

/// What became of a letter that a node handled.
#[derive(Clone, Copy, Debug, PartialEq, Eq)]
pub struct Reception {
    /// Whether the node heeds the letter.
    pub is_heeded: bool,
    /// Whether the letter is a request that the node serves, and to which its closed bank sends no reply.
    pub is_declined: bool,
}

impl Reception {
    /// The node dropped the letter.
    pub(crate) const DROPPED: Reception = Reception {
        is_heeded: false,
        is_declined: false,
    };

    /// The node handled the letter.
    pub(crate) const HANDLED: Reception = Reception {
        is_heeded: true,
        is_declined: false,
    };

    /// The node served the letter, and its closed bank declined it.
    pub(crate) const DECLINED: Reception = Reception {
        is_heeded: true,
        is_declined: true,
    };
}
