//! The checksum that goes on from one head of a log to the next.
ghost use Rattle.std.specs.Prelude.{◌≡◌};
ghost use Rattle.node_log.specs.Entry.{chain_after, digest_behind, first_chain};

use crate::entry::Entry;
use crate::states::after_bytes;

/// The state of a log's checksum behind some of its entries: after what the heads of all these entries say of their
/// bodies. The head of the next entry has the checksum that goes on from here. So an entry is read only behind the
/// entries behind which it was written.
#[derive(Clone, Copy, Debug, PartialEq, Eq)]
pub struct Chain {
    /// The state of the CRC-32C.
    pub state: u32,
}

impl Chain {
    /// The chain at the beginning of a log.
    pub fn new() -> Chain
        ensures { result.state ≡ first_chain }
    {
        Chain { state: u32::MAX }
    }

    /// Goes on behind an entry.
    pub fn pass(&mut self, entry: &Entry)
        ensures { self.new.state ≡ chain_after self.old.state entry.now }
    {
        self.state = after_bytes(self.state, entry.says());
    }

    /// The digest of bytes that goes on from here, high byte first.
    pub(crate) fn digest_behind(self, bytes: &[u8]) -> [u8; 4]
        ensures { result ≡ digest_behind self.state bytes.now }
    {
        (after_bytes(self.state, bytes) ^ u32::MAX).to_be_bytes()
    }
}
