//! Where a log ends.
ghost use Rattle.std.specs.Prelude.{◌≡◌};
ghost use Rattle.node_log.specs.Entry.{first_chain};

use node_log::Chain;

/// The end of a log's last entry.
#[derive(Clone, Copy, Debug)]
pub struct LogEnd {
    /// How many bytes the entries have.
    pub length: u64,
    /// The chain behind the last entry, from which the head of the next one goes on.
    pub chain: Chain,
}

impl LogEnd {
    /// The end of a log without entries.
    pub fn new() -> LogEnd
        ensures length { result.length ≡ 0 }
        ensures chain { result.chain.state ≡ first_chain }
    {
        LogEnd {
            length: 0,
            chain: Chain::new(),
        }
    }
}
