//! A node that another program embeds, and what it does with frames.
ghost use Rattle.std.specs.Prelude.{◌≡◌, false, true, IfErr, IfOk, OnErr, OnOk};
ghost use Rattle.node_core.specs.Rounds.{HasFailed, HasHandled, IsBehind};
ghost use Rattle.node_core.specs.declared.error.CoreError.TheVariants.{Stopped};
ghost use Rattle.node_store.specs.Serving.{IsInputEnd};

use crate::error::CoreError;
use node::Node;
use node_store::{Batch, LogEnd, Round, gather_round};
use std::alloc::Global;

/// A node that another program embeds.
///
/// The program owns the log's file and the network. It hands over the frames that have come, and carries out the steps
/// that it gets, in their order. If it cannot carry one out, it drops the core, and opens another one from the log.
pub struct NodeCore {
    pub(crate) alloc: Global,
    pub(crate) node: Node,
    // Where the log ends once all steps are carried out.
    pub(crate) end: LogEnd,
    // How long the log was when it was last asked whether it is worth writing anew.
    pub(crate) asked: u64,
    // Where the log ended before it was written anew, if no frame was handled since.
    pub(crate) former: Option<LogEnd>,
    // Whether a call failed after which the node cannot be used.
    pub(crate) is_stopped: bool,
}

impl Drop for NodeCore {
    fn drop(self) {
        let Self {
            alloc: _,
            node: _,
            end: _,
            asked: _,
            former: _,
            is_stopped: _,
        } = self;
    }
}

impl NodeCore {
    /// A core of a node that has started, with a log that ends there.
    pub(crate) fn new(alloc: Global, node: Node, end: LogEnd) -> NodeCore
        ensures node { result.node ≡ node }
        ensures end { result.end ≡ end }
        ensures goes_on { result.is_stopped ≡ false }
    {
        NodeCore {
            alloc,
            node,
            end,
            asked: 0,
            former: None,
            is_stopped: false,
        }
    }

    /// Whether a call failed after which the node cannot be used.
    pub fn is_stopped(&self) -> bool
        ensures { result ≡ self.now.is_stopped }
    {
        self.is_stopped
    }

    /// How many bytes the log has once all steps are carried out, or 2^64 - 1 if it has more.
    pub fn log_length(&self) -> u64
        ensures { result ≡ self.now.end.length }
    {
        self.end.length
    }

    /// Handles the frames with which these bytes begin, one after another, and returns what is to be done for them, and
    /// the bytes behind them, which the program hands over again with those that come next. These are all of the bytes
    /// if no whole frame stands at their front. At most 1,024 frames are handled, and fewer once a mebibyte waits.
    ///
    /// The program then carries out the steps of the batch (`step_at`), in their order. The next frames may be handed
    /// over once the steps are carried out.
    ///
    /// Fails with `Ended` if the bytes are no frame, if the node has no more ids for calls, or if memory is refused.
    /// The core has stopped then. Fails with `Stopped` if it has stopped before.
    pub fn handle_frames<'a>(&mut self, input: &'a [u8]) -> Result<Round<'a>, CoreError>
        ensures handles { IfOk result (HasHandled self.old self.new input.now) }
        ensures ended { IfOk result (λ round. round.rest.now ≡ input.now → IsInputEnd input.now) }
        ensures going { OnOk result (self.old.is_stopped ≡ false) }
        ensures failed { IfErr result (HasFailed self.old input.now) }
        ensures stopped { OnErr result (self.new.is_stopped ≡ true) }
        ensures over { self.old.is_stopped ≡ true → result ≡ Err Stopped }
    {
        if self.is_stopped {
            return Err(CoreError::Stopped);
        }
        self.former = None;
        match gather_round(self.alloc, &mut self.node, input, self.end) {
            Ok(round) => {
                self.end = end_behind(self.end, &round.batch);
                Ok(round)
            }
            Err(error) => {
                self.is_stopped = true;
                Err(CoreError::Ended(error))
            }
        }
    }
}

// Where the log ends behind the bytes of this batch.
fn end_behind(end: LogEnd, batch: &Batch) -> LogEnd
    ensures { IsBehind end batch.now result }
{
    LogEnd {
        length: end.length.saturating_add(batch.log.len() as u64),
        chain: batch.chain,
    }
}
