//! What a node wants done after the frames that have arrived.
ghost use Rattle.std.specs.Prelude.{◌≡◌, ◌∷◌, [], OnOk};
ghost use Rattle.node_effects.specs.Work.{send_all};
ghost use Rattle.node_effects.specs.declared.output.Output.TheVariants.{Log, Send};
ghost use Rattle.node_store.specs.Outputs.{Gathers, HasGathered, effects_outputs};

use frames::{Frame, Gathered, push_frame};
use node_effects::{Effects, Output};
use node_log::{Chain, Entry, push_entry};
use std::alloc::Global;
use std::io;

// So many bytes wait at most before they are written, but for those of one frame.
const MOST_BYTES: usize = 1_048_576;

/// Bytes that wait to be written, in this order: frames that depend on none of the entries, entries for the log, and
/// frames that may depend on entries; and the chain behind the entries.
pub struct Batch {
    /// The frames that depend on none of the entries.
    pub early: Gathered,
    /// The entries for the log.
    pub log: Gathered,
    /// The frames that may depend on entries.
    pub output: Gathered,
    /// The chain behind the entries.
    pub chain: Chain,
}

impl Drop for Batch {
    fn drop(self) {
        let Self {
            early: _,
            log: _,
            output: _,
            chain: _,
        } = self;
    }
}

impl Batch {
    /// Makes a batch without bytes, for a log that ends behind this chain.
    pub(crate) fn new(alloc: Global, chain: Chain) -> Batch
        ensures empty { HasGathered result.chain.state result [] }
        ensures chain { result.chain.state ≡ chain.state }
    {
        Batch {
            early: Gathered::new(alloc),
            log: Gathered::new(alloc),
            output: Gathered::new(alloc),
            chain,
        }
    }

    /// Returns whether so many bytes wait that they are to be written now.
    pub(crate) fn is_full(&self) -> bool {
        self.early.len() >= MOST_BYTES
            || self.log.len() >= MOST_BYTES
            || self.output.len() >= MOST_BYTES
    }

    /// Adds the bytes of what a machine wants done. Fails only if memory is refused.
    pub(crate) fn push(&mut self, effects: &Effects) -> io::Result<()>
        ensures { OnOk result (Gathers self.old self.new (effects_outputs effects.now)) }
    {
        self.push_outputs(&effects.outputs)?;
        self.push_frames(&effects.answers)
    }

    fn push_outputs(&mut self, outputs: &[Output]) -> io::Result<()>
        ensures { OnOk result (Gathers self.old self.new outputs.now) }
    {
        for output in outputs {
            self.push_output(output)?;
        }
        Ok(())
    }

    fn push_frames(&mut self, frames: &[Frame]) -> io::Result<()>
        ensures { OnOk result (Gathers self.old self.new (send_all frames.now)) }
    {
        for frame in frames {
            self.push_frame(frame)?;
        }
        Ok(())
    }

    fn push_output(&mut self, output: &Output) -> io::Result<()>
        ensures { OnOk result (Gathers self.old self.new (output.now ∷ [])) }
    {
        match output {
            Output::Log(entry) => self.push_entry(entry),
            Output::Send(frame) => self.push_frame(frame),
        }
    }

    fn push_entry(&mut self, entry: &Entry) -> io::Result<()>
        ensures { OnOk result (Gathers self.old self.new (Log entry.now ∷ [])) }
    {
        push_entry(&mut self.log, self.chain, entry)?;
        self.chain.pass(entry);
        Ok(())
    }

    // A frame that no entry precedes may go out at once. Any other frame waits until the log is synced.
    fn push_frame(&mut self, frame: &Frame) -> io::Result<()>
        ensures { OnOk result (Gathers self.old self.new (Send frame.now ∷ [])) }
    {
        if self.log.is_empty() {
            push_frame(&mut self.early, frame)
        } else {
            push_frame(&mut self.output, frame)
        }
    }

    /// Drops all bytes, after they were written.
    pub(crate) fn clear(&mut self)
        ensures empty { HasGathered self.new.chain.state self.new [] }
        ensures chain { self.new.chain.state ≡ self.old.chain.state }
    {
        self.early.clear();
        self.log.clear();
        self.output.clear();
    }
}
