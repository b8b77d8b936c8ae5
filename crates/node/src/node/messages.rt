//! What a node does with messages of other nodes and with its letters to itself.
ghost use Rattle.std.specs.Prelude.{◌≡◌, ◌<◌, ◌^◌, IfErr, IfOk, IfSome, OnOk};
ghost use Rattle.std.specs.List.{AllByRecursion};
ghost use Rattle.fitting.specs.Reading.{IsOfBytes};
ghost use Rattle.frames.specs.Frame.{IsShort};
ghost use Rattle.node_keeper.specs.Acts.{Acts};
ghost use Rattle.node_messages.specs.Reading.{message_from};
ghost use Rattle.node_effects.specs.Seen.{named_of};
ghost use Rattle.node_keeper.specs.Keeping.{if_heeded, kept_of};
ghost use Rattle.node_keeper.specs.Sendings.{IsFrameOf};
ghost use Rattle.node.specs.Failures.{FailsLetter, FailsMessage, FailsRead};
ghost use Rattle.node.specs.Frames.{is_admitted, is_from_cluster, letter_from, letter_if_read};
ghost use Rattle.node.specs.Hearing.{Hears, HearsIfRead, HearsMessage};
ghost use Rattle.node.specs.Peers.{IsChangedByMessage, IsChangedIfRead, after_letter, reception_of};
ghost use Rattle.node.specs.Serving.{ServesMore};
ghost use Rattle.writable.specs.Keepers.{IsFitKeeper, IsFitNamed, IsLeftFit};

use super::Node;
use crate::reception::Reception;
use frames::Frame;
use letter::NamedLetter;
use node_effects::{NodeError, Report, Work};
use node_keeper::Delivered;
use node_messages::{MessageError, NodeMessage, has_low_tags, read_message};

impl Node {
    /// Handles a frame that another node sent. The node drops a frame that is no message, that no node of the cluster
    /// sent, that a node with another cluster file sent, that has a tag above the limit, or whose letter the node does
    /// not heed. It counts each frame that it drops once, by its cause, and each that its closed bank declines.
    pub(super) fn receive(
        &mut self,
        sender: u8,
        frame: Frame,
        work: &mut Work,
    ) -> Result<(), NodeError>
        ensures acts { OnOk result (Acts sender (letter_if_read self.old.keeper sender (message_from frame))
            self.old.keeper work.old self.new.keeper work.new) }
        ensures serves { OnOk result (ServesMore self.old work.old self.new work.new) }
        ensures peers { OnOk result
            (IsChangedIfRead self.old.keeper sender (message_from frame) self.old.peers self.new.peers) }
        ensures hears { OnOk result (HearsIfRead sender (message_from frame) self.old.keeper work.old.outputs.items
            self.new.keeper work.new.outputs.items) }
        ensures fit { OnOk result (AllByRecursion IsShort frame → AllByRecursion IsOfBytes frame
            → IsFitKeeper self.old.keeper → IsLeftFit work.old self.new.keeper work.new) }
        ensures refused { IfErr result (FailsRead sender (message_from frame) self.old) }
    {
        match read_message(self.alloc, &frame) {
            Ok(message) => self.admit(sender, message, frame, work),
            Err(MessageError::NoMemory) => Err(NodeError::NoMemory),
            Err(MessageError::Fault(_)) => {
                self.peers.drops.count_unreadable();
                Ok(())
            }
        }
    }

    // A message has come, which is dropped unless it is admitted. It is told of a node with another cluster file.
    fn admit(
        &mut self,
        sender: u8,
        message: NodeMessage,
        frame: Frame,
        work: &mut Work,
    ) -> Result<(), NodeError>
        requires { IsFrameOf message.digest message.named frame }
        ensures acts { OnOk result (Acts sender (letter_from self.old.keeper sender message)
            self.old.keeper work.old self.new.keeper work.new) }
        ensures serves { OnOk result (ServesMore self.old work.old self.new work.new) }
        ensures peers { OnOk result
            (IsChangedByMessage self.old.keeper sender message self.old.peers self.new.peers) }
        ensures hears { OnOk result (HearsMessage sender message self.old.keeper work.old.outputs.items
            self.new.keeper work.new.outputs.items) }
        ensures fit { OnOk result (IsFitNamed message.named → IsFitKeeper self.old.keeper
            → IsLeftFit work.old self.new.keeper work.new) }
        ensures refused { IfErr result (FailsMessage sender message self.old) }
    {
        if message.digest != self.keeper.digest {
            return self.peers.note(Report {
                node: sender,
                digest: message.digest,
                own: self.keeper.digest,
            });
        }
        if !self.is_admitted(sender, &message) {
            self.peers.drops.count_not_admitted();
            return Ok(());
        }
        self.hear(sender, message.named, frame, work)
    }

    // The letter of an admitted message has come, in this frame. The frame is dropped if the node does not heed the
    // letter; and if its closed bank declines it, this counts.
    fn hear(
        &mut self,
        sender: u8,
        it: NamedLetter,
        frame: Frame,
        work: &mut Work,
    ) -> Result<(), NodeError>
        requires { IsFrameOf self.old.keeper.digest it frame }
        ensures acts { OnOk result (Acts sender (if_heeded (kept_of self.old.keeper) (named_of it))
            self.old.keeper work.old self.new.keeper work.new) }
        ensures serves { OnOk result (ServesMore self.old work.old self.new work.new) }
        ensures peers { OnOk result (self.new.peers
            ≡ after_letter (reception_of self.old.keeper it) self.old.peers) }
        ensures hears { OnOk result (Hears sender it self.old.keeper work.old.outputs.items
            self.new.keeper work.new.outputs.items) }
        ensures fit { OnOk result (sender < 2 ^ 8 → IsFitNamed it → IsFitKeeper self.old.keeper
            → IsLeftFit work.old self.new.keeper work.new) }
        ensures refused { IfErr result (FailsLetter sender it self.old) }
    {
        let reception = self.deliver(sender, it, Some(frame), work)?;
        self.peers.count_letter(reception);
        Ok(())
    }

    // Whether a message comes from a node of this cluster, and has no tag above the limit. A tag near the greatest one
    // would block an object for good, since no write finds a greater one.
    fn is_admitted(&self, sender: u8, message: &NodeMessage) -> bool
        ensures { result ≡ is_admitted self.now.keeper sender message.now }
    {
        self.is_from_cluster(sender, message) && has_low_tags(message)
    }

    // Whether a message comes from a node of this cluster.
    fn is_from_cluster(&self, sender: u8, message: &NodeMessage) -> bool
        ensures { result ≡ is_from_cluster self.now.keeper sender message.now }
    {
        self.keeper.file.has_node(sender) && message.digest == self.keeper.digest
    }

    /// Handles a letter from the node with this number, which may be this node itself. `came` is its frame, if it came
    /// in one. Returns what became of it.
    pub(super) fn deliver(
        &mut self,
        sender: u8,
        it: NamedLetter,
        came: Option<Frame>,
        work: &mut Work,
    ) -> Result<Reception, NodeError>
        requires { IfSome came (IsFrameOf self.old.keeper.digest it) }
        ensures acts { OnOk result (Acts sender (if_heeded (kept_of self.old.keeper) (named_of it))
            self.old.keeper work.old self.new.keeper work.new) }
        ensures serves { OnOk result (ServesMore self.old work.old self.new work.new) }
        ensures received { IfOk result (λ reception. reception ≡ reception_of self.old.keeper it) }
        ensures peers { self.new.peers ≡ self.old.peers }
        ensures hears { OnOk result (Hears sender it self.old.keeper work.old.outputs.items
            self.new.keeper work.new.outputs.items) }
        ensures fit { OnOk result (sender < 2 ^ 8 → IsFitNamed it → IsFitKeeper self.old.keeper
            → IsLeftFit work.old self.new.keeper work.new) }
        ensures refused { IfErr result (FailsLetter sender it self.old) }
    {
        let delta = self.keeper.file.delta();
        match self.keeper.deliver(sender, it, came, work)? {
            Delivered::Dropped => Ok(Reception::DROPPED),
            Delivered::Handled => Ok(Reception::HANDLED),
            Delivered::Declined => Ok(Reception::DECLINED),
            Delivered::Ended(ended) => {
                self.desk.end(ended, delta, work)?;
                Ok(Reception::HANDLED)
            }
        }
    }
}
