//! Letters that go out.
ghost use Rattle.std.specs.Prelude.{OnOk};
ghost use Rattle.std.specs.List.{AllByRecursion};
ghost use Rattle.node_effects.specs.Errors.{WritesOrFails};
ghost use Rattle.node_effects.specs.Work.{IsGrown};
ghost use Rattle.node_keeper.specs.Fitting.{IsSendable};
ghost use Rattle.node_keeper.specs.Sendings.{asked, sending, sent_growth, to_one};

use super::Keeper;
use crate::post::{framed_letter, member_or};
use bytes::Bytes;
use letter::{Letter, NamedLetter};
use node_effects::{NodeError, Work};

impl Keeper {
    // Requests of the object of this name go to their members.
    pub(crate) fn post(
        &self,
        name: &Bytes,
        letters: Vec<Letter>,
        work: &mut Work,
    ) -> Result<(), NodeError>
        ensures grown { OnOk result (IsGrown work.old work.new
            (sent_growth self.now.ids.node self.now.digest (asked self.now.ids.node name.now letters.items))) }

        ensures writes { WritesOrFails (AllByRecursion (IsSendable self.now.ids.node self.now.digest)
            (asked self.now.ids.node name.now letters.items)) result }
    {
        for letter in letters {
            let to = member_or(self.ids.number(), &letter);
            let name = name.clone()?;
            self.send(to, NamedLetter { name, letter }, work)?;
        }
        Ok(())
    }

    // A letter goes to a node. What goes to this node itself waits.
    pub(crate) fn send(&self, to: u8, it: NamedLetter, work: &mut Work) -> Result<(), NodeError>
        ensures grown { OnOk result
            (IsGrown work.old work.new (sent_growth self.now.ids.node self.now.digest (to_one to it))) }
        ensures writes { WritesOrFails (IsSendable self.now.ids.node self.now.digest (sending to it)) result }
    {
        if to == self.ids.number() {
            return work.keep(it);
        }
        let frame = framed_letter(self.alloc, self.digest, it)?;
        work.send(to, frame)
    }
}
