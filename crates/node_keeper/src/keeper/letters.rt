//! Letters that have come.
ghost use Rattle.std.specs.Prelude.{◌≡◌, ◌∷◌, [], true, IfErr, IfOk, IfSome, OnOk};
ghost use Rattle.layout.specs.Layout.{IsLawful};
ghost use Rattle.recoveries.specs.Copies.{IsHeeded};
ghost use Rattle.mail.specs.Message.{is_request};
ghost use Rattle.node_effects.specs.Errors.{IsUnwritten};
ghost use Rattle.node_effects.specs.declared.error.NodeError.TheVariants.{NoMemory};
ghost use Rattle.node_keeper.specs.Declining.{declines};
ghost use Rattle.node_keeper.specs.Delivering.{CanDeliver, CanDeliverAs, CanHandle, CanServe, DeliversLetter};
ghost use Rattle.node_keeper.specs.Delivering.{HandlesAndCloses, HandlesAs, ServesRequest, served_as};
ghost use Rattle.node_effects.specs.Seen.{named_of};
ghost use Rattle.node_keeper.specs.Acts.{Acts};
ghost use Rattle.node_keeper.specs.Keeping.{heeds, if_heeded, kept_of};
ghost use Rattle.node_keeper.specs.Objects.{objects_of};
ghost use Rattle.node_keeper.specs.Sendings.{IsFrameOf};

use super::Keeper;
use crate::delivered::Delivered;
use crate::post::is_request;
use bytes::Bytes;
use frames::Frame;
use letter::NamedLetter;
use node_effects::{NodeError, Work};

impl Keeper {
    /// Serves the request or takes the reply in a letter from the node with this number, which may be this node itself.
    /// `came` is the frame of the letter, as a message of this cluster, if it came in one: that is what is logged.
    /// Drops the letter if it names no member, or if its layouts contradict those of which the node has heard. The node
    /// that moves objects also drops a letter with a layout of which it has not heard. Logs a request that may change a
    /// bank before it is served, and a reply to an open move before the move takes it. A request that names another
    /// node, at a position before the object's start, goes back to the node that sent it, with this start in place of
    /// the letter's, unless the letter tells of one that is as late.
    ///
    /// If the node serves a request that fetches a piece, and its bank is closed, it sends no reply. It then returns
    /// `Declined`.
    ///
    /// After each letter that it does not drop, the node closes its open banks of positions before the object's start,
    /// and logs this first. At each of these positions the pointer is final at a quorum, so no call that begins later
    /// needs its pieces. A bank whose pointer is not final cannot be closed. The node first raises this pointer, if it
    /// is a member of the position and has heard of the next one, and before that logs the letter with which it asks
    /// itself for this.
    ///
    /// Fails with `NoMemory`, or with `Unwritable` if the letter is no message.
    pub fn deliver(
        &mut self,
        sender: u8,
        it: NamedLetter,
        came: Option<Frame>,
        work: &mut Work,
    ) -> Result<Delivered, NodeError>
        requires { IfSome came (IsFrameOf self.old.digest it) }
        ensures acts { OnOk result
            (Acts sender (if_heeded (kept_of self.old) (named_of it)) self.old work.old self.new work.new) }
        ensures delivers { IfOk result (DeliversLetter sender it self.old work.old self.new work.new) }
        ensures refused { IfErr result (IsUnwritten (CanDeliver sender it self.old)) }
    {
        self.expect(&it.name)?;
        self.deliver_expected(sender, it, came, work)
    }

    // Questions about the object of a name are answered quickly from now on, also if the node has not heard of it.
    fn expect(&mut self, name: &Bytes) -> Result<(), NodeError>
        ensures same { self.new ≡ self.old }
        ensures refused { IfErr result (λ e. e ≡ NoMemory) }
    {
        Ok(self.objects.expect(name)?)
    }

    // Does what `deliver` does.
    fn deliver_expected(
        &mut self,
        sender: u8,
        it: NamedLetter,
        came: Option<Frame>,
        work: &mut Work,
    ) -> Result<Delivered, NodeError>
        requires { IfSome came (IsFrameOf self.old.digest it) }
        ensures acts { OnOk result
            (Acts sender (if_heeded (kept_of self.old) (named_of it)) self.old work.old self.new work.new) }
        ensures delivers { IfOk result (DeliversLetter sender it self.old work.old self.new work.new) }
        ensures refused { IfErr result (IsUnwritten (CanDeliver sender it self.old)) }
    {
        if !self.heeds(&it)? {
            return Ok(Delivered::Dropped);
        }
        self.handle_and_close(sender, it, came, work)
    }

    // Serves a request, or takes a reply. Then the node closes its banks of positions before the object's start.
    fn handle_and_close(
        &mut self,
        sender: u8,
        it: NamedLetter,
        came: Option<Frame>,
        work: &mut Work,
    ) -> Result<Delivered, NodeError>
        requires came { IfSome came (IsFrameOf self.old.digest it) }
        requires heeded { IsHeeded (kept_of self.old) it.name it.letter }
        ensures acts { OnOk result
            (Acts sender (named_of it ∷ []) self.old work.old self.new work.new) }

        ensures handles { IfOk result (HandlesAndCloses (is_request it.letter.message.body) sender it
            self.old work.old self.new work.new) }

        ensures refused { IfErr result
            (IsUnwritten (CanDeliverAs true (is_request it.letter.message.body) sender it self.old)) }
    {
        let name = it.name.clone()?;
        let handled = self.handle(sender, it, came, work)?;
        self.close_passed(&name, work)?;
        Ok(handled)
    }

    // Serves a request, or takes a reply.
    fn handle(
        &mut self,
        sender: u8,
        it: NamedLetter,
        came: Option<Frame>,
        work: &mut Work,
    ) -> Result<Delivered, NodeError>
        requires came { IfSome came (IsFrameOf self.old.digest it) }
        requires heeded { IsHeeded (kept_of self.old) it.name it.letter }
        ensures acts { OnOk result
            (Acts sender (named_of it ∷ []) self.old work.old self.new work.new) }

        ensures handles { IfOk result (HandlesAs (is_request it.letter.message.body) sender it
            self.old work.old self.new work.new) }

        ensures refused { IfErr result
            (IsUnwritten (CanHandle (is_request it.letter.message.body) sender it self.old)) }
    {
        if is_request(&it.letter) {
            self.serve(sender, it, came, work)
        } else {
            self.take(it, came, work)
        }
    }

    // Whether a letter names a member of its layout, no layout in it is another one than the node has heard of, and the
    // node that moves objects has heard of each.
    fn heeds(&self, it: &NamedLetter) -> Result<bool, NodeError>
        ensures heeds { IfOk result (λ is. is ≡ heeds (kept_of self.now) (named_of it.now)) }
        ensures lawful { IfOk result (λ is. is ≡ true → IsLawful it.now.letter.layout) }
        ensures refused { IfErr result (λ e. e ≡ NoMemory) }
    {
        if it.letter.message.member >= it.letter.layout.layout().n() {
            return Ok(false);
        }
        if !self.objects.agrees_with(&it.name, &it.letter)? {
            return Ok(false);
        }
        if !self.is_mover() {
            return Ok(true);
        }
        Ok(self.objects.knows_all_of(&it.name, &it.letter)?)
    }

    // Serves a request, and replies to the node that sent it; or sends it back there, with the object's start, as
    // `deliver` says. A request that may change a bank goes to the log first.
    fn serve(
        &mut self,
        sender: u8,
        it: NamedLetter,
        came: Option<Frame>,
        work: &mut Work,
    ) -> Result<Delivered, NodeError>
        requires came { IfSome came (IsFrameOf self.old.digest it) }
        requires heeded { IsHeeded (kept_of self.old) it.name it.letter }
        requires asks { is_request it.letter.message.body ≡ true }
        ensures acts { OnOk result
            (Acts sender (named_of it ∷ []) self.old work.old self.new work.new) }

        ensures serves { OnOk result (ServesRequest sender it self.old work.old self.new work.new) }
        ensures served { IfOk result (λ served.
            served ≡ served_as (declines (objects_of self.old.objects it.name) it.letter)) }

        ensures refused { IfErr result (IsUnwritten (CanServe sender it self.old)) }
    {
        let declined = self.objects.declines(&it.name, &it.letter);
        let it = self.log_serve(it, came, work)?;
        let NamedLetter { name, letter } = it;
        match self.objects.serve(&name, letter)? {
            Some(reply) => {
                let letter = reply;
                self.send(sender, NamedLetter { name, letter }, work)?;
                Ok(served_as(declined))
            }
            None => Ok(served_as(declined)),
        }
    }
}

// What became of a request, by whether the node served it, and its bank declined it.
fn served_as(declined: bool) -> Delivered
    ensures { result ≡ served_as declined }
{
    if declined {
        Delivered::Declined
    } else {
        Delivered::Handled
    }
}
