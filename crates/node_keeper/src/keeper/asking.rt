//! Requests that also ask all nodes for an object's start, and calls that ask again.
ghost use Rattle.std.specs.Prelude.{◌≡◌, ◌∷◌, [], ℕ, true, IfErr, IfOk, IfSome, OnOk};
ghost use Rattle.std.specs.List.{AllByRecursion};
ghost use Rattle.node_effects.specs.Errors.{WritesOrFails};
ghost use Rattle.node_effects.specs.Work.{IsGrown};
ghost use Rattle.node_effects.specs.declared.error.NodeError.TheVariants.{NoMemory};
ghost use Rattle.node_keeper.specs.Acts.{Acts};
ghost use Rattle.node_keeper.specs.Fitting.{IsSendable};
ghost use Rattle.node_keeper.specs.Resending.{AreSent, CanResend, IsAskedAgain, first_for_all, if_next};
ghost use Rattle.node_keeper.specs.Resending.{sendings_again, sendings_of, to_all};
ghost use Rattle.node_keeper.specs.Sendings.{asks_next, sent_growth, to_others};

use super::Keeper;
use crate::post::{asks_next, copy_of};
use bytes::Bytes;
use letter::{Letter, NamedLetter};
use node_effects::{NodeError, Work};
use tag::CallId;

impl Keeper {
    /// Has the call with this id at the object of this name ask again, if it is open there. If it reads the sequence of
    /// layouts at a position before the object's start, it goes on at the start. Otherwise it sends the requests of its
    /// current phase again to the members that have not replied. If all nodes are to be asked, and these requests ask
    /// for the next position, the first of them also goes to each other node of the cluster file: a node that is not
    /// the member which it names sends it back with the start, if it knows a later one.
    ///
    /// Fails with `Unwritable` if a request is no message, or with `NoMemory`.
    pub fn ask_again(
        &mut self,
        name: &Bytes,
        id: CallId,
        asks_all: bool,
        work: &mut Work,
    ) -> Result<(), NodeError>
        ensures acts { OnOk result ((asker : ℕ) → Acts asker [] self.old work.old self.new work.new) }
        ensures asked { OnOk result (IsAskedAgain self.old name.now id self.new) }
        ensures sends { OnOk result (IsGrown work.old work.new
            (sent_growth self.old.ids.node self.old.digest (sendings_again name.now id asks_all self.old))) }

        ensures writes { WritesOrFails (CanResend name.now id asks_all self.old) result }
    {
        let letters = self.objects.ask_again(name, id)?;
        self.post_requests(name, letters, asks_all, work)
    }

    /// Requests of the object of this name go to their members. If all nodes are to be asked, and these requests ask
    /// for the next position, the first of them also goes to each other node of the cluster file.
    pub(super) fn post_requests(
        &self,
        name: &Bytes,
        letters: Vec<Letter>,
        asks_all: bool,
        work: &mut Work,
    ) -> Result<(), NodeError>
        ensures sent { OnOk result (AreSent asks_all self.now name.now letters.items work.old work.new) }
        ensures writes { WritesOrFails (AllByRecursion (IsSendable self.now.ids.node self.now.digest)
            (sendings_of asks_all self.now.ids.node self.now.file name.now letters.items)) result }
    {
        let first = first_for_all(asks_all, &letters)?;
        self.post(name, letters, work)?;
        self.post_to_all(name, &first, work)
    }

    // A request for the next position, if there is one, goes to each other node of the cluster file.
    fn post_to_all(
        &self,
        name: &Bytes,
        letter: &Option<Letter>,
        work: &mut Work,
    ) -> Result<(), NodeError>
        requires { IfSome letter.now (λ l. asks_next l.message.body ≡ true) }
        ensures grown { OnOk result (IsGrown work.old work.new (sent_growth self.now.ids.node self.now.digest
            (to_all self.now.ids.node self.now.file name.now letter.now))) }

        ensures writes { WritesOrFails (AllByRecursion (IsSendable self.now.ids.node self.now.digest)
            (to_all self.now.ids.node self.now.file name.now letter.now)) result }
    {
        let Some(letter) = letter else {
            return Ok(());
        };
        self.post_to(name, letter, self.file.nodes(), work)?;
        self.post_to(name, letter, self.file.later(), work)
    }

    // A request for the next position goes to each of these nodes but this one.
    fn post_to(
        &self,
        name: &Bytes,
        letter: &Letter,
        nodes: &[u8],
        work: &mut Work,
    ) -> Result<(), NodeError>
        requires { asks_next letter.now.message.body ≡ true }
        ensures grown { OnOk result (IsGrown work.old work.new (sent_growth self.now.ids.node self.now.digest
            (to_others self.now.ids.node (record { name = name.now; letter = letter.now }) nodes.now))) }

        ensures writes { WritesOrFails (AllByRecursion (IsSendable self.now.ids.node self.now.digest)
            (to_others self.now.ids.node (record { name = name.now; letter = letter.now }) nodes.now)) result }
    {
        for node in nodes {
            self.post_copy(name, letter, *node, work)?;
        }
        Ok(())
    }

    // A copy of a request for the next position goes to a node, unless it is this one.
    fn post_copy(
        &self,
        name: &Bytes,
        letter: &Letter,
        node: u8,
        work: &mut Work,
    ) -> Result<(), NodeError>
        requires { asks_next letter.now.message.body ≡ true }
        ensures grown { OnOk result (IsGrown work.old work.new (sent_growth self.now.ids.node self.now.digest
            (to_others self.now.ids.node (record { name = name.now; letter = letter.now }) (node ∷ [])))) }

        ensures writes { WritesOrFails (AllByRecursion (IsSendable self.now.ids.node self.now.digest)
            (to_others self.now.ids.node (record { name = name.now; letter = letter.now }) (node ∷ []))) result }
    {
        if node == self.ids.number() {
            return Ok(());
        }
        let name = name.clone()?;
        let letter = copy_of(letter)?;
        self.send(node, NamedLetter { name, letter }, work)
    }
}

// A copy of the first of these letters, if all nodes are to be asked, and if it asks for the next position.
fn first_for_all(asks_all: bool, letters: &[Letter]) -> Result<Option<Letter>, NodeError>
    ensures first { IfOk result (λ first. first ≡ first_for_all asks_all letters.now) }
    ensures refused { IfErr result (λ e. e ≡ NoMemory) }
{
    if !asks_all {
        return Ok(None);
    }
    match letters.first() {
        Some(letter) => copy_if_next(letter),
        None => Ok(None),
    }
}

// A copy of a letter, if it asks for the next position.
fn copy_if_next(letter: &Letter) -> Result<Option<Letter>, NodeError>
    ensures copied { IfOk result (λ copy. copy ≡ if_next letter.now) }
    ensures refused { IfErr result (λ e. e ≡ NoMemory) }
{
    if !asks_next(letter) {
        return Ok(None);
    }
    Ok(Some(copy_of(letter)?))
}
