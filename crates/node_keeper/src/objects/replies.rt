//! How calls take replies, and how calls end without an answer.
ghost use Rattle.std.specs.Prelude.{◌≡◌, [], ℕ, true, IfErr, IfOk, OnOk, Option, option_to_list};
ghost use Rattle.tag.specs.declared.refusal.Refusal.TheVariants.{NoMemory};
ghost use Rattle.layout.specs.Layout.{Layout};
ghost use Rattle.local_object.specs.Doing.{give_up_events, gives_up, is_taken};
ghost use Rattle.local_object.specs.Going.{IsSomeOutcome};
ghost use Rattle.local_object.specs.Local.{new_local};
ghost use Rattle.local_object.specs.Replies.{IsReplyOutcome};
ghost use Rattle.node_keeper.specs.Doing.{IsOutcomeAt, IsReplyOutcomeAt};
ghost use Rattle.node_keeper.specs.Objects.{IsAbsentIfNew, objects_of};
ghost use Rattle.node_keeper.specs.NewObjects.{IsToldIfNew};

use super::{Objects, may_be_new};
use bytes::Bytes;
use letter::Letter;
use local_object::{LocalObject, Progress};
use tag::{CallId, Refusal};

impl Objects {
    /// Has a call of the object of a name take a reply. If what the members told is enough, the call ends early.
    /// Otherwise it goes on as far as it can: it settles the value that it fetched, and begins its next phase or is
    /// answered. No object changes if the letter is no reply to a call that is open at this node, or if there is no
    /// number in 32 bits for the next position.
    ///
    /// `NoMemory` is the only refusal.
    pub fn take(&mut self, name: &Bytes, letter: Letter) -> Result<Progress, Refusal>
        ensures done { IfOk result (λ progress. IsReplyOutcomeAt self.old name.now letter self.new
            progress.letters.items (option_to_list progress.ended)) }

        ensures spared { OnOk result (IsAbsentIfNew self.new name.now) }
        ensures refused { IfErr result (λ e. e ≡ NoMemory) }
    {
        let (progress, may_be_new) = self.take_there(name, letter)?;
        self.forget_if_new(name, may_be_new);
        Ok(progress)
    }

    // Does what `take` does, but leaves the object in the map. Returns whether it may equal a new one.
    fn take_there(&mut self, name: &Bytes, letter: Letter) -> Result<(Progress, bool), Refusal>
        ensures done { IfOk result (λ it. IsReplyOutcomeAt self.old name.now letter self.new
            it.0.letters.items (option_to_list it.0.ended)) }

        ensures told { IfOk result (λ it. IsToldIfNew self.new name.now it.1) }
        ensures refused { IfErr result (λ e. e ≡ NoMemory) }
    {
        match self.by_name.get_mut(name) {
            Some(object) => taken(object, letter),
            None => self.take_new(name, letter),
        }
    }

    // Does the same for an object that is not in the map.
    fn take_new(&mut self, name: &Bytes, letter: Letter) -> Result<(Progress, bool), Refusal>
        ensures done { IfOk result (λ it. IsReplyOutcomeAt self.old name.now letter self.new
            it.0.letters.items (option_to_list it.0.ended)) }

        ensures told { IfOk result (λ it. IsToldIfNew self.new name.now it.1) }
        ensures refused { IfErr result (λ e. e ≡ NoMemory) }
    {
        self.hear_of(name)?;
        match self.by_name.get_mut(name) {
            Some(object) => taken(object, letter),
            None => unreachable!(),
        }
    }

    /// Ends the read or the write with this id at the object of a name without an answer, if one is open there. A write
    /// may still take effect. Returns whether a call was given up. A move goes on until it is answered. The function
    /// allocates no memory.
    pub fn give_up(&mut self, name: &Bytes, id: CallId) -> bool
        ensures done { IsOutcomeAt self.old name.now (give_up_events (objects_of self.old name.now) id) self.new [] }
        ensures given_up { result ≡ gives_up (objects_of self.old name.now) id }
        ensures spared { IsAbsentIfNew self.new name.now }
    {
        let given_up = self.give_up_there(name, id);
        self.forget_new(name);
        given_up
    }

    // Does what `give_up` does, but leaves the object in the map, also if it equals a new one.
    fn give_up_there(&mut self, name: &Bytes, id: CallId) -> bool
        ensures done { IsOutcomeAt self.old name.now (give_up_events (objects_of self.old name.now) id) self.new [] }
        ensures given_up { result ≡ gives_up (objects_of self.old name.now) id }
    {
        match self.by_name.get_mut(name) {
            Some(object) => object.give_up(id),
            None => false,
        }
    }
}

// A call of an object takes a reply. Returns what came of it, and whether the object may equal a new one.
fn taken(object: &mut LocalObject, letter: Letter) -> Result<(Progress, bool), Refusal>
    ensures done { IfOk result (λ it.
        IsSomeOutcome object.old object.new it.0.letters.items (option_to_list it.0.ended)) }
    ensures taken { IfOk result (λ it. IsReplyOutcome (is_taken object.old letter) object.old letter object.new
        it.0.letters.items (option_to_list it.0.ended)) }
    ensures told { IfOk result (λ it. (number : ℕ) (delta : Option ℕ) (first : Layout)
        → object.new ≡ new_local number delta first → it.1 ≡ true) }
    ensures refused { IfErr result (λ e. e ≡ NoMemory) }
{
    let progress = object.take(letter)?;
    let may_be_new = may_be_new(object);
    Ok((progress, may_be_new))
}
