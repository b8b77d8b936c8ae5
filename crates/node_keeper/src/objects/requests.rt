//! Requests that are served or sent back, and calls that ask again.
ghost use Rattle.std.specs.Prelude.{◌≡◌, ℕ, true, IfErr, IfOk, OnOk, Option, option_to_list};
ghost use Rattle.tag.specs.declared.refusal.Refusal.TheVariants.{NoMemory};
ghost use Rattle.layout.specs.Layout.{Layout};
ghost use Rattle.local_object.specs.Doing.{IsOutcome, serve_events};
ghost use Rattle.local_object.specs.Local.{new_local};
ghost use Rattle.local_object.specs.ReadingOn.{read_on_events};
ghost use Rattle.node_keeper.specs.Doing.{IsOutcomeAt};
ghost use Rattle.node_keeper.specs.Objects.{IsAbsentIfNew, objects_of};
ghost use Rattle.node_keeper.specs.NewObjects.{IsToldIfNew};
ghost use Rattle.node_keeper.specs.Resending.{AsksAgain, asked_again, read_on_here};

use super::{Objects, may_be_new};
use bytes::Bytes;
use letter::Letter;
use local_object::LocalObject;
use tag::{CallId, Refusal};

impl Objects {
    /// Serves a request about the object of a name, and returns the reply, which has to be sent to the node from which
    /// the request came. Returns none, and changes no object, if the letter is no request, or if there is no number in
    /// 32 bits for the next position. If this node is not the member that the letter names, it serves nothing, but
    /// hears of the start that the letter tells; and if the object's start is later, it returns the request itself with
    /// this start, which has to go back to that node.
    ///
    /// `NoMemory` is the only refusal.
    pub fn serve(&mut self, name: &Bytes, letter: Letter) -> Result<Option<Letter>, Refusal>
        ensures done { IfOk result (λ reply. IsOutcomeAt self.old name.now
            (serve_events (objects_of self.old name.now) letter) self.new (option_to_list reply)) }

        ensures spared { OnOk result (IsAbsentIfNew self.new name.now) }
        ensures refused { IfErr result (λ e. e ≡ NoMemory) }
    {
        let (reply, may_be_new) = self.serve_there(name, letter)?;
        self.forget_if_new(name, may_be_new);
        Ok(reply)
    }

    // Does what `serve` does, but leaves the object in the map. Returns whether it may equal a new one.
    fn serve_there(
        &mut self,
        name: &Bytes,
        letter: Letter,
    ) -> Result<(Option<Letter>, bool), Refusal>
        ensures done { IfOk result (λ it. IsOutcomeAt self.old name.now
            (serve_events (objects_of self.old name.now) letter) self.new (option_to_list it.0)) }

        ensures told { IfOk result (λ it. IsToldIfNew self.new name.now it.1) }
        ensures refused { IfErr result (λ e. e ≡ NoMemory) }
    {
        match self.by_name.get_mut(name) {
            Some(object) => served(object, letter),
            None => self.serve_new(name, letter),
        }
    }

    // Does the same for an object that is not in the map.
    fn serve_new(&mut self, name: &Bytes, letter: Letter) -> Result<(Option<Letter>, bool), Refusal>
        ensures done { IfOk result (λ it. IsOutcomeAt self.old name.now
            (serve_events (objects_of self.old name.now) letter) self.new (option_to_list it.0)) }

        ensures told { IfOk result (λ it. IsToldIfNew self.new name.now it.1) }
        ensures refused { IfErr result (λ e. e ≡ NoMemory) }
    {
        self.hear_of(name)?;
        match self.by_name.get_mut(name) {
            Some(object) => served(object, letter),
            None => unreachable!(),
        }
    }

    /// Has the call with this id at the object of a name ask again, and returns its requests. If the call reads the
    /// sequence of layouts at a position before the object's start, it goes on at the start. Otherwise nothing changes,
    /// and the requests are those of its current phase, as they were sent, to the members whose replies are not
    /// recorded, in the order of the members. Returns no letters if no call with this id is open there.
    ///
    /// `NoMemory` is the only refusal.
    pub fn ask_again(&mut self, name: &Bytes, id: CallId) -> Result<Vec<Letter>, Refusal>
        ensures done { OnOk result (AsksAgain self.old name.now id self.new) }
        ensures letters { IfOk result (λ letters. letters.items ≡ asked_again (objects_of self.old name.now) id) }
        ensures refused { IfErr result (λ e. e ≡ NoMemory) }
    {
        match self.by_name.get_mut(name) {
            Some(object) => ask_again(object, id),
            None => Ok(Vec::new(self.alloc)),
        }
    }
}

// An object serves a request. Returns the reply, and whether the object may equal a new one.
fn served(object: &mut LocalObject, letter: Letter) -> Result<(Option<Letter>, bool), Refusal>
    ensures done { IfOk result (λ it.
        IsOutcome object.old (serve_events object.old letter) object.new (option_to_list it.0)) }
    ensures told { IfOk result (λ it. (number : ℕ) (delta : Option ℕ) (first : Layout)
        → object.new ≡ new_local number delta first → it.1 ≡ true) }
    ensures refused { IfErr result (λ e. e ≡ NoMemory) }
{
    let reply = object.serve(letter)?;
    let may_be_new = may_be_new(object);
    Ok((reply, may_be_new))
}

// The call with this id asks again: see `Objects::ask_again`.
fn ask_again(object: &mut LocalObject, id: CallId) -> Result<Vec<Letter>, Refusal>
    ensures done { OnOk result
        (IsOutcome object.old (read_on_events object.old id) object.new (read_on_here object.old id).sent) }

    ensures letters { IfOk result (λ letters. letters.items ≡ asked_again object.old id) }
    ensures refused { IfErr result (λ e. e ≡ NoMemory) }
{
    let letters = object.read_on(id)?;
    if letters.is_empty() {
        return object.resend(id);
    }
    Ok(letters)
}
