//! Calls that begin.
ghost use Rattle.std.specs.Prelude.{◌≡◌, ◌⊎◌, ◌&&◌, ◌∷◌, [], IfErr, IfOk, is_some, length, nat_eq, nat_lt, not};
ghost use Rattle.std.specs.Cmp.Lexicographic.{pointwise};
ghost use Rattle.tag.specs.Refusal.{IsByCause};
ghost use Rattle.tag.specs.declared.refusal.Refusal.TheVariants.{NoMemory};
ghost use Rattle.indexmap.specs.IndexMap.{get};
ghost use Rattle.tag.specs.declared.limits.TheConstants.{LONGEST_VALUE};
ghost use Rattle.local_object.specs.Doing.{move_refusal, read_refusal, write_refusal};
ghost use Rattle.local_object.specs.Events.{LocalEvent};
ghost use Rattle.node_keeper.specs.Doing.{IsOutcomeAt};
ghost use Rattle.node_keeper.specs.Objects.{AreSame, objects_of};

use super::Objects;
use bytes::Bytes;
use layout::Layout;
use letter::Letter;
use tag::{CallId, LONGEST_VALUE, Refusal};

impl Objects {
    /// Begins a read of the object of a name, with an id that no other call of the object has in the whole cluster.
    /// Returns the read's requests to the members of the position at which the object's calls begin.
    ///
    /// Is refused with `NotNow` if a call with this id is open at the object, or with `NoMemory`.
    pub fn begin_read(&mut self, name: &Bytes, id: CallId) -> Result<Vec<Letter>, Refusal>
        ensures done { IfOk result (λ letters.
            IsOutcomeAt self.old name.now (LocalEvent.BeginRead id ∷ []) self.new letters.items) }

        ensures cause { IsByCause (read_refusal (objects_of self.old name.now) id) result }
        ensures unchanged { IfErr result (λ e. (e ≡ NoMemory) ⊎ AreSame self.old self.new) }
    {
        self.hear_of(name)?;
        match self.by_name.get_mut(name) {
            Some(object) => object.begin_read(id),
            None => unreachable!(),
        }
    }

    /// Begins a write of this value to the object of a name, with an id that no other call of the object has in the
    /// whole cluster. Returns the write's requests to the members of the position at which the object's calls begin.
    ///
    /// Is refused with `NotNow` if a call with this id is open at the object, with `TooLong` if the value has more than
    /// `LONGEST_VALUE` bytes, or with `NoMemory`.
    pub fn begin_write(
        &mut self,
        name: &Bytes,
        id: CallId,
        value: Bytes,
    ) -> Result<Vec<Letter>, Refusal>
        ensures done { IfOk result (λ letters.
            IsOutcomeAt self.old name.now (LocalEvent.BeginWrite id value ∷ []) self.new letters.items) }

        ensures cause { IsByCause (write_refusal (objects_of self.old name.now) id value) result }
        ensures unchanged { IfErr result (λ e. (e ≡ NoMemory) ⊎ AreSame self.old self.new) }
    {
        if self.is_long_for_new(name, &value) {
            return Err(Refusal::TooLong);
        }
        self.hear_of(name)?;
        match self.by_name.get_mut(name) {
            Some(object) => object.begin_write(id, value),
            None => unreachable!(),
        }
    }

    // Whether the value is too long, and the name is not in the map.
    fn is_long_for_new(&self, name: &Bytes, value: &Bytes) -> bool
        ensures { result ≡ (not (is_some (get (pointwise nat_eq) self.now.by_name name.now))
            && nat_lt LONGEST_VALUE (length value.now)) }
    {
        !self.by_name.contains_key(name) && value.len() > LONGEST_VALUE
    }

    /// Begins a move of the object of a name, from the last position of which the node has heard to a new one with this
    /// layout. Returns the move's requests to the members of that last position.
    ///
    /// Is refused with `NotNow` if a call with this id is open at the object, with `MovePending` if a move is open
    /// there, with `Full` if there are no numbers for the new position and the one after it, or with `NoMemory`.
    pub fn begin_move(
        &mut self,
        name: &Bytes,
        id: CallId,
        layout: Layout,
    ) -> Result<Vec<Letter>, Refusal>
        ensures done { IfOk result (λ letters.
            IsOutcomeAt self.old name.now (LocalEvent.BeginMove id layout ∷ []) self.new letters.items) }

        ensures cause { IsByCause (move_refusal (objects_of self.old name.now) id) result }
        ensures unchanged { IfErr result (λ e. (e ≡ NoMemory) ⊎ AreSame self.old self.new) }
    {
        self.hear_of(name)?;
        match self.by_name.get_mut(name) {
            Some(object) => object.begin_move(id, layout),
            None => unreachable!(),
        }
    }
}
