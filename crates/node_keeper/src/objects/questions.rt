//! What is asked of the object of a name, and of all objects. A question changes nothing.
ghost use Rattle.std.specs.Prelude.{◌≡◌, ◌-◌, ◌^◌, IfErr, IfOk, false, length, min, nat_eq};
ghost use Rattle.std.specs.Cmp.Lexicographic.{pointwise};
ghost use Rattle.tag.specs.declared.refusal.Refusal.TheVariants.{NoMemory};
ghost use Rattle.indexmap.specs.IndexMap.{IsUnique};
ghost use Rattle.local_object.specs.Agreement.{agrees, knows_all_of};
ghost use Rattle.local_object.specs.Changing.{IsUnchangedBy, is_changed_by};
ghost use Rattle.local_object.specs.Doing.{has_move_open};
ghost use Rattle.node_keeper.specs.Objects.{bytes_in_banks, first_layout_of, heard_names, objects_of};

use super::Objects;
use bytes::Bytes;
use layout::Layout;
use letter::Letter;
use tag::{CallId, Refusal};

impl Objects {
    /// Returns the number of the node.
    pub fn number(&self) -> u8
        ensures { result ≡ self.now.number }
    {
        self.number
    }

    /// Returns the layout of position 0 of the object of a name. It allocates no memory.
    pub fn first_layout(&self, name: &Bytes) -> Layout
        ensures { result ≡ first_layout_of self.now name.now }
    {
        self.placement.place(name)
    }

    /// Returns how many objects the map has. Every other object is a new one.
    pub fn count(&self) -> usize
        ensures count { result ≡ length (heard_names self.now) }
        ensures unique { IsUnique (pointwise nat_eq) self.now.by_name }
    {
        self.by_name.len()
    }

    /// Returns the number of bytes of all pieces in the node's banks, or `u64::MAX` if there are more. It takes time
    /// linear in the number of tags.
    pub fn bytes_stored(&self) -> u64
        ensures { result ≡ min (bytes_in_banks self.now) (2 ^ 64 - 1) }
    {
        let mut bytes = 0u64;
        for object in self.by_name.values() {
            bytes = bytes.saturating_add(object.bytes_stored());
        }
        bytes
    }

    /// Returns whether a move with this id is open at the object of a name. It allocates no memory.
    pub fn is_open_move(&self, name: &Bytes, id: CallId) -> bool
        ensures { result ≡ has_move_open (objects_of self.now name.now) id }
    {
        match self.by_name.get(name) {
            Some(object) => object.is_open_move(id),
            None => false,
        }
    }

    /// Returns whether serving a letter may change more of the object of a name than what the node has heard of. If the
    /// result is false and the node serves the letter, the node hears of the layouts in the letter, and nothing else
    /// changes.
    ///
    /// `NoMemory` is the only refusal.
    pub fn is_changed_by(&self, name: &Bytes, letter: &Letter) -> Result<bool, Refusal>
        ensures changed { IfOk result (λ is. is ≡ is_changed_by (objects_of self.now name.now) letter.now) }
        ensures unchanged { IfOk result (λ is. is ≡ false
            → IsUnchangedBy (objects_of self.now name.now) letter.now) }

        ensures refused { IfErr result (λ e. e ≡ NoMemory) }
    {
        match self.by_name.get(name) {
            Some(object) => Ok(object.is_changed_by(letter)),
            None => Ok(self.new_object(name)?.is_changed_by(letter)),
        }
    }

    /// Returns whether each layout in a letter about the object of a name is the one that the node has heard of for
    /// that position, if it has heard of one.
    ///
    /// `NoMemory` is the only refusal.
    pub fn agrees_with(&self, name: &Bytes, letter: &Letter) -> Result<bool, Refusal>
        ensures agrees { IfOk result (λ is. is ≡ agrees (objects_of self.now name.now) letter.now) }
        ensures refused { IfErr result (λ e. e ≡ NoMemory) }
    {
        match self.by_name.get(name) {
            Some(object) => Ok(object.agrees_with(letter)),
            None => Ok(self.new_object(name)?.agrees_with(letter)),
        }
    }

    /// Returns whether the node has heard of each position of which a letter about the object of a name has the layout,
    /// and with that layout.
    ///
    /// `NoMemory` is the only refusal.
    pub fn knows_all_of(&self, name: &Bytes, letter: &Letter) -> Result<bool, Refusal>
        ensures knows { IfOk result (λ is. is ≡ knows_all_of (objects_of self.now name.now) letter.now) }
        ensures refused { IfErr result (λ e. e ≡ NoMemory) }
    {
        match self.by_name.get(name) {
            Some(object) => Ok(object.knows_all_of(letter)),
            None => Ok(self.new_object(name)?.knows_all_of(letter)),
        }
    }
}
