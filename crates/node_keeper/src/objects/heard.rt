//! The objects in a node's map, one after another, and positions of which a node hears.
ghost use Rattle.std.specs.Prelude.{◌≡◌, ◌≤◌, IfErr, MatchOption, OnOk, length, nat_eq};
ghost use Rattle.std.specs.Cmp.Lexicographic.{pointwise};
ghost use Rattle.indexmap.specs.IndexMap.{IsUnique};
ghost use Rattle.tag.specs.declared.refusal.Refusal.TheVariants.{NoMemory};
ghost use Rattle.local_object.specs.Local.{with_heard};
ghost use Rattle.node_keeper.specs.Objects.{IsAbsentIfNew, IsChangedAt, IsHeardAt, heard_names, objects_of};

use super::Objects;
use bytes::Bytes;
use layout::Layout;
use local_object::LocalObject;
use tag::Refusal;

impl Objects {
    /// The name and the object at this place of the map, from 0. None if the map has no more objects than this. An
    /// object that is not in the map is a new one.
    pub fn named(&self, index: usize) -> Option<(&Bytes, &LocalObject)>
        ensures named { MatchOption result (length (heard_names self.now) ≤ index)
            (λ it. IsHeardAt self.now index it.0.now it.1.now) }
        ensures unique { IsUnique (pointwise nat_eq) self.now.by_name }
    {
        if index >= self.by_name.len() {
            return None;
        }
        self.by_name.get_index(index)
    }

    /// The node hears of a position of the object of a name, and of its layout. Nothing changes if it had heard of the
    /// position before.
    ///
    /// `NoMemory` is the only refusal.
    pub fn hear(&mut self, name: &Bytes, position: u32, layout: Layout) -> Result<(), Refusal>
        ensures heard { OnOk result (IsChangedAt self.old name.now
            (with_heard (objects_of self.old name.now) position layout) self.new) }

        ensures spared { OnOk result (IsAbsentIfNew self.new name.now) }
        ensures refused { IfErr result (λ e. e ≡ NoMemory) }
    {
        self.hear_there(name, position, layout)?;
        self.forget_new(name);
        Ok(())
    }

    // Does what `hear` does, but leaves the object in the map, also if it equals a new one.
    fn hear_there(&mut self, name: &Bytes, position: u32, layout: Layout) -> Result<(), Refusal>
        ensures heard { OnOk result (IsChangedAt self.old name.now
            (with_heard (objects_of self.old name.now) position layout) self.new) }

        ensures refused { IfErr result (λ e. e ≡ NoMemory) }
    {
        self.hear_of(name)?;
        match self.by_name.get_mut(name) {
            Some(object) => object.hear(position, layout),
            None => unreachable!(),
        }
    }
}
