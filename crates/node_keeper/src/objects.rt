//! All objects of a node, by name.
ghost use Rattle.std.specs.Prelude.{◌≡◌, ◌↔◌, ℕ, nat_eq, true, IfErr, IfOk, IsSome, List, None, OnErr, OnOk};
ghost use Rattle.std.specs.Prelude.{Option, Some};
ghost use Rattle.layout.specs.Layout.{Layout};
ghost use Rattle.std.specs.Cmp.Lexicographic.{pointwise};
ghost use Rattle.tag.specs.declared.refusal.Refusal.TheVariants.{NoMemory};
ghost use Rattle.indexmap.specs.IndexMap.{get};
ghost use Rattle.cluster_file.specs.Placement.{placed};
ghost use Rattle.local_object.specs.Local.{LocalObject, new_local};
ghost use Rattle.node_keeper.specs.Objects.{AreSame, IsAbsentIfNew, new_of, objects_of};
ghost use Rattle.node_keeper.specs.NewObjects.{IsToldIfNew};

use crate::placing::Placing;
use bytes::Bytes;
use cluster_file::ClusterNodes;
use indexmap::IndexMap;
use local_object::LocalObject;
use std::alloc::Global;
use tag::Refusal;

mod begin;
mod closing;
mod declining;
mod heard;
mod last;
mod questions;
mod replies;
mod requests;
pub(crate) mod scan;
pub(crate) mod sizes;

/// What a node keeps of all its objects, each under its name. Any bytes are a name. An object of which the node has not
/// heard counts as a new one, with the layout that placement gives its name. So an object that equals a new one leaves
/// the map as soon as a request was served or a call ended.
///
/// If a function is refused with `NoMemory`, its contract says nothing about the objects, because the node stops and
/// starts again from its log. Every other refusal changes no object.
pub struct Objects {
    alloc: Global,
    // The number of the node.
    number: u8,
    // How many finalized versions the banks keep beside the newest. None where they keep all.
    delta: Option<u32>,
    // The layout that the object of each name has before any move.
    placement: Placing,
    // The objects that may differ from new ones.
    by_name: IndexMap<Bytes, LocalObject>,
}

impl Drop for Objects {
    fn drop(self) {
        let Self {
            alloc: _,
            number: _,
            delta: _,
            placement: _,
            by_name: _,
        } = self;
    }
}

impl Objects {
    /// Makes what the node with this number keeps before it has heard of any object. It allocates no memory.
    ///
    /// `delta` is the number of finalized versions of which the node's banks keep pieces, besides the newest; without
    /// it they keep all pieces. `placement` gives each name the layout that its object has before any move.
    pub fn new(alloc: Global, number: u8, delta: Option<u32>, placement: ClusterNodes) -> Objects
        ensures number { result.number ≡ number }
        ensures delta { result.delta ≡ delta }
        ensures placement { result.placement ≡ placement }
        ensures objects { (name : List ℕ)
            → objects_of result name ≡ new_local number delta (placed placement name) }
    {
        Objects {
            alloc,
            number,
            delta,
            placement: Placing::new(alloc, placement),
            by_name: IndexMap::new(alloc),
        }
    }

    // The object of a name, as it is before the node has heard of it.
    fn new_object(&self, name: &Bytes) -> Result<LocalObject, Refusal>
        ensures new { IfOk result (λ local. local ≡ new_of self.now name.now) }
        ensures refused { IfErr result (λ e. e ≡ NoMemory) }
    {
        LocalObject::new(self.alloc, self.number, self.delta, self.first_layout(name))
    }

    /// If the object of a name is not in the map, its layout is remembered, so that the next functions need not compute
    /// it.
    ///
    /// `NoMemory` is the only refusal.
    pub(crate) fn expect(&mut self, name: &Bytes) -> Result<(), Refusal>
        ensures same { self.new ≡ self.old }
        ensures refused { IfErr result (λ e. e ≡ NoMemory) }
    {
        if self.by_name.contains_key(name) {
            return Ok(());
        }
        self.placement.remember(name)
    }

    // The object of a name is in the map. Where it was not, it is a new one.
    fn hear_of(&mut self, name: &Bytes) -> Result<(), Refusal>
        ensures there { OnOk result (IsSome (get (pointwise nat_eq) self.new.by_name name.now)) }
        ensures same { OnOk result (AreSame self.old self.new) }
        ensures absent { OnErr result (get (pointwise nat_eq) self.old.by_name name.now ≡ None) }
        ensures refused { IfErr result (λ e. e ≡ NoMemory) }
    {
        if self.by_name.contains_key(name) {
            return Ok(());
        }
        self.placement.remember(name)?;
        let object = self.new_object(name)?;
        self.add(name.clone()?, object)
    }

    // If the object of a name equals a new one, it is not in the map.
    fn forget_new(&mut self, name: &Bytes)
        ensures same { AreSame self.old self.new }
        ensures spared { IsAbsentIfNew self.new name.now }
    {
        if self.is_new(name) {
            let _forgotten = self.by_name.swap_remove(name);
        }
    }

    // Does what `forget_new` does. `may_be_new` is true if the map has the object of the name, and it equals a new one.
    fn forget_if_new(&mut self, name: &Bytes, may_be_new: bool)
        requires { IsToldIfNew self.old name.now may_be_new }
        ensures same { AreSame self.old self.new }
        ensures spared { IsAbsentIfNew self.new name.now }
    {
        if may_be_new {
            self.forget_new(name);
        }
    }

    // Whether the object of a name is in the map, and equals a new one.
    fn is_new(&self, name: &Bytes) -> bool
        ensures new { (local : LocalObject) → get (pointwise nat_eq) self.now.by_name name.now ≡ Some local
            → (result ≡ true) ↔ (local ≡ new_of self.now name.now) }
        ensures there { result ≡ true → IsSome (get (pointwise nat_eq) self.now.by_name name.now) }
    {
        match self.by_name.get(name) {
            Some(object) => {
                may_be_new(object)
                    && object.is_new(self.number, self.delta, &self.first_layout(name))
            }
            None => false,
        }
    }

    // The object of a name that is not in the map is in it, as a new one.
    fn add(&mut self, name: Bytes, object: LocalObject) -> Result<(), Refusal>
        requires absent { get (pointwise nat_eq) self.old.by_name name ≡ None }
        requires new { object ≡ new_of self.old name }
        ensures there { OnOk result (IsSome (get (pointwise nat_eq) self.new.by_name name)) }
        ensures same { OnOk result (AreSame self.old self.new) }
        ensures refused { IfErr result (λ e. e ≡ NoMemory) }
    {
        self.by_name.insert(name, object)?;
        Ok(())
    }
}

// Whether an object may equal a new one: no call of it is open here, and its first position has no bank. This is quick,
// whereas the layout of position 0 is a hash of the name.
fn may_be_new(object: &LocalObject) -> bool
    ensures { (number : ℕ) (delta : Option ℕ) (first : Layout) → object.now ≡ new_local number delta first
        → result ≡ true }
{
    if object.open_calls() > 0 {
        return false;
    }
    match object.places() {
        [place] => place.bank().is_none(),
        _ => false,
    }
}
