//! Read access to an object.

ghost use Rattle.std.specs.Prelude.{◌≡◌, ◌↔◌, ◌-◌, ◌^◌, true, false, length, min};
ghost use Rattle.local_object.specs.Changing.{IsUnchangedBy, is_changed_by, bytes_at_places};
ghost use Rattle.local_object.specs.Doing.{is_moving, has_move_open};
ghost use Rattle.local_object.specs.Local.{new_local};
ghost use Rattle.local_object.specs.New.{is_new};

use crate::calls::is_move;
use crate::changes::changes;
use crate::{LocalObject, Place};
use layout::Layout;
use letter::Letter;
use tag::CallId;

impl LocalObject {
    /// Returns how many calls are open here.
    pub fn open_calls(&self) -> usize
        ensures { result ≡ length self.now.calls }
    {
        self.calls.len()
    }

    /// Returns whether a move is open here.
    pub fn is_moving(&self) -> bool
        ensures { result ≡ is_moving self.now }
    {
        self.calls.has_move()
    }

    /// Returns whether a move with this id is open here.
    pub fn is_open_move(&self, id: CallId) -> bool
        ensures { result ≡ has_move_open self.now id }
    {
        match self.calls.index_of(id) {
            Some(index) => is_move(self.calls.at(index)),
            None => false,
        }
    }

    /// Returns the object's start: the position at which calls begin here. At each position before it, the pointer is
    /// final at a quorum.
    pub fn start(&self) -> u32
        ensures { result ≡ self.now.start }
    {
        self.start
    }

    /// Returns the positions that the node has heard of, in the order in which it heard of them. Position 0 is among
    /// them.
    pub fn places(&self) -> &[Place]
        ensures { result.now ≡ self.now.places }
    {
        self.places.all()
    }

    /// Returns whether the object equals what `LocalObject::new` makes for this node, with this `delta` and this layout
    /// of position 0: calls begin at position 0, none is open here, the node has heard of no other position, and keeps
    /// no bank. It allocates no memory.
    pub fn is_new(&self, node: u8, delta: Option<u32>, first: &Layout) -> bool
        ensures { (result ≡ true) ↔ (self.now ≡ new_local node delta first.now) }
    {
        self.is_made_of(node, delta, first)
    }

    // Whether the object has this node, this `delta`, the start 0, no open call, no report, and no place but position 0
    // with this layout and without a bank.
    fn is_made_of(&self, node: u8, delta: Option<u32>, first: &Layout) -> bool
        ensures { result ≡ is_new self.now node delta first.now }
    {
        self.node == node
            && self.delta == delta
            && self.start == 0
            && self.open_calls() == 0
            && self.reports.is_empty()
            && self.places.are_new(first)
    }

    /// The number of bytes of all pieces in the node's banks, or `u64::MAX` if there are more. It takes time linear in
    /// the number of tags.
    pub fn bytes_stored(&self) -> u64
        ensures { result ≡ min (bytes_at_places self.now) (2 ^ 64 - 1) }
    {
        self.places.bytes()
    }

    /// Whether serving a letter may change more than what the node has heard of: the node serves the letter, and its
    /// request raises a pointer, brings a piece, or finalizes a tag that is not the greatest finalized one, or the
    /// letter tells of a later start. If it is false, the node hears at most of the layouts in the letter and of its
    /// start, and nothing else changes. It is also true of some requests that change nothing: a pre-write whose piece
    /// came before, and a request that finalizes a tag which is finalized already and not the greatest one.
    ///
    /// So a log need not have a letter for which this is false. A bank that is not there counts as a newly opened one.
    /// A node that has forgotten layouts hears of them again from other letters. Only the node that moves objects must
    /// forget none. It does not hear of layouts from letters: it made them all, and drops each letter with a layout
    /// that it does not know.
    pub fn is_changed_by(&self, letter: &Letter) -> bool
        ensures changed { result ≡ is_changed_by self.now letter.now }
        ensures unchanged { result ≡ false → IsUnchangedBy self.now letter.now }
    {
        if !self.is_served(letter) {
            return false;
        }
        let bank = self.places.bank_of(letter.message.position);
        changes(bank, &letter.message.body) || self.is_later_start_if(&letter.start)
    }
}
