ghost use Rattle.std.specs.Prelude.{◌≡◌, not};
ghost use Rattle.std.specs.FinSet as set;

use std::marker::Model;

// One entry for each value of a `u8`.
const PLACES: usize = 256;

/// A set of numbers from 0 to 255, of members or servers, in an array of fixed size.
#[derive(Debug)]
pub struct MemberSet {
    // By member number, whether the member was inserted.
    present: [bool; PLACES],
    count: usize,
}

impl Drop for MemberSet {
    fn drop(self) {
        let Self {
            present: _,
            count: _,
        } = self;
    }
}

impl Model for MemberSet {
    ghost use Rattle.std.specs.Prelude.{◌≡◌, length};
    ghost use Rattle.std.specs.FinSet as set;
    ghost use Rattle.std.specs.Ordering.{nat_cmp};
    ghost use Rattle.std.specs.Coded.{coded_ℕ};
    ghost use Rattle.layout.specs.MemberSet.{marked};
    ghost use Rattle.layout.specs.declared.member_set.TheConstants.{PLACES};

    ghost Value = { set.FinSet nat_cmp };

    ghost coded = { set.code coded_ℕ };

    ghost view = { λ s. marked s.present };

    ghost invariant = { λ s. (s.count ≡ set.len (marked s.present)) × (length s.present ≡ PLACES) };
}

impl MemberSet {
    /// Makes the empty set.
    pub fn new() -> MemberSet
        ensures { result ≡ set.empty }
    {
        MemberSet {
            present: [false; PLACES],
            count: 0,
        }
    }

    /// Inserts `member`. Returns whether it was not in the set before.
    pub fn insert(&mut self, member: u8) -> bool
        ensures inserted { self.new ≡ set.insert self.old member }
        ensures was_new { result ≡ not (set.contains self.old member) }
    {
        let place = usize::from(member);
        if self.present[place] {
            return false;
        }
        self.present[place] = true;
        self.count += 1;
        true
    }

    /// Returns whether `member` is in the set.
    pub fn has(&self, member: u8) -> bool
        ensures { result ≡ set.contains self.now member }
    {
        self.present[usize::from(member)]
    }

    /// Returns the number of members in the set.
    pub fn count(&self) -> usize
        ensures { result ≡ set.len self.now }
    {
        self.count
    }
}

impl Default for MemberSet {
    ghost use Rattle.std.specs.Prelude.{◌≡◌};
    ghost use Rattle.std.specs.FinSet as set;

    ghost is_default = { λ s. s ≡ set.empty };

    fn default() -> MemberSet {
        MemberSet::new()
    }
}
