ghost use Rattle.std.specs.Prelude.{◌≡◌, ◌==◌, ◌<◌, ◌≤◌, ◌↔◌, length, nat_eq, position, slice_index, IsOk, IfOk, IfErr};
ghost use Rattle.std.specs.Prelude.{IfSome, IsTrue};
ghost use Rattle.std.specs.List.{IsDistinct};
ghost use Rattle.tag.specs.declared.refusal.Refusal.TheVariants.{BadLayout};
ghost use Rattle.layout.specs.Layout.{IsLawful, quorum_of};
ghost use Rattle.layout.specs.Quorum.{QuorumsShare};

use crate::MemberSet;
use arrayvec::ArrayVec;
use std::alloc::AllocError;
use std::marker::Model;
use tag::{MOST_MEMBERS, Refusal};

/// A layout: which servers keep the fragments of a value, and `k`, the number of fragments that give the value back.
/// Its n members are numbered from 0, and a member's number is the point of its fragments.
#[derive(Debug, PartialEq, Eq)]
pub struct Layout {
    k: u8,
    // The servers, by member number.
    members: ArrayVec<u8, MOST_MEMBERS>,
}

impl Drop for Layout {
    fn drop(self) {
        let Self { k: _, members: _ } = self;
    }
}

impl Model for Layout {
    ghost use Rattle.layout.specs.Layout.{Layout as Arrangement, IsLawful};

    ghost Value = { Arrangement };

    ghost view = { λ l. record { k = l.k; members = l.members.items } };

    ghost invariant = { λ l. IsLawful (record { k = l.k; members = l.members.items }) };

    ghost inverse = { λ a. record { k = a.k; members = record { items = a.members } } };
}

impl Layout {
    /// Makes a layout of the given servers, in the order of their points. Any `k` fragments give a value back.
    ///
    /// Is refused with `BadLayout` unless `1 <= k <= n <= MOST_MEMBERS`, where `n` is the number of servers, and no
    /// server is named twice.
    pub fn new(k: u8, members: &[u8]) -> Result<Layout, Refusal>
        ensures made { IfOk result (λ l. l ≡ record { k = k; members = members.now }) }
        ensures lawful { IsOk result ↔ IsLawful (record { k = k; members = members.now }) }
        ensures refused { IfErr result (λ r. r ≡ BadLayout) }
    {
        let Ok(listed) = ArrayVec::try_from(members) else {
            return Err(Refusal::BadLayout);
        };
        if k == 0 || members.len() < usize::from(k) || !are_distinct(members) {
            return Err(Refusal::BadLayout);
        }
        Ok(Layout { k, members: listed })
    }

    /// Returns how many fragments give a value back: from 1 to n.
    pub fn k(&self) -> u8
        ensures value { result ≡ self.now.k }
        ensures lawful { IsLawful self.now }
    {
        self.k
    }

    /// Returns how many members there are: from k to `MOST_MEMBERS`.
    pub fn n(&self) -> u8
        ensures value { result ≡ length self.now.members }
        ensures lawful { IsLawful self.now }
    {
        self.members.len() as u8
    }

    /// Returns the least size of a quorum: half of n + k, rounded up, so that any two quorums have at least `k` members
    /// in common (Cadambe, Lynch, Médard and Musial, 2014).
    pub fn quorum(&self) -> u8
        ensures value { result ≡ quorum_of self.now }
        ensures some { 1 ≤ result }
        ensures within { result ≤ length self.now.members }
    {
        (self.members.len() + usize::from(self.k)).div_ceil(2) as u8
    }

    /// Returns the server that is member `i`, from 0.
    pub fn member(&self, i: u8) -> u8
        requires { i < length self.now.members }
        ensures { result ≡ slice_index self.now.members i }
    {
        self.members[usize::from(i)]
    }

    /// Returns the point of the fragments that `server` keeps, which is its member number, from 0, or none if it is not
    /// a member.
    pub fn point_of(&self, server: u8) -> Option<u8>
        ensures { result ≡ position (λ m. m == server) self.now.members }
    {
        let place = place_of(&self.members, server)?;
        Some(place as u8)
    }
}

/// Returns the same layout. It allocates no memory and is never refused.
impl Clone for Layout {
    ghost use Rattle.std.specs.Prelude.{◌≡◌};

    ghost is_clone = { λ l m. m ≡ l };

    ghost is_infallible = { λ _. Unit {0} };

    fn clone(&self) -> Result<Layout, AllocError> {
        Ok(Layout {
            k: self.k,
            members: self.members.clone()?,
        })
    }
}

/// A law: any two quorums of a layout share `k` members. So if a quorum stored the fragments of a value, every other
/// quorum has enough of them to give the value back.
pub fn quorums_share()
    ensures { QuorumsShare }
{}

fn place_of(members: &[u8], server: u8) -> Option<usize>
    ensures place { result ≡ position (λ m. m == server) members.now }
    ensures within { IfSome result (λ i. i < length members.now) }
{
    members.iter().position(|m| *m == server)
}

// Whether no server is named twice in the list.
fn are_distinct(members: &[u8]) -> bool
    ensures { IsTrue result ↔ IsDistinct nat_eq members.now }
{
    let mut named = MemberSet::new();
    for member in members {
        named.insert(*member);
    }
    named.count() == members.len()
}
