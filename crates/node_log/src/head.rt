//! The head of an entry, which says where the entry ends.
ghost use Rattle.std.specs.Prelude.{◌≡◌, ◌<◌, ◌^◌, ◌↔◌, ◌++◌, ℕ, List, IsTrue, MatchOption, length, take};
ghost use Rattle.node_log.specs.Entry.{described, digest_behind, digest_of, digest_in, IsHead, IsOldHead, length_in};

use crate::chain::Chain;
use crate::digest::digest_of;

/// The number of bytes of a head: one for the form, seven for the length of the body, four for its digest, and four for
/// the digest of these twelve, which goes on from the head before.
pub const HEAD_LENGTH: usize = 16;

/// The number of bytes in which a head says what it says.
pub(crate) const SAYS_LENGTH: usize = 12;

// The form of entries, which is the first byte of each head.
const FORM: u64 = 5;

// The number that the first byte of eight counts.
const FORM_UNIT: u64 = 0x0100_0000_0000_0000;

/// What a head says of a body of so many bytes, which has this digest.
pub(crate) fn described(count: u64, digest: [u8; 4]) -> [u8; SAYS_LENGTH]
    requires { count < 2 ^ 56 }
    ensures { (body : List ℕ) → count ≡ length body → digest ≡ digest_of body → result ≡ described body }
{
    let [a, b, c, d, e, f, g, h] = (FORM * FORM_UNIT + count).to_be_bytes();
    let [i, j, k, l] = digest;
    [a, b, c, d, e, f, g, h, i, j, k, l]
}

/// The head that says this, behind a chain.
pub(crate) fn head_behind(chain: Chain, says: &[u8; SAYS_LENGTH]) -> [u8; HEAD_LENGTH]
    ensures { result ≡ says.now ++ digest_behind chain.state says.now }
{
    let [a, b, c, d, e, f, g, h, i, j, k, l] = *says;
    let [m, n, o, p] = chain.digest_behind(says);
    [a, b, c, d, e, f, g, h, i, j, k, l, m, n, o, p]
}

/// The length of the body as its head says, or none where the head is of another form, or has no right digest behind
/// this chain.
pub(crate) fn length_in(chain: Chain, head: &[u8; HEAD_LENGTH]) -> Option<u64>
    ensures { MatchOption result (IsHead chain.state head.now → ⊥)
        (λ length. IsHead chain.state head.now × (length ≡ length_in head.now)) }
{
    let number = u64::from_be_bytes(first_eight(head));
    if number / FORM_UNIT != FORM {
        return None;
    }
    if chain.digest_behind(&head[..12]).as_slice() == &head[12..] {
        Some(number % FORM_UNIT)
    } else {
        None
    }
}

/// Whether these first bytes of a log are the first head of an older form.
pub fn is_old_head(head: &[u8; HEAD_LENGTH]) -> bool
    ensures { IsTrue result ↔ IsOldHead head.now }
{
    let number = u64::from_be_bytes(first_eight(head));
    if number / FORM_UNIT >= FORM {
        return false;
    }
    digest_of(&head[..12]).as_slice() == &head[12..]
}

/// Whether the body has the digest that its head says.
pub(crate) fn has_digest(head: &[u8; HEAD_LENGTH], body: &[u8]) -> bool
    ensures { IsTrue result ↔ (digest_of body.now ≡ digest_in head.now) }
{
    digest_of(body).as_slice() == &head[8..12]
}

// The first eight bytes of a head.
fn first_eight(head: &[u8; HEAD_LENGTH]) -> [u8; 8]
    ensures { result ≡ take 8 head.now }
{
    let Some(first) = head.first_chunk::<8>() else {
        unreachable!()
    };
    *first
}

/// What a head says.
pub(crate) fn said_in(head: &[u8; HEAD_LENGTH]) -> [u8; SAYS_LENGTH]
    ensures { result ≡ take 12 head.now }
{
    let Some(first) = head.first_chunk::<12>() else {
        unreachable!()
    };
    *first
}
