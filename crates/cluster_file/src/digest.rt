//! The digest of the settings that may not change.
ghost use Rattle.std.specs.Prelude.{◌≡◌, ◌++◌, ℕ, List, take};
ghost use Rattle.sha2.specs.Hashers.{Holds256};
ghost use Rattle.cluster_file.specs.Digest.{delta_bytes, fixed_digest};
ghost use Rattle.cluster_file.specs.Gives.{shown};

use crate::file::{DIGEST_LENGTH, Fixed};
use sha2::{Digest, Sha256};

/// Returns the first 16 bytes of the SHA-256 digest of k, n and the mover, as a byte each, the delta, and the nodes.
pub(crate) fn fixed_digest(fixed: &Fixed) -> [u8; DIGEST_LENGTH]
    ensures { result ≡ fixed_digest (shown fixed.now) }
{
    let mut hasher = Sha256::new();
    hasher.update(&[fixed.k, fixed.n, fixed.mover]);
    hash_delta(&mut hasher, fixed.delta);
    hasher.update(&fixed.nodes);
    first_sixteen(&hasher.finalize())
}

// Feeds the hasher with 0, or with 1 and the number.
fn hash_delta(hasher: &mut Sha256, delta: Option<u32>)
    ensures { (before : List ℕ) → Holds256 hasher.old before → Holds256 hasher.new (before ++ delta_bytes delta) }
{
    match delta {
        None => hasher.update(&[0]),
        Some(delta) => {
            hasher.update(&[1]);
            hasher.update(&delta.to_be_bytes());
        }
    }
}

// The first 16 bytes of a digest.
fn first_sixteen(digest: &[u8; 32]) -> [u8; DIGEST_LENGTH]
    ensures { result ≡ take 16 digest.now }
{
    let Some(first) = digest.first_chunk::<DIGEST_LENGTH>() else {
        unreachable!()
    };
    *first
}
