//! The laws of the code: k fragments determine a value, and the fragments of the empty value are empty (Reed and
//! Solomon, 1960).
ghost use Rattle.std.specs.Prelude.{◌≡◌, ◌≤◌, ℕ, List, [], length, All};
ghost use Rattle.tag.specs.declared.limits.TheConstants.{LONGEST_VALUE, MOST_MEMBERS};
ghost use Rattle.gf256.specs.Polynomial.{AreBytes, AreDistinct};
ghost use Rattle.encoder.specs.Fragment.{fragment};

/// A law: two values of the same length whose fragments are the same at k distinct points are the same value.
pub fn fragments_determine_values()
    ensures { (k : ℕ) (points v w : List ℕ) → 1 ≤ k → k ≤ MOST_MEMBERS → length points ≡ k
        → AreDistinct points → AreBytes points → AreBytes v → AreBytes w
        → length v ≤ LONGEST_VALUE → length v ≡ length w
        → All (λ x. fragment v k x ≡ fragment w k x) points → v ≡ w }
{}

/// A law: each fragment of the empty value is empty.
pub fn empty_values_have_empty_fragments()
    ensures { (k x : ℕ) → fragment [] k x ≡ [] }
{}
