ghost use Rattle.std.specs.Prelude.{◌≡◌, ℕ, ◌<◌, ◌≤◌, ◌↔◌, [], length, slice_index_or, IsTrue, All};
ghost use Rattle.std.specs.Bool.{OnTrue};
ghost use Rattle.gf256.specs.Polynomial.{AreBytes, AreDistinct};
ghost use Rattle.kernels.specs.Dot.{bytes_of};
ghost use Rattle.piece.specs.declared.piece.Piece.{Piece as PieceOf};
ghost use Rattle.decoder.specs.Parts.{AreLawfulParts, pieces_at};
ghost use Rattle.decoder.specs.Pieces.{AreLawful, AreOfBytes, points_of};

use arrayvec::ArrayVec;
use piece::Piece;
use tag::{LONGEST_VALUE, MOST_MEMBERS};

/// Returns whether these are `k` pieces at distinct points, each of a value of `len` bytes, within the limits.
pub(crate) fn are_lawful(k: u8, len: u32, pieces: &[Piece]) -> bool
    ensures lawful { IsTrue result ↔ AreLawful k len pieces.now }
    // What the type of `pieces` says, for callers that hold no slice of their bytes.
    ensures bytes { OnTrue result (AreOfBytes pieces.now) }
{
    if k == 0
        || k as usize > MOST_MEMBERS
        || len as usize > LONGEST_VALUE
        || pieces.len() != k as usize
    {
        return false;
    }
    let fragment_len = (len as usize).div_ceil(k as usize);
    for piece in pieces {
        if !has_lens(piece, len, fragment_len) {
            return false;
        }
    }
    are_distinct(points(pieces).as_slice())
}

/// Returns whether the piece names this length of its value and has a fragment of that length.
fn has_lens(piece: &Piece, len: u32, fragment_len: usize) -> bool
    ensures lens { IsTrue result ↔ ((piece.now.len ≡ len) × (length piece.now.bytes ≡ fragment_len)) }
    ensures bytes { AreBytes piece.now.bytes }
{
    let bytes = piece.bytes.as_slice();
    piece.len == len && bytes.len() == fragment_len
}

/// Returns whether these are as many fragments as points, and `k` lawful pieces of a value of `len` bytes.
pub(crate) fn are_lawful_parts(k: u8, len: usize, points: &[u8], fragments: &[&[u8]]) -> bool
    ensures lawful { IsTrue result ↔ AreLawfulParts k len points.now (bytes_of fragments.now) }
    ensures bytes { OnTrue result (AreOfBytes (pieces_at len points.now (bytes_of fragments.now))) }
{
    if !are_counts_lawful(k, len, points.len(), fragments.len()) {
        return false;
    }
    if !have_len(fragments, len.div_ceil(k as usize)) {
        return false;
    }
    are_distinct(points)
}

/// Returns whether these are `k` points and `k` fragments, within the limits.
fn are_counts_lawful(k: u8, len: usize, points: usize, fragments: usize) -> bool
    ensures { IsTrue result ↔ ((1 ≤ k) × (len ≤ LONGEST_VALUE) × (points ≡ k) × (fragments ≡ k)) }
{
    k >= 1 && len <= LONGEST_VALUE && points == k as usize && fragments == k as usize
}

/// Returns whether each fragment has this length.
fn have_len(fragments: &[&[u8]], len: usize) -> bool
    ensures lens { IsTrue result ↔ ((i : ℕ) → i < length fragments.now
        → length (slice_index_or (bytes_of fragments.now) i []) ≡ len) }
    ensures bytes { OnTrue result ((i : ℕ) → i < length fragments.now
        → AreBytes (slice_index_or (bytes_of fragments.now) i [])) }
{
    for i in 0..fragments.len() {
        if !has_len(fragments[i], len) {
            return false;
        }
    }
    true
}

/// Returns whether the fragment has this length.
fn has_len(fragment: &[u8], len: usize) -> bool
    ensures len { IsTrue result ↔ (length fragment.now ≡ len) }
    ensures bytes { AreBytes fragment.now }
{
    fragment.len() == len
}

/// Sets the first of `fragments` to the fragments of the pieces.
pub(crate) fn fill_fragments<'a>(fragments: &mut [&'a [u8]], pieces: &'a [Piece])
    requires { length pieces.now ≤ length fragments.old }
    ensures { (i : ℕ) (d : PieceOf) → i < length pieces.now
        → slice_index_or (bytes_of fragments.new) i [] ≡ (slice_index_or pieces.now i d).bytes }
{
    for i in 0..pieces.len() {
        fragments[i] = pieces[i].bytes.as_slice();
    }
}

/// Returns the points of the pieces.
pub(crate) fn points(pieces: &[Piece]) -> ArrayVec<u8, MOST_MEMBERS>
    requires { length pieces.now ≤ MOST_MEMBERS }
    ensures points { result.items ≡ points_of pieces.now }
    ensures bytes { AreBytes result.items }
{
    let mut points = ArrayVec::new();
    for piece in pieces {
        points.push(piece.point);
    }
    points
}

/// Returns whether no two points are equal.
fn are_distinct(points: &[u8]) -> bool
    ensures distinct { IsTrue result ↔ AreDistinct points.now }
    ensures bytes { AreBytes points.now }
{
    for i in 0..points.len() {
        for j in 0..i {
            if points[j] == points[i] {
                return false;
            }
        }
    }
    true
}
