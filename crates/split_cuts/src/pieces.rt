// The pieces of an object's segments, one after the other, each from a cut to the next.
ghost use Rattle.std.specs.Prelude.{◌&&◌, ◌≡◌, ◌<◌, ◌≤◌, [], ◌∷◌, ◌++◌, ◌+◌, length, MatchResult};
ghost use Rattle.arrayvec.specs.ArrayVec.{array_vec_len};
ghost use Rattle.plane.specs.Plane.{before};
ghost use Rattle.split_pieces.specs.Pieces.{between, next_cut, pieces_from};
ghost use Rattle.split_cuts.specs.Listed.{segments_of};
ghost use Rattle.split_cuts.specs.Split.{with_ia, split_pieces, most_pieces};

use crate::{Piece, Segments};
use arrayvec::ArrayVec;
use plane::{Point, Segment};
use split_crossing::cuts::Cuts;

// An object that is written has no more elements than one that is read, two for each segment.
pub const MOST: usize = 512;

pub type Pieces = ArrayVec<Piece, MOST>;

/// There is no room for all pieces of an object.
#[derive(Clone, Copy)]
pub struct TooMany;

// Does c come after p and before q?
#[tactic(auto, unfolding(plane::specs::Plane::before))]
fn is_between(c: Point, p: Point, q: Point) -> bool
    ensures { result ≡ (before p c && before c q) }
{
    p < c && c < q
}

// The first cut after p, or r if none comes before r.
fn next_cut(cuts: &[Point], p: Point, r: Point) -> Point
    ensures { result ≡ next_cut cuts.now p r }
{
    let mut q = r;
    for &c in cuts {
        if is_between(c, p, q) {
            q = c;
        }
    }
    q
}

// Puts the piece of a segment from p to q to those before.
fn put(row: &mut Pieces, p: Point, q: Point, ia: bool) -> Result<(), TooMany>
    ensures { MatchResult result (λ _. row.new.items ≡ row.old.items ++ record { segment = between p q; ia = ia } ∷ []) (λ _. array_vec_len row.old ≡ most_pieces) }
{
    if row.is_full() {
        return Err(TooMany);
    }
    row.push(Piece {
        segment: Segment { left: p, right: q },
        ia,
    });
    Ok(())
}

// Puts the pieces of a segment, which have its ia: up to each cut, and from the last one on.
pub fn put_pieces(row: &mut Pieces, cuts: &[Point], whole: Piece) -> Result<(), TooMany>
    ensures { MatchResult result
        (λ _. row.new.items ≡ row.old.items ++ with_ia whole.ia (pieces_from (length cuts.now) cuts.now whole.segment.left whole.segment.right))
        (λ _. most_pieces < array_vec_len row.old + length (pieces_from (length cuts.now) cuts.now whole.segment.left whole.segment.right)) }
{
    let right = whole.segment.right;
    let mut p = whole.segment.left;
    for _ in 0..cuts.len() {
        let q = next_cut(cuts, p, right);
        if q == right {
            return put(row, p, right, whole.ia);
        }
        put(row, p, q, whole.ia)?;
        p = q;
    }
    put(row, p, right, whole.ia)
}

impl<'a> Segments<'a> {
    // All pieces of them, split by the other ones.
    pub fn split(self, other: Segments<'_>) -> Result<Pieces, TooMany>
        ensures { MatchResult result
            (λ row. row.items ≡ split_pieces (segments_of other.entry.list.now) self.entry.list.now)
            (λ _. most_pieces < length (split_pieces (segments_of other.entry.list.now) self.entry.list.now)) }
    {
        let mut row = Pieces::new();
        let mut found = Cuts::new();
        for &whole in self.list {
            other.cuts_of(whole.segment, &mut found);
            put_pieces(&mut row, found.as_slice(), whole)?;
        }
        Ok(row)
    }
}
