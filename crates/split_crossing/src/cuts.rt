// The cuts of a segment by another one, and whether the two cross off the grid. Nearly every pair of two objects' segments has no cut: four products tell that.
ghost use Rattle.std.specs.Prelude.{◌≡◌, ◌+◌, ◌≤◌, ◌++◌, T};
ghost use Rattle.arrayvec.specs.ArrayVec.{array_vec_len};
ghost use Rattle.plane.specs.Plane.{in_range, segment_in_range, side, opposite, end_within};
ghost use Rattle.split_crossing.specs.Crossing.{crossing_of, crosses_off};
ghost use Rattle.split_crossing.specs.Steps.{BySteps};
ghost use Rattle.split_crossing.specs.Cuts.{point_if, crossing_point, cuts_by};

use crate::{Crossing, Stepped, are_opposite};
use arrayvec::ArrayVec;
use plane::{Point, Segment};

// The cuts of one segment, in the order in which they are found: three at most by each of the other object.
pub type Cuts = ArrayVec<Point, 3072>;

impl Stepped {
    // Is p strictly inside it, by its side value?
    // Kept beside `has_within` of `plane_segments`, which asks a turn of 32-bit products: here the side value is known.
    #[inline(always)]
    fn has_inside(self, p: Point, value: i64) -> bool
        requires { value ≡ side self.segment.left self.next p }
        ensures { result ≡ end_within self.segment p }
    {
        value == 0 && self.segment.left < p && p < self.segment.right
    }

    // Puts p to its cuts, if it lies strictly inside.
    #[inline(always)]
    fn put_end(self, found: &mut Cuts, p: Point, value: i64)
        requires { (value ≡ side self.segment.left self.next p) × (array_vec_len found.old + 1 ≤ 3072) }
        ensures { found.new.items ≡ found.old.items ++ point_if (end_within self.segment p) p }
    {
        if self.has_inside(p, value) {
            found.push(p);
        }
    }

    // Puts where it crosses t to them. Is that off the grid?
    #[inline(always)]
    fn put_crossing(self, found: &mut Cuts, t: Segment, left: i64, right: i64) -> bool
        requires { T (segment_in_range t) × BySteps self.segment self.next t left right × T (opposite left right) × (array_vec_len found.old + 1 ≤ 3072) }
        ensures { (result ≡ crosses_off self.segment t) × (found.new.items ≡ found.old.items ++ crossing_point (crossing_of self.segment t)) }
    {
        match self.crossing_by(t, left, right) {
            Crossing::Apart => false,
            Crossing::OffGrid => true,
            Crossing::At(c) => {
                found.push(c);
                false
            }
        }
    }

    // Puts all its cuts by t to them. Do the two cross off the grid?
    // Kept with no quick test before, of boxes or of widths: the loops over all pairs were slower with one where it matters.
    #[inline(always)]
    pub fn put_cuts(self, found: &mut Cuts, t: Segment) -> bool
        requires { T (segment_in_range t) × (array_vec_len found.old + 3 ≤ 3072) }
        ensures { (result ≡ crosses_off self.segment t) × (found.new.items ≡ found.old.items ++ cuts_by self.segment t) }
    {
        let left = self.side_of(t.left);
        if left == 0 {
            self.put_end(found, t.left, left);
            self.put_end(found, t.right, self.side_of(t.right));
            return false;
        }
        let right = self.side_of(t.right);
        if are_opposite(left, right) {
            return self.put_crossing(found, t, left, right);
        }
        self.put_end(found, t.right, right);
        false
    }
}
