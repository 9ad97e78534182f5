// Searches over the segments of an object. Each walks the records once, or until no later one can count, and takes the left halfsegments.
ghost use Rattle.std.specs.Prelude.{◌≡◌, Bool, ◌*◌, ◌≤◌, T};
ghost use Rattle.whole.specs.Count.{count};
ghost use Rattle.plane.specs.Plane.{limit, within, segment_in_range, ordered, halved, midpoint, counts_below, touch};
ghost use Rattle.scene.specs.Conditions.{has_segments, segments};
ghost use Rattle.scene_segments.specs.Walked.{left_with, beyond, is_below, TakesSegments, Tests, touches_from, count_below};
ghost use Rattle.plane.specs.declared.Segment.{Segment};

use crate::{Object, apart};
use plane::{Halfsegment, Point, Segment};

// ---- the tests on one halfsegment: it is a left one, and its segment passes

// Does it begin right of t's end?
fn is_beyond(h: Halfsegment, t: Segment) -> bool
    ensures { result ≡ left_with (beyond t) h }
{
    h.is_left && t.right.x < h.segment.left.x
}

fn is_touched(t: Segment, u: Segment) -> bool
    requires { T (segment_in_range t) × T (ordered t) × T (segment_in_range u) × T (ordered u) }
    ensures { result ≡ touch t u }
{
    !apart::are_apart(t, u) && plane_segments::touches(t, u)
}

fn is_left_touched(h: Halfsegment, t: Segment) -> bool
    requires { T (segment_in_range t) × T (ordered t) × T (segment_in_range h.segment) × T (ordered h.segment) }
    ensures { result ≡ left_with (touch t) h }
{
    h.is_left && is_touched(t, h.segment)
}

// Does u count for the ia of t, the doubled coordinates of whose midpoint are m's?
pub fn is_below(u: Segment, t: Segment, m: Point) -> bool
    requires { T (segment_in_range u) × T (within (2 * limit) m) × (halved m ≡ midpoint t) }
    ensures { result ≡ is_below t u }
{
    if t.left.x == t.right.x {
        plane_segments::counts_below_left(u, m)
    } else {
        plane_segments::counts_below(u, m)
    }
}

fn is_left_below(h: Halfsegment, t: Segment, m: Point) -> bool
    requires { T (segment_in_range h.segment) × T (within (2 * limit) m) × (halved m ≡ midpoint t) }
    ensures { result ≡ left_with (is_below t) h }
{
    h.is_left && is_below(h.segment, t, m)
}

// ---- the searches

impl<'a> Object<'a> {
    // Does t touch a segment, by its left halfsegments from the element k on? The search ends where one begins right of t's end.
    pub fn touches_from(self, t: Segment, k: usize) -> bool
        requires { T (segment_in_range t) × T (ordered t) × (k ≤ self.layout.count) }
        ensures { result ≡ touches_from self.entry.bytes.now self.entry.layout t k }
    {
        if !self.has_segments() {
            return false;
        }
        for i in k..self.layout.count {
            if !self.is_left(i) {
                continue;
            }
            let h = self.half(i);
            if is_beyond(h, t) {
                return false;
            }
            if is_left_touched(h, t) {
                return true;
            }
        }
        false
    }

    // How many segments pass a test?
    fn count<F: Fn(Segment) -> bool>(self, test: F) -> usize
        requires { TakesSegments (F.pre test) }
        ensures { (passes : Segment → Bool) → Tests (F.post test) passes → result ≡ count passes (segments self.entry.bytes.now self.entry.layout) }
    {
        if !self.has_segments() {
            return 0;
        }
        let mut n = 0;
        for i in 0..self.layout.count {
            let h = self.half(i);
            if h.is_left && test(h.segment) {
                n += 1;
            }
        }
        n
    }

    // How many segments count below the point whose doubled coordinates are m's?
    pub fn count_below(self, m: Point) -> usize
        requires { T (within (2 * limit) m) }
        ensures { result ≡ count (counts_below (halved m)) (segments self.entry.bytes.now self.entry.layout) }
    {
        self.count(|t| plane_segments::counts_below(t, m))
    }

    // How many segments count for the ia of t? The search ends where one begins right of t's end.
    // Kept beside `touches_from`, which ends there too: that one answers at the first segment, and this one counts.
    pub fn count_for_ia(self, t: Segment) -> usize
        requires { T (has_segments self.layout.shape) × T (segment_in_range t) }
        ensures { result ≡ count_below self.entry.bytes.now self.entry.layout t }
    {
        let m = plane_segments::doubled_midpoint(t);
        let mut n = 0;
        for i in 0..self.layout.count {
            let h = self.half(i);
            if is_beyond(h, t) {
                return n;
            }
            n += is_left_below(h, t, m) as usize;
        }
        n
    }
}
