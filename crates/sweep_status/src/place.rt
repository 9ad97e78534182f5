// Where an event stands in the status, and whether its neighbours there let it in. Each function looks at a few entries only: that the others stand
// in order follows, since every two neighbours were tested when they became neighbours.
ghost use Rattle.std.specs.Prelude.{◌≡◌, true, not, ◌&&◌, ◌||◌, ◌<◌, ◌≤◌, T, length, get_or};
ghost use Rattle.whole.specs.Decides.{Decides};
ghost use Rattle.plane.specs.Plane.{in_range, segment_in_range, is_same_point, is_same_segment};
ghost use Rattle.scene.specs.Read.{segment_at};
ghost use Rattle.scene.proofs.Given.{GoodHalfsegment};
ghost use Rattle.sweep_laws.specs.Lower.{passes_under, passes_over, lower_at_right};
ghost use Rattle.sweep_laws.specs.Status.{AtPlace, BelowPlace};
ghost use Rattle.sweep_laws.specs.Event.{Place, Bracket, LowerNext, FitsOver, CanMeet};
ghost use Rattle.sweep_laws.specs.Held.{Readable};

use crate::owner;
use plane::{Point, Segment, Turn};
use scene::{Scene, bytes};

// ---- the tests of an entry, whose segment is u

#[tactic(auto, using(plane::proofs::Machine::turn_asks))]
fn is_under(u: Segment, p: Point) -> bool
    requires { T (segment_in_range u) × T (in_range p) }
    ensures { result ≡ passes_under u p }
{
    plane::turns(u.left, u.right, p, Turn::Left)
}

#[tactic(auto, using(plane::proofs::Machine::turn_asks))]
fn is_over(u: Segment, p: Point) -> bool
    requires { T (segment_in_range u) × T (in_range p) }
    ensures { result ≡ passes_over u p }
{
    plane::turns(u.left, u.right, p, Turn::Right)
}

// The same of a segment that may well begin or end at p: it passes through p then.
#[tactic(auto, using(plane::proofs::Machine::turn_asks))]
fn is_over_unless_end(u: Segment, p: Point) -> bool
    requires { T (segment_in_range u) × T (in_range p) }
    ensures { result ≡ passes_over u p }
{
    if u.left == p {
        return false;
    }
    if u.right == p {
        return false;
    }
    is_over(u, p)
}

// Does the box of its ends tell that p is above it?
fn is_told_under(u: Segment, p: Point) -> bool
    ensures { result ≡ true → passes_under u p ≡ true }
{
    matches!(plane::beside_box(u.left, u.right, p), Some(Turn::Left))
}

// Does it tell that p is below it?
fn is_told_over(u: Segment, p: Point) -> bool
    ensures { result ≡ true → passes_over u p ≡ true }
{
    matches!(plane::beside_box(u.left, u.right, p), Some(Turn::Right))
}

// Does the turn at the right end of one of the two tell that u is the lower?
// Kept out of `is_lower`, of which few come here: a call in it would have it save registers each time.
#[inline(never)]
fn is_lower_by_turns(u: Segment, t: Segment) -> bool
    requires { T (segment_in_range u) × T (segment_in_range t) }
    ensures { result ≡ (passes_under u t.right || passes_over t u.right) }
{
    is_under(u, t.right) || is_over(t, u.right)
}

// Is it the lower of itself and t at the right?
// Asked first is the one whose end lies within the width of the other: the box tells that, and of entries in order the answer is yes at once.
#[tactic(auto, using(plane::proofs::Compared::same_points))]
fn is_lower(u: Segment, t: Segment) -> bool
    requires { T (segment_in_range u) × T (segment_in_range t) }
    ensures { result ≡ lower_at_right u t }
{
    if u.right == t.right {
        return true;
    }
    if t.right.x <= u.right.x {
        if is_told_under(u, t.right) {
            return true;
        }
    } else if is_told_over(t, u.right) {
        return true;
    }
    is_lower_by_turns(u, t)
}

// Does it belong under t, which begins, and is it the lower of the two at the right? Own: it is of the same object.
// With a common left end one turn tells both.
#[tactic(auto, using(plane::proofs::Compared::same_points, plane::proofs::Compared::same_segments))]
fn is_lower_beginning(u: Segment, t: Segment, own: bool) -> bool
    requires { T (segment_in_range u) × T (segment_in_range t) }
    ensures { result ≡ ((passes_under u t.left || (is_same_point u.left t.left && passes_under u t.right) || (is_same_segment u t && not own)) && lower_at_right u t) }
{
    if u.left == t.left {
        if u.right == t.right {
            return !own;
        }
        return is_under(u, t.right);
    }
    is_under(u, t.left) && is_lower(u, t)
}

// ---- the entries

/// The entries of a status, from low to high, and the bytes in which their records stand.
#[derive(Clone, Copy)]
pub struct Entries<'a> {
    pub bytes: &'a [u8],
    pub offsets: &'a [u16],
    pub ghost readable: { Readable bytes.now offsets.now },
}

// With fewer entries than these, a search costs no more than a look at two places. With 32 in its place the calls took 1.02 times the instructions.
const FEW: usize = 8;

// Between which places one is looked for, from low to high.
#[derive(Clone, Copy)]
struct Span {
    low: usize,
    high: usize,
}

impl<'a> Entries<'a> {
    // The segment of the entry i.
    pub fn segment(self, i: usize) -> Segment
        requires { i < length self.offsets.now }
        ensures { (result ≡ segment_at self.entry.bytes.now (get_or self.entry.offsets.now i 0)) × T (segment_in_range result) }
    {
        bytes::segment(self.bytes, self.offsets[i] as usize)
    }

    // Does the entry i pass over p?
    fn is_over(self, i: usize, p: Point) -> bool
        requires { (i < length self.offsets.now) × T (in_range p) }
        ensures { result ≡ passes_over (segment_at self.entry.bytes.now (get_or self.entry.offsets.now i 0)) p }
    {
        is_over(self.segment(i), p)
    }

    // ---- a place for a point: the entry just below it does not pass over the point, and the one there does

    // A place for p from low to high, by halving. Where those that pass over p stand above all others, it is the first of them.
    // Kept as a loop: the entries need not be parted by p, and then std's partition_point says nothing of what it finds.
    fn search(self, p: Point, from: usize, to: usize) -> usize
        requires { T (in_range p) × Bracket self.bytes.now self.offsets.now p from to }
        ensures { Place self.entry.bytes.now self.entry.offsets.now p result }
    {
        let mut low = from;
        let mut high = to;
        while low < high {
            let middle = low + (high - low) / 2;
            if self.is_over(middle, p) {
                high = middle;
            } else {
                low = middle + 1;
            }
        }
        high
    }

    // Where to look for a place for p, by a hint, the place of the event before: there and just above it are looked at first, since where several halfsegments
    // meet at a point, the next one is there.
    fn span_near(self, p: Point, hint: usize) -> Span
        requires { T (in_range p) }
        ensures { Bracket self.entry.bytes.now self.entry.offsets.now p result.low result.high }
    {
        let n = self.offsets.len();
        if n < FEW || n < hint {
            return Span { low: 0, high: n };
        }
        if hint != 0 && is_over_unless_end(self.segment(hint - 1), p) {
            return Span {
                low: 0,
                high: hint - 1,
            };
        }
        if hint == n || self.is_over(hint, p) {
            return Span {
                low: hint,
                high: hint,
            };
        }
        if hint + 1 == n || self.is_over(hint + 1, p) {
            return Span {
                low: hint + 1,
                high: hint + 1,
            };
        }
        Span {
            low: hint + 2,
            high: n,
        }
    }

    // A place for p, looked for first at a hint.
    // Kept with one search, from wherever the looks at the hint lead: with a search for each the calls took 1.02 times the instructions.
    pub fn find(self, p: Point, hint: usize) -> usize
        requires { T (in_range p) }
        ensures { Place self.entry.bytes.now self.entry.offsets.now p result }
    {
        let span = self.span_near(p, hint);
        self.search(p, span.low, span.high)
    }

    // ---- a place for a segment, and a place that falls free

    // Does the entry just below place k belong under the segment that begins, and is it the lower of the two at the right?
    pub fn fits_over(self, scene: Scene, first: bool, at: usize, k: usize) -> bool
        requires { GoodHalfsegment self.bytes.now at × (k ≤ length self.offsets.now) }
        ensures { Decides (BelowPlace self.entry.offsets.now k (FitsOver self.entry.bytes.now scene first at)) result }
    {
        if k == 0 {
            return true;
        }
        let own = first == owner::is_first(scene, self.offsets[k - 1] as usize);
        let u = self.segment(k - 1);
        let t = bytes::segment(self.bytes, at);
        is_lower_beginning(u, t, own)
    }

    // Is the segment that begins the lower of itself and the entry at place k at the right?
    pub fn fits_under(self, at: usize, k: usize) -> bool
        requires { GoodHalfsegment self.bytes.now at }
        ensures { Decides (AtPlace self.entry.offsets.now k (LowerNext self.entry.bytes.now at)) result }
    {
        if self.offsets.len() <= k {
            return true;
        }
        let t = bytes::segment(self.bytes, at);
        is_lower(t, self.segment(k))
    }

    // Where the entry at place k goes, is the one below it the lower of itself and the one above it at the right?
    pub fn can_meet(self, k: usize) -> bool
        requires { k < length self.offsets.now }
        ensures { Decides (CanMeet self.entry.bytes.now self.entry.offsets.now k) result }
    {
        if k == 0 {
            return true;
        }
        if k + 1 == self.offsets.len() {
            return true;
        }
        is_lower(self.segment(k - 1), self.segment(k + 1))
    }
}
