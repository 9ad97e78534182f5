// What is asked of segments, each test proved equal to its definition in plane's Plane.antt: the order of halfsegments, "on", "counts below"
// and the touch test.
#![tactic(auto)]

ghost use Rattle.std.specs.Prelude.{◌≡◌, ◌||◌, ◌*◌, T, pos, ◌+ℤ◌};
ghost use Rattle.std.specs.Int.Signed.{lt_z};
ghost use Rattle.plane.specs.declared.Point.{Point};
ghost use Rattle.plane.specs.Plane.{limit, within, in_range, segment_in_range, side, turned, dominating, far_end, comes_before};
ghost use Rattle.plane.specs.Plane.{grid, halved, midpoint, on, is_end, counts_below, counts_below_left, opposite, cross, end_within, touch};

use plane::{Halfsegment, Point, Segment, Turn};

#[tactic(auto, unfolding(plane::specs::Plane::dominating))]
pub fn dominating_point(h: Halfsegment) -> Point
    ensures { result ≡ dominating h }
{
    if h.is_left {
        h.segment.left
    } else {
        h.segment.right
    }
}

// It dominates the other halfsegment.
#[tactic(auto, unfolding(plane::specs::Plane::dominating, plane::specs::Plane::far_end))]
pub fn far_end(h: Halfsegment) -> Point
    ensures { result ≡ far_end h }
{
    dominating_point(h.other())
}

// The way that h's segment turns, from its left end through its right end, towards what is left of the ray from h's dominating point through its far end.
fn left_way(h: Halfsegment) -> Turn
    ensures { (q : Point) → turned result (side h.segment.left h.segment.right q) ≡ lt_z (pos 0) (side (dominating h) (far_end h) q) }
{
    if h.is_left { Turn::Left } else { Turn::Right }
}

// A function and no `Ord` of halfsegments: it asks that their ends are in range, and a `cmp` can ask nothing.
// The turn is asked of h's segment from left to right, and not of the ray: the box tells it then at right halfsegments too.
pub fn comes_before(h: Halfsegment, k: Halfsegment) -> bool
    requires { T (segment_in_range h.segment) × T (segment_in_range k.segment) }
    ensures { result ≡ comes_before h k }
{
    let p = dominating_point(h);
    let q = dominating_point(k);
    if p != q {
        p < q
    } else if h.is_left != k.is_left {
        k.is_left
    } else {
        plane::turns(h.segment.left, h.segment.right, far_end(k), left_way(h))
    }
}

pub fn is_on(s: Segment, p: Point) -> bool
    requires { T (segment_in_range s) × T (in_range p) }
    ensures { result ≡ on s (grid p) }
{
    plane::turns(s.left, s.right, p, Turn::Straight) && s.left <= p && p <= s.right
}

#[tactic(auto, using(plane::proofs::Compared::same_points, plane::proofs::Grid::end_grid))]
pub fn is_end(s: Segment, p: Point) -> bool
    ensures { result ≡ is_end s (grid p) }
{
    s.left == p || s.right == p
}

fn sum(p: Point, q: Point) -> Point
    requires { T (in_range p) × T (in_range q) }
    ensures { (result.x ≡ p.x +ℤ q.x) × (result.y ≡ p.y +ℤ q.y) × T (within (2 * limit) result) }
{
    Point {
        x: p.x + q.x,
        y: p.y + q.y,
    }
}

// A grid point by its doubled coordinates.
pub fn doubled(p: Point) -> Point
    requires { T (in_range p) }
    ensures { (result.x ≡ p.x +ℤ p.x) × (result.y ≡ p.y +ℤ p.y) × T (within (2 * limit) result) }
{
    sum(p, p)
}

// A midpoint by its doubled coordinates.
pub fn doubled_midpoint(s: Segment) -> Point
    requires { T (segment_in_range s) }
    ensures { (halved result ≡ midpoint s) × T (within (2 * limit) result) }
{
    sum(s.left, s.right)
}

// Does s count below the point whose doubled coordinates are m's?
// Kept beside `counts_below_left`: they differ in which of the two ends' tests takes an equal x, and one function with a flag would say no more.
pub fn counts_below(s: Segment, m: Point) -> bool
    requires { T (segment_in_range s) × T (within (2 * limit) m) }
    ensures { result ≡ counts_below (halved m) s }
{
    let left = doubled(s.left);
    let right = doubled(s.right);
    left.x <= m.x && m.x < right.x && plane::turns(left, right, m, Turn::Left)
}

// Does it count below the points just left of that one?
pub fn counts_below_left(s: Segment, m: Point) -> bool
    requires { T (segment_in_range s) × T (within (2 * limit) m) }
    ensures { result ≡ counts_below_left (halved m) s }
{
    let left = doubled(s.left);
    let right = doubled(s.right);
    left.x < m.x && m.x <= right.x && plane::turns(left, right, m, Turn::Left)
}

// Does the line through s have p and q strictly on opposite sides?
// Kept as three arms, and no match of both turns: where p is on that line, as an end that two segments share is, the second turn is not asked. Measured on
// `touches` of random segments, of which every second pair shares an end: a match of both takes 7 in 100 more instructions.
fn separates(s: Segment, p: Point, q: Point) -> bool
    requires { T (segment_in_range s) × T (in_range p) × T (in_range q) }
    ensures { result ≡ opposite (side s.left s.right p) (side s.left s.right q) }
{
    match plane::turn_from(s.left, s.right, p) {
        Turn::Left => plane::turns(s.left, s.right, q, Turn::Right),
        Turn::Straight => false,
        Turn::Right => plane::turns(s.left, s.right, q, Turn::Left),
    }
}

#[tactic(auto, unfolding(plane::specs::Plane::cross))]
fn crosses(s: Segment, t: Segment) -> bool
    requires { T (segment_in_range s) × T (segment_in_range t) }
    ensures { result ≡ cross s t }
{
    separates(s, t.left, t.right) && separates(t, s.left, s.right)
}

// Is p on s and no end of it?
#[tactic(auto, unfolding(plane::specs::Plane::end_within))]
fn has_within(s: Segment, p: Point) -> bool
    requires { T (segment_in_range s) × T (in_range p) }
    ensures { result ≡ end_within s p }
{
    is_on(s, p) && !is_end(s, p)
}

fn has_end_within(s: Segment, t: Segment) -> bool
    requires { T (segment_in_range s) × T (segment_in_range t) }
    ensures { result ≡ (end_within s t.left || end_within s t.right) }
{
    has_within(s, t.left) || has_within(s, t.right)
}

// Do s and t, if they are not the same, share a point that is not an end of both?
#[tactic(auto, unfolding(plane::specs::Plane::touch), using(plane::proofs::Compared::same_segments))]
pub fn touches(s: Segment, t: Segment) -> bool
    requires { T (segment_in_range s) × T (segment_in_range t) }
    ensures { result ≡ touch s t }
{
    s != t && (crosses(s, t) || has_end_within(s, t) || has_end_within(t, s))
}
