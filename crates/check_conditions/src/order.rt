// Condition 10: each element comes strictly after the one before. First of an object in one pass, where the offset runs along with the index and where a
// fault lies is not said; then as a test of one element, by its index, which finds the place.
ghost use Rattle.std.specs.Prelude.{◌≡◌, ◌+◌, ◌<◌, ◌≤◌, ◌^◌, ℕ, List, length};
ghost use Rattle.whole.specs.Decides.{Decides};
ghost use Rattle.plane.specs.Plane.{before, comes_before};
ghost use Rattle.scene.specs.Read.{point_at, halfsegment_at, size, after};
ghost use Rattle.scene.specs.Conditions.{is_in_order, is_misplaced, out_of_order};
ghost use Rattle.scene_segments.specs.Walked.{Readable};
ghost use Rattle.check_conditions.specs.Ordered.{AsksNeighbours, TellsOrder};

use scene::{Layout, Shape, bytes};
use scene_segments::Object;

// ---- the records at two offsets

#[tactic(auto, unfolding(plane::specs::Plane::before))]
fn are_points_in_order(s: &[u8], at: usize, next: usize) -> bool
    requires { (at + 9 ≤ length s.now) × (next + 9 ≤ length s.now) }
    ensures { result ≡ before (point_at s.now at) (point_at s.now next) }
{
    bytes::point(s, at) < bytes::point(s, next)
}

// Drawn into the loops, which so carry the record before along: as a call it took 1.015 times the instructions of a cells question.
#[inline(always)]
fn are_halves_in_order(s: &[u8], at: usize, next: usize) -> bool
    requires { Readable s.now at × Readable s.now next }
    ensures { result ≡ comes_before (halfsegment_at s.now at) (halfsegment_at s.now next) }
{
    plane_segments::comes_before(bytes::halfsegment(s, at), bytes::halfsegment(s, next))
}

// ---- an object in one pass

// Does each record come after the one before, by a test of the two at their offsets? A record takes `step` bytes: a literal at each call, so that the loop is
// compiled for each type.
fn ascends<F: Fn(usize, usize) -> bool>(l: Layout, step: usize, in_order: F) -> bool
    requires { (after l < 2 ^ 64) × (step ≡ size l.shape) × AsksNeighbours l (F.pre in_order) }
    ensures { (s : List ℕ) → TellsOrder l s (F.post in_order) → Decides (out_of_order s l ≡ None) result }
{
    let mut at = l.start + 2;
    for _ in 1..l.count {
        let next = at + step;
        if !in_order(at, next) {
            return false;
        }
        at = next;
    }
    true
}

pub fn is_ordered(o: Object<'_>) -> bool
    ensures { Decides (out_of_order o.entry.bytes.now o.entry.layout ≡ None) result }
{
    let s = o.bytes;
    let l = o.layout;
    match l.shape {
        Shape::Points => ascends(l, 9, |at, next| are_points_in_order(s, at, next)),
        Shape::Line => ascends(l, 18, |at, next| are_halves_in_order(s, at, next)),
        Shape::Region => ascends(l, 19, |at, next| are_halves_in_order(s, at, next)),
    }
}

// ---- one element

// Kept beside the pass: the pass asks the type once, this test at each element; and the pass does not know the index, which says the place.
#[tactic(auto, unfolding(plane::specs::Plane::before), using(scene_segments::proofs::Elements::order_of_points, scene_segments::proofs::Elements::order_of_halves))]
fn in_order(o: Object<'_>, i: usize, j: usize) -> bool
    requires { (i < o.layout.count) × (j < o.layout.count) }
    ensures { result ≡ is_in_order o.entry.bytes.now o.entry.layout i j }
{
    if o.has_segments() {
        plane_segments::comes_before(o.half(i), o.half(j))
    } else {
        o.point(i) < o.point(j)
    }
}

pub fn is_misplaced(o: Object<'_>, i: usize) -> bool
    requires { i < o.layout.count }
    ensures { result ≡ is_misplaced o.entry.bytes.now o.entry.layout i }
{
    i != 0 && !in_order(o, i - 1, i)
}
