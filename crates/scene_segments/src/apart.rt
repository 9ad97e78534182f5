// A quick no for most pairs of segments: where the upright boxes round them are apart, where one lies on one side of the other's line, or where it has
// one end in common with it and the other off its line, they share no point but a common end.
ghost use Rattle.std.specs.Prelude.{◌≡◌, true, false, not, T, pos};
ghost use Rattle.std.specs.Int.Signed.{le_z};
ghost use Rattle.whole.specs.Count.{eq_z};
ghost use Rattle.plane.specs.Plane.{in_range, segment_in_range, ordered, side, touch};

use plane::{Point, Segment, Turn};

fn low(t: Segment) -> i32
    ensures { T (le_z result t.left.y) × T (le_z result t.right.y) }
{
    t.left.y.min(t.right.y)
}

fn high(t: Segment) -> i32
    ensures { T (le_z t.left.y result) × T (le_z t.right.y result) }
{
    t.left.y.max(t.right.y)
}

// Do the upright boxes round them part t and u, which does not begin right of t?
fn are_boxes_apart(t: Segment, u: Segment) -> bool
    requires { T (ordered t) × T (ordered u) }
    ensures { result ≡ true → touch t u ≡ false }
{
    u.right.x < t.left.x || high(t) < low(u) || high(u) < low(t)
}

// Do both ends of u lie strictly on one side of the line through t?
fn is_beside(t: Segment, u: Segment) -> bool
    requires { T (segment_in_range t) × T (ordered t) × T (segment_in_range u) × T (ordered u) }
    ensures { result ≡ true → (touch t u ≡ false) × (touch u t ≡ false) }
{
    let way = plane::turn_from(t.left, t.right, u.left);
    way != Turn::Straight && plane::turns(t.left, t.right, u.right, way)
}

// Is p off the line through t?
fn is_off(t: Segment, p: Point) -> bool
    requires { T (segment_in_range t) × T (in_range p) }
    ensures { result ≡ not (eq_z (side t.left t.right p) (pos 0)) }
{
    !plane::turns(t.left, t.right, p, Turn::Straight)
}

// Is one end of u an end of t, and the other off the line through t?
fn is_hinged(t: Segment, u: Segment) -> bool
    requires { T (segment_in_range t) × T (ordered t) × T (segment_in_range u) × T (ordered u) }
    ensures { result ≡ true → touch t u ≡ false }
{
    if plane_segments::is_end(t, u.left) {
        return is_off(t, u.right);
    }
    plane_segments::is_end(t, u.right) && is_off(t, u.left)
}

pub fn are_apart(t: Segment, u: Segment) -> bool
    requires { T (segment_in_range t) × T (ordered t) × T (segment_in_range u) × T (ordered u) }
    ensures { result ≡ true → touch t u ≡ false }
{
    are_boxes_apart(t, u) || is_beside(t, u) || is_hinged(t, u) || is_beside(u, t)
}
