// Condition 14 as a test of one element, by its index: wrong ia.
ghost use Rattle.std.specs.Prelude.{◌≡◌, ◌<◌, T};
ghost use Rattle.plane.specs.Plane.{segment_in_range};
ghost use Rattle.scene.specs.Conditions.{has_segments};
ghost use Rattle.check_conditions.specs.Odd.{interior_by, is_mismarked};

use plane::Segment;
use scene_segments::Object;

fn interior_above(o: Object<'_>, t: Segment) -> bool
    requires { T (has_segments o.layout.shape) × T (segment_in_range t) }
    ensures { result ≡ interior_by o.entry.bytes.now o.entry.layout t }
{
    if t.left.x == t.right.x {
        o.count_for_ia(t) % 2 == 1
    } else {
        o.count_for_ia(t) % 2 != 1
    }
}

pub fn has_wrong_ia(o: Object<'_>, i: usize) -> bool
    requires { i < o.layout.count }
    ensures { result ≡ is_mismarked o.entry.bytes.now o.entry.layout i }
{
    if !o.layout.shape.is_region() {
        return false;
    }
    let h = o.half(i);
    h.is_left && o.ia(i) != interior_above(o, h.segment)
}
