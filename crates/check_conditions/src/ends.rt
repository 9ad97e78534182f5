// Condition 13 as a test of one element, by its index: a region's end in an odd number of its segments, by the first element that has it. As many segments end at a point
// as halfsegments stand together there.
ghost use Rattle.std.specs.Prelude.{◌≡◌, ◌<◌, T};
ghost use Rattle.scene.specs.Conditions.{has_segments};
ghost use Rattle.check_conditions.specs.Odd.{is_first_at, together, begins_oddly};

use plane_segments::dominating_point;
use scene_segments::Object;

#[tactic(auto, using(plane::proofs::Compared::same_points))]
fn is_first_at(o: Object<'_>, i: usize) -> bool
    requires { (i < o.layout.count) × T (has_segments o.layout.shape) }
    ensures { result ≡ is_first_at o.entry.bytes.now o.entry.layout i }
{
    i == 0 || dominating_point(o.half(i - 1)) != dominating_point(o.half(i))
}

// How many elements stand together with the element i, from that one on?
fn together(o: Object<'_>, i: usize) -> usize
    requires { (i < o.layout.count) × T (has_segments o.layout.shape) }
    ensures { result ≡ together o.entry.bytes.now o.entry.layout i }
{
    let p = dominating_point(o.half(i));
    let mut n = 0;
    for j in i..o.layout.count {
        if dominating_point(o.half(j)) != p {
            return n;
        }
        n += 1;
    }
    n
}

#[tactic(auto, unfolding(whole::specs::Count::odd))]
pub fn ends_oddly(o: Object<'_>, i: usize) -> bool
    requires { i < o.layout.count }
    ensures { result ≡ begins_oddly o.entry.bytes.now o.entry.layout i }
{
    o.layout.shape.is_region() && is_first_at(o, i) && together(o, i) % 2 == 1
}
