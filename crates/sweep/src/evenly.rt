// Whether each point is the dominating point of an even number of an object's halfsegments: condition 13, where 11 finds no fault. In order, the
// halfsegments of one point stand together, so they are compared two by two.
ghost use Rattle.std.specs.Prelude.{◌≡◌, T};
ghost use Rattle.whole.specs.Decides.{Decides};
ghost use Rattle.plane.specs.Plane.{is_same_point, dominating};
ghost use Rattle.scene.specs.Conditions.{has_segments, is_region, out_of_order};
ghost use Rattle.sweep_laws.specs.Evenly.{EndsEvenly, RegionsEndEvenly};

use crate::OrderedScene;
use plane::Halfsegment;
use scene_segments::Object;

// Have two halfsegments one dominating point?
#[tactic(auto, using(plane::proofs::Compared::same_points))]
fn share_point(h: Halfsegment, k: Halfsegment) -> bool
    ensures { result ≡ is_same_point (dominating h) (dominating k) }
{
    plane_segments::dominating_point(h) == plane_segments::dominating_point(k)
}

// Does an object with segments end evenly?
fn ends_evenly(o: Object<'_>) -> bool
    requires { T (has_segments o.layout.shape) × (out_of_order o.bytes.now o.layout ≡ None) }
    ensures { Decides (EndsEvenly o.entry.bytes.now o.entry.layout) result }
{
    if o.layout.count % 2 != 0 {
        return false;
    }
    for i in 0..o.layout.count / 2 {
        if !share_point(o.half(2 * i), o.half(2 * i + 1)) {
            return false;
        }
    }
    true
}

// Does an object, if it is a region?
fn is_even(o: Object<'_>) -> bool
    requires { out_of_order o.bytes.now o.layout ≡ None }
    ensures { Decides (T (is_region o.entry.layout.shape) → EndsEvenly o.entry.bytes.now o.entry.layout) result }
{
    !o.layout.shape.is_region() || ends_evenly(o)
}

// Does each region of a scene?
pub fn regions_end_evenly(ordered: OrderedScene<'_>) -> bool
    ensures { Decides (RegionsEndEvenly ordered.entry.read.bytes.now ordered.entry.read.scene) result }
{
    is_even(ordered.read.object(true)) && is_even(ordered.read.object(false))
}
