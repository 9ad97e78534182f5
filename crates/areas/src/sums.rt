// The three sums over the different segments of two regions: what each segment adds to a part, by the sides where the regions adjoin it, and the walk.
ghost use Rattle.std.specs.Prelude.{◌≡◌, ◌≤◌, ◌^◌, T, nat_abs, ◌+ℤ◌};
ghost use Rattle.plane.specs.Plane.{segment_in_range};
ghost use Rattle.plane.specs.Shoelace.{shoelace, weighed};
ghost use Rattle.areas.specs.Areas.{Small, Added, Summed};

use overlap::adjoining::Sides;
use overlap::regions::Regions;
use overlap::walk::{MergedSides, Sided};
use plane::{Point, Segment};

// The sums, one for each part.
#[derive(Clone, Copy)]
pub struct Sums {
    pub both: i64,
    pub f_only: i64,
    pub g_only: i64,
}

// A segment's term in a shoelace sum: the side value of its ends from the origin.
fn shoelace(t: Segment) -> i64
    requires { T (segment_in_range t) }
    ensures { result ≡ shoelace t }
{
    plane::side(Point::ORIGIN, t.left, t.right)
}

// A sum and a term, which is added for what adjoins above and taken away for what adjoins below, so that both or neither leave the sum alone.
fn added(sum: i64, sides: Sides, v: i64) -> i64
    requires { (nat_abs sum ≤ 2 ^ 61) × (nat_abs v ≤ 2 ^ 61) }
    ensures { result ≡ sum +ℤ weighed sides.above sides.below v }
{
    if sides.above == sides.below {
        sum
    } else if sides.above {
        sum + v
    } else {
        sum - v
    }
}

// The sums with one more segment.
fn add(sums: Sums, next: Sided) -> Sums
    requires { T (segment_in_range next.segment) × Small sums }
    ensures { Added sums next.segment next.of_f next.of_g result }
{
    let v = shoelace(next.segment);
    Sums {
        both: added(sums.both, next.of_f.and(next.of_g), v),
        f_only: added(sums.f_only, next.of_f.without(next.of_g), v),
        g_only: added(sums.g_only, next.of_g.without(next.of_f), v),
    }
}

// Over all segments of two regions, by the sweep's notes.
pub fn sums_of(regions: Regions<'_>) -> Sums
    ensures { Summed regions.entry.read.bytes.now regions.entry.read.scene result }
{
    let mut sums = Sums {
        both: 0,
        f_only: 0,
        g_only: 0,
    };
    for next in MergedSides::of(regions) {
        sums = add(sums, next);
    }
    sums
}
