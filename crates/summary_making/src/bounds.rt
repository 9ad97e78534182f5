// The least and greatest coordinates of an object's elements, in one pass.
ghost use Rattle.std.specs.Prelude.{◌≡◌, ◌<◌};
ghost use Rattle.scene.specs.Read.{place};
ghost use Rattle.summary.specs.Summary.{widen, grow};
ghost use Rattle.summary_making.specs.Making.{corners_of, corners_at, corners_from, widest};

use plane::{Halfsegment, Point};
use scene_segments::Object;
use summary::Bounds;

// A box with one more point in it.
fn widened(b: Bounds, p: Point) -> Bounds
    ensures { result ≡ widen b p }
{
    Bounds {
        least: Point {
            x: b.least.x.min(p.x),
            y: b.least.y.min(p.y),
        },
        greatest: Point {
            x: b.greatest.x.max(p.x),
            y: b.greatest.y.max(p.y),
        },
    }
}

// With both ends of a segment, once for its two halfsegments.
fn with_half(b: Bounds, h: Halfsegment) -> Bounds
    ensures { result ≡ grow b (corners_of h) }
{
    if h.is_left {
        widened(widened(b, h.segment.left), h.segment.right)
    } else {
        b
    }
}

// With an element.
fn with_element(o: Object<'_>, i: usize, b: Bounds) -> Bounds
    requires { i < o.layout.count }
    ensures { result ≡ grow b (corners_at o.entry.bytes.now o.entry.layout.shape (place o.entry.layout i)) }
{
    if o.has_segments() {
        with_half(b, o.half(i))
    } else {
        widened(b, o.point(i))
    }
}

// With all elements of an object.
pub fn bounds_of(o: Object<'_>) -> Bounds
    ensures { result ≡ grow widest (corners_from o.entry.bytes.now o.entry.layout o.entry.layout.count 0) }
{
    let mut b = Bounds {
        least: Point {
            x: plane::LIMIT,
            y: plane::LIMIT,
        },
        greatest: Point {
            x: -plane::LIMIT,
            y: -plane::LIMIT,
        },
    };
    for i in 0..o.layout.count {
        b = with_element(o, i, b);
    }
    b
}
