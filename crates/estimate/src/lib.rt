// The side of a point by single floats, for a viewer that has no others (document 02, Paper 10): an estimate of the side value, each operation rounded
// once, and the side where it is certain. Nothing is fused: each result of an operation is a float of its own.
#![tactic(auto)]

ghost use Rattle.std.specs.Prelude.{◌≡◌, T};
ghost use Rattle.std.specs.Float.{binary32};
ghost use Rattle.floats.specs.Value.{counted};
ghost use Rattle.estimate.specs.Estimate.{all_in_range, apart, float_side, certain, estimated, side_number, EstimateHolds};

use plane::Point;

// The largest coordinate of an estimate, and minus the smallest: document 01's range, which the estimate keeps whatever scenes may have.
const RANGE: u32 = 1_000_000;

// The side of c against a segment from a to b, or that it is too close to tell.
#[derive(Clone, Copy)]
pub enum Side {
    Left,
    Right,
    Close,
}

#[derive(Clone, Copy)]
pub struct Estimated {
    pub estimate: f32,
    pub side: Side,
}

#[tactic(auto, unfolding(crate::specs::Estimate::all_in_range))]
fn are_in_range(a: Point, b: Point, c: Point) -> bool
    ensures { result ≡ all_in_range a b c }
{
    plane::is_within(a, RANGE) && plane::is_within(b, RANGE) && plane::is_within(c, RANGE)
}

fn difference(a: i32, b: i32) -> f32
    requires { T (counted binary32 a) × T (counted binary32 b) }
    ensures { result ≡ apart a b }
{
    (a as f32) - (b as f32)
}

fn value(a: Point, b: Point, c: Point) -> f32
    requires { T (all_in_range a b c) }
    ensures { result ≡ float_side a b c }
{
    difference(b.x, a.x) * difference(c.y, a.y) - difference(b.y, a.y) * difference(c.x, a.x)
}

fn side_of(estimate: f32) -> Side
    ensures { result ≡ certain estimate }
{
    if estimate > 524288.0 {
        Side::Left
    } else if estimate < -524288.0 {
        Side::Right
    } else {
        Side::Close
    }
}

// The estimate, and the side where it is certain. For every three points the whole result; and what it says of the exact side value.
pub fn estimate(a: Point, b: Point, c: Point) -> Estimated
    ensures { (result ≡ estimated a b c) × EstimateHolds a b c result.estimate (side_number result.side) }
{
    if are_in_range(a, b, c) {
        let v = value(a, b, c);
        Estimated {
            estimate: v,
            side: side_of(v),
        }
    } else {
        Estimated {
            estimate: 0.0,
            side: Side::Close,
        }
    }
}

// The number of a side: 1 left, -1 right, 0 close.
impl From<Side> for i32 {
    ghost from_gives = { λ side number. number ≡ side_number side };

    fn from(side: Side) -> i32 {
        match side {
            Side::Left => 1,
            Side::Right => -1,
            Side::Close => 0,
        }
    }
}
