// Summaries of objects: what a summary holds, and when it is good. What two of them tell is `told_of` of specs/; the theorems of proofs/ say that this is the full answer for far objects.
#![tactic(auto)]

use plane::Point;
use scene::Shape;

pub mod good;

// The least upright box round an object: its least and greatest x and y, as two corners.
#[derive(Clone, Copy, PartialEq, Eq)]
pub struct Bounds {
    pub least: Point,
    pub greatest: Point,
}

impl Bounds {
    // "an empty object has four zeros"
    pub const NOWHERE: Bounds = Bounds {
        least: Point::ORIGIN,
        greatest: Point::ORIGIN,
    };
}

// Kept with `empty` beside a box, and no Option of a box: that is what its 20 bytes have, four zeros for an empty object.
#[derive(Clone, Copy)]
pub struct Summary {
    pub shape: Shape,
    pub empty: bool,
    pub bounds: Bounds,
    pub boundary: bool,
}
