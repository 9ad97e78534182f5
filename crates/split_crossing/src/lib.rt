// Where two segments cross: nowhere, at a point of the grid, or off it. All numbers on the way fit 64 bits.
#![tactic(auto)]

ghost use Rattle.std.specs.Prelude.{◌≡◌, ◌*◌, ◌/◌, ◌%◌, ◌^◌, ◌<◌, ◌≤◌, T, ℕ, cond, eqb, Some, None, pos, nat_abs, ◌+ℤ◌, ◌-ℤ◌, ◌*ℤ◌};
ghost use Rattle.std.specs.Int.{IsGcd};
ghost use Rattle.plane.specs.Plane.{limit, in_range, segment_in_range, ordered, side, opposite};
ghost use Rattle.split_crossing.specs.Crossing.{steps_from, crossing_of, CrossingMeans};
ghost use Rattle.split_crossing.specs.Steps.{InSteps, BySteps, reached};

use plane::{Point, Segment};

pub mod cuts;

// Whether two segments cross, and where: a crossing lies strictly inside both.
#[derive(Clone, Copy, PartialEq, Eq)]
pub enum Crossing {
    Apart,
    OffGrid,
    At(Point),
}

// The greatest common divisor of two numbers, by Euclid. Times any number it is that of the two times it.
fn common_divisor(a: u32, b: u32) -> u32
    ensures { (n : ℕ) → IsGcd (a * n) (b * n) (result * n) }
{
    let mut x = a;
    let mut y = b;
    while y != 0 {
        let rest = x % y;
        x = y;
        y = rest;
    }
    x
}

// m, some steps nearer to n, or away from it where they are the same.
fn towards(m: i32, n: i32, steps: u32) -> i32
    requires { (nat_abs m ≤ limit) × (steps ≤ 2 * limit) }
    ensures { result ≡ steps_from m n steps }
{
    let by = steps as i32;
    if n < m { m - by } else { m + by }
}

// m and so many steps, each as long as from m to n.
fn after(m: i32, n: i32, steps: u32) -> i32
    requires { (nat_abs m ≤ limit) × (nat_abs n ≤ limit) × (steps ≤ 2 * limit) × (nat_abs (pos steps *ℤ (n -ℤ m)) ≤ 2 * limit) }
    ensures { result ≡ m +ℤ pos steps *ℤ (n -ℤ m) }
{
    m + steps as i32 * (n - m)
}

// Have they strictly opposite signs?
#[inline(always)]
#[tactic(auto, unfolding(plane::specs::Plane::opposite))]
fn are_opposite(a: i64, b: i64) -> bool
    ensures { result ≡ opposite a b }
{
    (a < 0 && 0 < b) || (0 < a && b < 0)
}

// 2^52: a float from there to twice as much has no fraction, and the last 52 of its bits say how far above it is.
const RAISE: f64 = 4_503_599_627_370_496.0;

const RAISE_BITS: u64 = 4_841_369_599_423_283_200;

// A number below 2^52 as a float, by its bits: no clause says so, since the quotient of two is tested.
#[inline(always)]
fn float_of(n: u64) -> f64 {
    std::num::f64_from_bits_with_nan(RAISE_BITS + n % 4_503_599_627_370_496) - RAISE
}

// How many times `change` is in `before`, by floats, to the nearest whole number. Kept as a guess: a division of 64 bits takes longer than all else that is done for a crossing.
#[inline(always)]
fn likely(change: u64, before: u64) -> u32 {
    let bits = std::num::f64_to_bits_with_nan(float_of(before) / float_of(change) + RAISE);
    (bits % 67_108_864) as u32
}

// How many times `change` is in `before`, where nothing is left; no more often than `most`. A guess that is right spares the division.
#[inline(always)]
fn times_in(change: u64, before: u64, most: u32) -> Option<u32>
    requires { (0 < change) × (before / change ≤ most) × (most * change < 2 ^ 64) }
    ensures { result ≡ cond (eqb (before % change) 0) (Some (before / change)) None }
{
    let guess = likely(change, before);
    if guess <= most && guess as u64 * change == before {
        return Some(guess);
    }
    if before % change != 0 {
        return None;
    }
    Some((before / change) as u32)
}

/// A segment in steps, each from one grid point on it to the next: the first one after its left end, and how many steps lead to its right end.
// The number is kept for what is proved of the others.
#[derive(Clone, Copy)]
pub struct Stepped {
    pub segment: Segment,
    next: Point,
    count: u32,
    pub ghost in_range: { T (segment_in_range segment) },
    ghost steps: { InSteps segment next count },
}

impl Stepped {
    pub fn of(segment: Segment) -> Stepped
        requires { T (segment_in_range segment) × T (ordered segment) }
        ensures { result.segment ≡ segment }
    {
        let Segment { left, right } = segment;
        let across = right.x.abs_diff(left.x);
        let up = right.y.abs_diff(left.y);
        let count = common_divisor(across, up);
        Stepped {
            segment,
            next: Point {
                x: towards(left.x, right.x, across / count),
                y: towards(left.y, right.y, up / count),
            },
            count,
        }
    }

    // The grid point so many steps from its left end.
    fn reached(self, steps: u32) -> Point
        requires { steps ≤ self.count }
        ensures { result ≡ reached self.segment self.next steps }
    {
        let left = self.segment.left;
        Point {
            x: after(left.x, self.next.x, steps),
            y: after(left.y, self.next.y, steps),
        }
    }

    // The side value of p against a step: as often as there are steps it is that against the whole.
    #[inline(always)]
    fn side_of(self, p: Point) -> i64
        requires { T (in_range p) }
        ensures { result ≡ side self.segment.left self.next p }
    {
        plane::side(self.segment.left, self.next, p)
    }

    // Where it crosses t, whose ends have these side values, and what the answer says in points. With each step the side value against t changes by as much as these
    // are apart: so a grid point is at the crossing exactly if that divides the left end's.
    #[inline(always)]
    fn crossing_by(self, t: Segment, left: i64, right: i64) -> Crossing
        requires { T (segment_in_range t) × BySteps self.segment self.next t left right × T (opposite left right) }
        ensures { (result ≡ crossing_of self.segment t) × (T (ordered self.segment) → T (ordered t) → CrossingMeans self.segment t result) }
    {
        let before = plane::side(t.left, t.right, self.segment.left);
        let change = right - left;
        if !are_opposite(before, before - self.count as i64 * change) {
            return Crossing::Apart;
        }
        match times_in(change.unsigned_abs(), before.unsigned_abs(), self.count) {
            Some(steps) => Crossing::At(self.reached(steps)),
            None => Crossing::OffGrid,
        }
    }
}
