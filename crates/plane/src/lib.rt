// The plane of document 01, exactly: its types, and the tests on points and turns, each proved equal to its definition in specs/Plane.antt.
// The tests on segments are those of `plane_segments`.
// Every sign of a side value is read off `turn_from`.
#![tactic(auto)]

ghost use Rattle.std.specs.Prelude.{◌≡◌, not, ◌&&◌, ◌+◌, ◌*◌, ◌<◌, ◌≤◌, leb, pos, nat_abs, ◌+ℤ◌, ◌-ℤ◌};
ghost use Rattle.std.specs.Int.Signed.{lt_z, le_z};
ghost use Rattle.plane.specs.Plane.{limit, within, in_range, side, turn_of, turn, turned, InDoubledRange, Told};

use std::cmp::Ordering;

// The largest coordinate, and minus the smallest.
pub const LIMIT: i32 = 10_000_000;

// A grid point.
// Kept as clauses: that points are in range, or in twice the range. Code and definitions speak of points beyond it too: doubled ones, an estimate's, those of bytes that are refused.
// So a type of those in range would be a second type of points, unwrapped at each comparison and in each definition.
#[derive(Clone, Copy, Default, PartialEq, Eq, PartialOrd, Ord)]
pub struct Point {
    pub x: i32,
    pub y: i32,
}

impl Point {
    pub const ORIGIN: Point = Point { x: 0, y: 0 };
}

// A segment. Of a scene that is taken, its left end comes strictly before its right end, and both are in range.
// Kept as clauses, as for points: the segments of bytes that are refused and those with doubled coordinates would be a second type.
#[derive(Clone, Copy, Default, PartialEq, Eq)]
pub struct Segment {
    pub left: Point,
    pub right: Point,
}

// One of the two halfsegments of a segment: the left one has d = 1 in a scene's bytes.
#[derive(Clone, Copy)]
pub struct Halfsegment {
    pub segment: Segment,
    pub is_left: bool,
}

impl Halfsegment {
    // The other one of its segment.
    pub fn other(self) -> Halfsegment
        ensures { result ≡ record { segment = self.segment; is_left = not self.is_left } }
    {
        Halfsegment {
            is_left: !self.is_left,
            ..self
        }
    }
}

// The way that the path from a point through a second to a third turns at the second.
#[derive(Clone, Copy, PartialEq, Eq)]
pub enum Turn {
    Left,
    Straight,
    Right,
}

// Is v at most `most` in size? In 64 bits, where each `most` has an opposite.
// Kept by hand: by `unsigned_abs`, reading took 1.22 to 1.25 times the instructions.
pub fn is_coordinate(v: i32, most: u32) -> bool
    ensures { result ≡ leb (nat_abs v) most }
{
    let wide = v as i64;
    -(most as i64) <= wide && wide <= most as i64
}

// Are both coordinates? A scene's limit is one such number, an estimate's another.
#[tactic(auto, unfolding(crate::specs::Plane::within))]
pub fn is_within(p: Point, most: u32) -> bool
    ensures { result ≡ within most p }
{
    is_coordinate(p.x, most) && is_coordinate(p.y, most)
}

pub fn is_in_range(p: Point) -> bool
    ensures { result ≡ in_range p }
{
    is_within(p, LIMIT as u32)
}

fn difference(a: i32, b: i32) -> i64
    ensures { result ≡ a -ℤ b }
{
    (a as i64) - (b as i64)
}

// The side value. It fits for points with doubled coordinates too.
// Kept beside `estimate`'s, its `difference` too: exact in 64 bits here, and there each operation rounded to a float, so no arithmetic is common.
pub fn side(a: Point, b: Point, c: Point) -> i64
    requires { InDoubledRange a b c }
    ensures { result ≡ side a b c }
{
    difference(b.x, a.x) * difference(c.y, a.y) - difference(b.y, a.y) * difference(c.x, a.x)
}

// ---- the side test: the sign of the side value, from products that fit 32 bits

// What a difference of coordinates is raised by, so that it is not below zero: 2^26, above four times 10,000,000.
const RAISE: i32 = 67_108_864;

// A raised difference.
fn raised(a: i32, b: i32) -> u32
    requires { (nat_abs a ≤ 2 * limit) × (nat_abs b ≤ 2 * limit) }
    ensures { (pos result ≡ a -ℤ b +ℤ pos 67108864) × (result < 134217728) }
{
    (a - b + RAISE) as u32
}

// The only multiplication of the side test.
fn times(a: u32, b: u32) -> u32
    requires { (a < 65536) × (b < 65536) }
    ensures { (result ≡ a * b) × (result < 4294967296) }
{
    a * b
}

// The product of two raised differences, from that of their halves of 16 bits.
fn product(u: u32, v: u32) -> u64
    requires { (u < 134217728) × (v < 134217728) }
    ensures { (result ≡ u * v) × (result < 18014398509481984) }
{
    let u1 = u / 65536;
    let u0 = u % 65536;
    let v1 = v / 65536;
    let v0 = v % 65536;
    let high = times(u1, v1) as u64;
    let middle = times(u1, v0) as u64 + times(u0, v1) as u64;
    let low = times(u0, v0) as u64;
    (high << 32) + (middle << 16) + low
}

// The turn by the products of raised differences. With each difference raised by the same, the side value is what the first sum has above the second.
fn turn_by_products(u: u32, v: u32, w: u32, z: u32) -> Turn
    requires { (u < 134217728) × (v < 134217728) × (w < 134217728) × (z < 134217728) }
    ensures { result ≡ turn_of (pos (u * v + (w + z) * 67108864) -ℤ pos (w * z + (u + v) * 67108864)) }
{
    let first = product(u, v) + ((w as u64 + z as u64) << 26);
    let second = product(w, z) + ((u as u64 + v as u64) << 26);
    match first.cmp(&second) {
        Ordering::Greater => Turn::Left,
        Ordering::Equal => Turn::Straight,
        Ordering::Less => Turn::Right,
    }
}

fn is_between(m: i32, n: i32, x: i32) -> bool
    ensures { result ≡ (le_z m x && le_z x n) }
{
    m <= x && x <= n
}

// Is m below n, and x between them?
fn spans(m: i32, n: i32, x: i32) -> bool
    ensures { result ≡ (lt_z m n && (le_z m x && le_z x n)) }
{
    m < n && is_between(m, n, x)
}

// What the box of a and b tells of the turn: with c within its width, left over it and right under it. Most turns of a walk are told by that, and need no product.
// Kept nested: with its tests joined by && it took a tenth more instructions, and each search of the status asks it.
pub fn beside_box(a: Point, b: Point, c: Point) -> Option<Turn>
    ensures { Told result (turn a b c) }
{
    if spans(a.x, b.x, c.x) {
        if c.y < a.y {
            if c.y < b.y {
                return Some(Turn::Right);
            }
        } else if b.y < c.y {
            if a.y < c.y {
                return Some(Turn::Left);
            }
        }
    }
    None
}

// The turn where c may be one of the two.
// Kept out of its callers, and the look at the box drawn into them: a turn that the box tells then costs no call, and few are not told by it.
#[inline(never)]
fn turn_by_ends(a: Point, b: Point, c: Point) -> Turn
    requires { InDoubledRange a b c }
    ensures { result ≡ turn a b c }
{
    if b == c {
        return Turn::Straight;
    }
    if a == c {
        return Turn::Straight;
    }
    turn_by_products(
        raised(b.x, a.x),
        raised(c.y, a.y),
        raised(b.y, a.y),
        raised(c.x, a.x),
    )
}

// The turn at b of the path from a through b to c.
#[inline(always)]
pub fn turn_from(a: Point, b: Point, c: Point) -> Turn
    requires { InDoubledRange a b c }
    ensures { result ≡ turn a b c }
{
    beside_box(a, b, c).unwrap_or_else(|| turn_by_ends(a, b, c))
}

// Does it turn that way there?
#[inline(always)]
pub fn turns(a: Point, b: Point, c: Point, way: Turn) -> bool
    requires { InDoubledRange a b c }
    ensures { result ≡ turned way (side a b c) }
{
    turn_from(a, b, c) == way
}
