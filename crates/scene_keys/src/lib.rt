// Points as numbers, their keys, in the order of points, and back; and the keys of an object's elements: of its points, or of the dominating points of its
// halfsegments. A comparison is then one test, and the end of an object needs none.
#![tactic(auto)]

ghost use Rattle.std.specs.Prelude.{◌≡◌, ◌+◌, ◌*◌, ◌<◌, ◌≤◌, T, nat_abs, length};
ghost use Rattle.plane.specs.Plane.{limit, in_range};
ghost use Rattle.scene.specs.Read.{size, place};
ghost use Rattle.scene_keys.specs.Keyed.{raised, key, lowered, IsKey, keyed_point, keyed_segment, GoodEnds, point_in, next_key};

use plane::{Point, Segment};
use scene::{Shape, bytes};
use scene_segments::Object;

// The radix of a key: a power of two above every raised coordinate.
pub const ROOM: u64 = 33_554_432;

// The key past the last element, above that of every point.
// Kept as a number: the end has to come after every point, and of an Option `None` comes first.
pub const TOP: u64 = ROOM * ROOM;

// A coordinate, counted from the least.
fn raised(v: i32) -> u64
    requires { nat_abs v ≤ limit }
    ensures { (result ≡ raised v) × (result ≤ 2 * limit) }
{
    (v as i64 + plane::LIMIT as i64) as u64
}

// The key of a point: by x, then y, as points are ordered.
pub fn key(p: Point) -> u64
    requires { T (in_range p) }
    ensures { result ≡ key p }
{
    ROOM * raised(p.x) + raised(p.y)
}

// The coordinate that is so far above the least.
fn lowered(n: u64) -> i32
    requires { n ≤ 2 * limit }
    ensures { result ≡ lowered n }
{
    n as i32 - plane::LIMIT
}

// The point with a key.
pub fn point(k: u64) -> Point
    requires { IsKey k }
    ensures { result ≡ keyed_point k }
{
    Point {
        x: lowered(k / ROOM),
        y: lowered(k % ROOM),
    }
}

/// A segment by the keys of its two ends.
#[derive(Clone, Copy, Default, PartialEq, Eq, PartialOrd, Ord)]
pub struct Ends {
    pub left: u64,
    pub right: u64,
}

impl Ends {
    pub fn segment(self) -> Segment
        requires { GoodEnds self }
        ensures { result ≡ keyed_segment self }
    {
        Segment {
            left: point(self.left),
            right: point(self.right),
        }
    }
}

// The point of the element at an offset.
fn point_of(s: &[u8], k: Shape, at: usize) -> Point
    requires { at + size k ≤ length s.now }
    ensures { result ≡ point_in s.now k at }
{
    match k {
        Shape::Points => bytes::point(s, at),
        Shape::Line | Shape::Region => {
            plane_segments::dominating_point(bytes::halfsegment(s, at))
        }
    }
}

// The key of the element i, whose record stands at an offset.
fn key_of(o: Object<'_>, i: usize, at: usize) -> u64
    requires { at ≡ place o.layout i }
    ensures { result ≡ next_key o.entry.bytes.now o.entry.layout i }
{
    if i < o.layout.count {
        key(point_of(o.bytes, o.layout.shape, at))
    } else {
        TOP
    }
}

/// Where a walk over the elements of an object has come to: the index of an element, or past the last, the offset of its record, and its key.
#[derive(Clone, Copy)]
pub struct Cursor<'a> {
    pub object: Object<'a>,
    pub index: usize,
    pub at: usize,
    pub key: u64,
    pub ghost within: { index ≤ object.layout.count },
    pub ghost stands: { at ≡ place object.layout index },
    pub ghost key_is: { key ≡ next_key object.bytes.now object.layout index },
}

impl<'a> Cursor<'a> {
    // At an element, or past the last.
    pub fn at_element(object: Object<'a>, index: usize) -> Cursor<'a>
        requires { index ≤ object.layout.count }
        ensures of { (result.object.bytes.now ≡ object.entry.bytes.now) × (result.object.layout ≡ object.entry.layout) }
        ensures index { result.index ≡ index }
    {
        let at = object.place(index);
        Cursor {
            object,
            index,
            at,
            key: key_of(object, index, at),
        }
    }

    // At the first element.
    pub fn first(object: Object<'a>) -> Cursor<'a>
        ensures of { (result.object.bytes.now ≡ object.entry.bytes.now) × (result.object.layout ≡ object.entry.layout) }
        ensures index { result.index ≡ 0 }
    {
        Cursor::at_element(object, 0)
    }

    // On to the next one. In place: where each step copied the cursor, and with it the object, a walk over points took three to six times as long.
    pub fn advance(&mut self)
        requires { self.old.index < self.old.object.layout.count }
        ensures of { (self.new.object.bytes.now ≡ self.old.object.bytes.now) × (self.new.object.layout ≡ self.old.object.layout) }
        ensures index { self.new.index ≡ self.old.index + 1 }
    {
        self.index += 1;
        self.at += self.object.layout.shape.size();
        self.key = key_of(self.object, self.index, self.at);
    }
}
