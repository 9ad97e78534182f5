// What was read: an object, two of them, or a scene, each as its bytes and where its records stand in them. An element is asked for by its index.
#![tactic(auto)]

ghost use Rattle.std.specs.Prelude.{◌≡◌, Bool, cond, ◌+◌, ◌<◌, ◌≤◌, length, T};
ghost use Rattle.plane.specs.Plane.{in_range, segment_in_range, ordered};
ghost use Rattle.scene.specs.Read.{place, size, point_at, given_first, given_second, IsObject, IsScene};
ghost use Rattle.scene.specs.Conditions.{has_segments, half, ia};

use plane::{Halfsegment, Point};
use scene::{Layout, Scene, bytes};

pub mod apart;
mod search;

pub use search::is_below;

/// The bytes in which an object was read, and where its records stand in them.
#[derive(Clone, Copy)]
pub struct Object<'a> {
    pub bytes: &'a [u8],
    pub layout: Layout,
    pub ghost read: { IsObject bytes.now layout },
}

impl<'a> Object<'a> {
    pub fn has_segments(self) -> bool
        ensures { result ≡ has_segments self.entry.layout.shape }
    {
        self.layout.shape.has_segments()
    }

    // Beside itself.
    pub fn with_itself(self) -> Pair<'a>
        ensures { (result.bytes.now ≡ self.entry.bytes.now) × (result.own ≡ self.entry.layout) × (result.other ≡ self.entry.layout) }
    {
        Pair {
            bytes: self.bytes,
            own: self.layout,
            other: self.layout,
        }
    }

    // Where the record of an element stands; past the last one, that of the end.
    pub fn place(self, i: usize) -> usize
        requires { i ≤ self.layout.count }
        ensures is { result ≡ place self.entry.layout i }
        ensures before_end { result < length self.entry.bytes.now }
        ensures whole { i < self.entry.layout.count → result + size self.entry.layout.shape ≤ length self.entry.bytes.now }
    {
        self.layout.place(i)
    }

    pub fn point(self, i: usize) -> Point
        requires { (i < self.layout.count) × (has_segments self.layout.shape ≡ Bool.false) }
        ensures is { result ≡ point_at self.entry.bytes.now (place self.entry.layout i) }
        ensures in_range { T (in_range result) }
    {
        bytes::point(self.bytes, self.layout.place(i))
    }

    // Kept as a clause, here and above: that the object has segments. A type for it would be one more to unwrap at each use, to spare one word.
    pub fn half(self, i: usize) -> Halfsegment
        requires { (i < self.layout.count) × T (has_segments self.layout.shape) }
        ensures is { result ≡ half self.entry.bytes.now self.entry.layout i }
        ensures in_range { T (segment_in_range result.segment) }
        ensures in_order { T (ordered result.segment) }
    {
        bytes::halfsegment(self.bytes, self.layout.place(i))
    }

    // Is it a left halfsegment? A search asks this before it reads one, since half of them are right ones.
    fn is_left(self, i: usize) -> bool
        requires { (i < self.layout.count) × T (has_segments self.layout.shape) }
        ensures { result ≡ (half self.entry.bytes.now self.entry.layout i).is_left }
    {
        bytes::is_left(self.bytes, self.layout.place(i))
    }

    // Is the interior of a region above the segment of an element? A line has none.
    pub fn ia(self, i: usize) -> bool
        requires { i < self.layout.count }
        ensures { result ≡ ia self.entry.bytes.now self.entry.layout i }
    {
        self.layout.shape.is_region() && bytes::ia(self.bytes, self.layout.place(i))
    }
}

/// An object and another one in the same bytes, which may be itself.
#[derive(Clone, Copy)]
pub struct Pair<'a> {
    pub bytes: &'a [u8],
    pub own: Layout,
    pub other: Layout,
    pub ghost own_read: { IsObject bytes.now own },
    pub ghost other_read: { IsObject bytes.now other },
}

impl<'a> Pair<'a> {
    pub fn own(self) -> Object<'a>
        ensures { (result.bytes.now ≡ self.entry.bytes.now) × (result.layout ≡ self.entry.own) }
    {
        Object {
            bytes: self.bytes,
            layout: self.own,
        }
    }

    pub fn other(self) -> Object<'a>
        ensures { (result.bytes.now ≡ self.entry.bytes.now) × (result.layout ≡ self.entry.other) }
    {
        Object {
            bytes: self.bytes,
            layout: self.other,
        }
    }

    // The other one beside it.
    pub fn exchanged(self) -> Pair<'a>
        ensures { (result.bytes.now ≡ self.entry.bytes.now) × (result.own ≡ self.entry.other) × (result.other ≡ self.entry.own) }
    {
        Pair {
            bytes: self.bytes,
            own: self.other,
            other: self.own,
        }
    }
}

/// A scene where it was read.
#[derive(Clone, Copy)]
pub struct ReadScene<'a> {
    pub bytes: &'a [u8],
    pub scene: Scene,
    pub ghost read: { IsScene bytes.now scene },
}

impl<'a> ReadScene<'a> {
    // F, or G.
    pub fn object(self, first: bool) -> Object<'a>
        ensures { (result.bytes.now ≡ self.entry.bytes.now) × (result.layout ≡ cond first self.entry.scene.f self.entry.scene.g) }
    {
        Object {
            bytes: self.bytes,
            layout: self.scene.object(first),
        }
    }

    // The object that the bytes have first, beside the one that they have second.
    pub fn as_given(self) -> Pair<'a>
        ensures { (result.bytes.now ≡ self.entry.bytes.now) × (result.own ≡ given_first self.entry.scene) × (result.other ≡ given_second self.entry.scene) }
    {
        Pair {
            bytes: self.bytes,
            own: self.scene.given_first(),
            other: self.scene.given_second(),
        }
    }

    // F beside G.
    pub fn pair(self) -> Pair<'a>
        ensures { (result.bytes.now ≡ self.entry.bytes.now) × (result.own ≡ self.entry.scene.f) × (result.other ≡ self.entry.scene.g) }
    {
        Pair {
            bytes: self.bytes,
            own: self.scene.f,
            other: self.scene.g,
        }
    }
}
