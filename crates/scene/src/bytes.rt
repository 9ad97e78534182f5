// What stands in the bytes at an offset: coordinates, points, segments, halfsegments, each where its record has it.
// Kept with the bytes and the offset side by side, here and where records are read: the definitions (`point_at s at`) have them so, and a record as a type would be
// made at each call, to be taken apart in it.
ghost use Rattle.std.specs.Prelude.{◌≡◌, ◌+◌, ◌≤◌, length};
ghost use Rattle.scene.specs.Read.{coordinate, point_from, point_at, segment_at, halfsegment_at, ia_at};

use plane::{Halfsegment, Point, Segment};

// Signed 32 bits, low byte first.
pub fn coordinate(s: &[u8], at: usize) -> i32
    requires { at + 4 ≤ length s.now }
    ensures { result ≡ coordinate s.now at }
{
    i32::from_le_bytes([s[at], s[at + 1], s[at + 2], s[at + 3]])
}

// The point whose coordinates begin at an offset, as after a record's kind byte.
pub fn point_from(s: &[u8], at: usize) -> Point
    requires { at + 8 ≤ length s.now }
    ensures { result ≡ point_from s.now at }
{
    Point {
        x: coordinate(s, at),
        y: coordinate(s, at + 4),
    }
}

// The point of the record at an offset.
pub fn point(s: &[u8], at: usize) -> Point
    requires { at + 9 ≤ length s.now }
    ensures { result ≡ point_at s.now at }
{
    point_from(s, at + 1)
}

// The segment of the halfsegment record at an offset.
pub fn segment(s: &[u8], at: usize) -> Segment
    requires { at + 18 ≤ length s.now }
    ensures { result ≡ segment_at s.now at }
{
    Segment {
        left: point_from(s, at + 1),
        right: point_from(s, at + 9),
    }
}

// Is the halfsegment record at an offset a left one?
pub fn is_left(s: &[u8], at: usize) -> bool
    requires { at + 18 ≤ length s.now }
    ensures { result ≡ (halfsegment_at s.now at).is_left }
{
    s[at + 17] == 1
}

pub fn halfsegment(s: &[u8], at: usize) -> Halfsegment
    requires { at + 18 ≤ length s.now }
    ensures { result ≡ halfsegment_at s.now at }
{
    Halfsegment {
        segment: segment(s, at),
        is_left: is_left(s, at),
    }
}

pub fn ia(s: &[u8], at: usize) -> bool
    requires { at + 19 ≤ length s.now }
    ensures { result ≡ ia_at s.now at }
{
    s[at + 18] == 1
}
