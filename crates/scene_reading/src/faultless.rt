// How many elements in a row are without fault: all that stand before the first record that is none, as far as an object may have them. It is reading's one
// loop over elements. What is wrong with the record at which it stops, if anything is, reading decides.
ghost use Rattle.std.specs.Prelude.{◌≡◌, ◌+◌, ◌≤◌, length, T};
ghost use Rattle.scene.specs.Read.{size};
ghost use Rattle.scene_reading.specs.Faultless.{is_sound, are_fields_good, IsElement, Faultless};

use plane::Segment;
use scene::{Kind, Shape, bytes};

// Is a segment in range, its left end before its right one?
#[tactic(auto, unfolding(plane::specs::Plane::ordered, plane::specs::Plane::before))]
fn is_sound(t: Segment) -> bool
    ensures { result ≡ is_sound t }
{
    plane::is_in_range(t.left) && plane::is_in_range(t.right) && t.left < t.right
}

// Are the fields of an element without fault?
fn are_fields_good(s: &[u8], k: Shape, at: usize) -> bool
    requires { at + size k ≤ length s.now }
    ensures { result ≡ are_fields_good s.now k at }
{
    match k {
        Shape::Points => plane::is_in_range(bytes::point(s, at)),
        Shape::Line => s[at + 17] <= 1 && is_sound(bytes::segment(s, at)),
        Shape::Region => s[at + 17] <= 1 && s[at + 18] <= 1 && is_sound(bytes::segment(s, at)),
    }
}

// Does an element of the object's type stand at an offset, without fault?
// Kept beside `element_record`: through it, which finds what is wrong with a record, reading took 1.25 times the instructions for points and 1.11 times for lines
// and regions (docs/DECISIONS.md).
fn is_faultless(s: &[u8], k: Shape, at: usize) -> bool
    requires { at ≤ length s.now }
    ensures { (T result → IsElement s.now k at) × (IsElement s.now k at → T result) }
{
    if s.len() - at < k.size() {
        return false;
    }
    match Kind::from(s[at]) {
        Kind::Element(e) => e == k && are_fields_good(s, k, at),
        Kind::Start | Kind::End | Kind::Unknown => false,
    }
}

// How many elements from an offset on are without fault, as far as an object may have them. The loop is compiled for each type: that of points alone takes
// two thirds of the instructions of one loop over any type.
pub fn count(s: &[u8], k: Shape, start: usize) -> usize
    requires { start ≤ length s.now }
    ensures { Faultless s.now k start result }
{
    match k {
        Shape::Points => count_of(s, Shape::Points, start),
        Shape::Line => count_of(s, Shape::Line, start),
        Shape::Region => count_of(s, Shape::Region, start),
    }
}

#[inline(always)]
fn count_of(s: &[u8], k: Shape, start: usize) -> usize
    requires { start ≤ length s.now }
    ensures { Faultless s.now k start result }
{
    let size = k.size();
    let mut at = start;
    for i in 0..1024 {
        if !is_faultless(s, k, at) {
            return i;
        }
        at += size;
    }
    1024
}
