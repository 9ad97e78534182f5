// The refusals 1 to 7, found record by record.
#![tactic(auto)]

ghost use Rattle.std.specs.Prelude.{◌≡◌, ◌+◌, ◌≤◌, [], ◌∷◌, length, Ok, Err};
ghost use Rattle.scene.specs.Read.{size, record_at, stands_in, most, elements_from, read_object, read_scene, read_alone, after, ends_with, judge};
ghost use Rattle.scene.specs.Inner.{fields_at, segment_fields, type_at};

use plane::Segment;
use scene::{Kind, Layout, Reason, Refusal, Scene, Shape, bytes, records};

pub mod faultless;

// 4 and 5 of a halfsegment record.
// Kept with the record's kind in the answer, here and below, though the one caller asks only whether the record is good: so each contract is the definition's own
// answer (`record_at`), and needs no other.
fn segment_fields(segment: Segment, at: usize, k: Shape) -> Result<Kind, Refusal>
    ensures { result ≡ segment_fields segment at k }
{
    if !plane::is_in_range(segment.left) || !plane::is_in_range(segment.right) {
        return Reason::OutOfRange.at(at);
    }
    if segment.right <= segment.left {
        return Reason::EndsReversed.at(at);
    }
    Ok(Kind::Element(k))
}

// The fields of an element whose body is there.
fn fields(s: &[u8], at: usize, k: Shape) -> Result<Kind, Refusal>
    requires { at + size k ≤ length s.now }
    ensures { result ≡ fields_at s.now at (Kind.Element k) }
{
    match k {
        Shape::Points => {
            if plane::is_in_range(bytes::point(s, at)) {
                Ok(Kind::Element(k))
            } else {
                Reason::OutOfRange.at(at)
            }
        }
        Shape::Line => {
            if 1 < s[at + 17] {
                Reason::WrongField.at(at)
            } else {
                segment_fields(bytes::segment(s, at), at, k)
            }
        }
        Shape::Region => {
            if 1 < s[at + 17] || 1 < s[at + 18] {
                Reason::WrongField.at(at)
            } else {
                segment_fields(bytes::segment(s, at), at, k)
            }
        }
    }
}

// The record at an offset where an element of an object or its end is due; full where no more elements may follow.
fn element_record(s: &[u8], at: usize, k: Shape, full: bool) -> Result<Kind, Refusal>
    ensures { result ≡ record_at s.now at (stands_in k) full }
{
    if s.len() <= at {
        return Reason::CutShort.at(s.len());
    }
    match Kind::from(s[at]) {
        Kind::Element(e) => {
            if e != k {
                return Reason::WrongKind.at(at);
            }
            if full {
                return Reason::TooMany.at(at);
            }
            if s.len() - at < k.size() {
                return Reason::CutShort.at(at);
            }
            fields(s, at, k)
        }
        Kind::End => Ok(Kind::End),
        Kind::Start | Kind::Unknown => Reason::WrongKind.at(at),
    }
}

// The type of the object whose type record is due at an offset.
fn type_record(s: &[u8], at: usize) -> Result<Shape, Refusal>
    ensures { result ≡ type_at s.now at }
{
    if s.len() <= at {
        return Reason::CutShort.at(s.len());
    }
    match Kind::from(s[at]) {
        Kind::Start => {
            if s.len() - at < 2 {
                return Reason::CutShort.at(at);
            }
            let n = s[at + 1];
            if n < 1 || 3 < n {
                return Reason::WrongField.at(at);
            }
            Ok(records::shape(n))
        }
        Kind::Element(_) | Kind::End | Kind::Unknown => Reason::WrongKind.at(at),
    }
}

// The elements and the end of an object whose type record stands at start. The elements without fault are counted; the record after them is the object's end,
// or is refused.
fn elements(s: &[u8], shape: Shape, start: usize) -> Result<Layout, Refusal>
    requires { start + 2 ≤ length s.now }
    ensures { result ≡ elements_from s.now most (record { shape = shape; start = start; count = 0 }) }
{
    let count = faultless::count(s, shape, start + 2);
    let l = Layout {
        shape,
        start,
        count,
    };
    element_record(s, l.place(count), shape, count == 1024)?;
    Ok(l)
}

pub fn read_object(s: &[u8], at: usize) -> Result<Layout, Refusal>
    ensures { result ≡ read_object s.now at }
{
    let shape = type_record(s, at)?;
    elements(s, shape, at)
}

// 7: the bytes end where the object does.
fn ends_with(s: &[u8], l: Layout) -> Result<(), Refusal>
    requires { after l ≤ length s.now }
    ensures { result ≡ judge Err (Ok tt) (ends_with s.now l ∷ []) }
{
    let end = l.after();
    if end < s.len() {
        return Reason::MoreBytes.at(end);
    }
    Ok(())
}

// The refusals 1 to 7 of a scene.
pub fn read_scene(s: &[u8]) -> Result<Scene, Refusal>
    ensures { result ≡ read_scene s.now }
{
    let a = read_object(s, 0)?;
    let b = read_object(s, a.after())?;
    ends_with(s, b)?;
    Ok(Scene::arranged(a, b))
}

// The refusals 1 to 7 of one object's bytes alone.
pub fn read_alone(s: &[u8]) -> Result<Layout, Refusal>
    ensures { result ≡ read_alone s.now }
{
    let l = read_object(s, 0)?;
    ends_with(s, l)?;
    Ok(l)
}
