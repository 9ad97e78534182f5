// Points and lines as OGC well-known binary, into a lent buffer (document 02, Paper 9).
#![tactic(auto)]

ghost use Rattle.std.specs.Prelude.{◌≡◌, Bool, Ok, ◌+◌, ◌++◌, ◌≤◌, length};
ghost use Rattle.arrayvec.specs.ArrayVec.{array_vec_len};
ghost use Rattle.scene.specs.Conditions.{is_region, object, check_object};
ghost use Rattle.check_verdict.specs.SharedPoints.{CheckedObjectMeans};
ghost use Rattle.wkb_writing.specs.Wkb.{wkb_of};
ghost use Rattle.wkb_writing.specs.Parts.{type_number, start_bytes};
ghost use Rattle.wkb_writing.specs.Writing.{written_as, buffer_after, write_of, written_buffer};

use arrayvec::ArrayVec;
use scene::{Reason, Refusal, Shape};
use scene_segments::Object;

pub mod fields;
pub mod parts;

// No object is longer as well-known binary: 1,024 points, or 512 segments.
pub const WKB_LIMIT: usize = 21_513;

// The bytes written so far.
type Wkb = ArrayVec<u8, WKB_LIMIT>;

// A MultiPoint, a MultiLineString, a MultiPolygon.
fn type_number(k: Shape) -> u32
    ensures { result ≡ type_number k }
{
    match k {
        Shape::Points => 4,
        Shape::Line => 5,
        Shape::Region => 6,
    }
}

// The header and the number of parts.
#[tactic(auto, using(crate::proofs::Lengths::lengths, std::proofs::lemmas::Grind::common_steps))]
fn start(wkb: &mut Wkb, k: Shape, n: u32)
    requires { array_vec_len wkb.old + 9 ≤ WKB_LIMIT }
    ensures { wkb.new.items ≡ wkb.old.items ++ start_bytes k n }
{
    fields::header(wkb, type_number(k));
    fields::word(wkb, n);
}

// An accepted object that is no region, into the lent buffer: "a short buffer with 21".
fn fill(o: Object<'_>, wkb: &mut [u8]) -> Result<usize, Refusal>
    requires { (check_object o.bytes.now ≡ Ok o.layout) × (is_region o.layout.shape ≡ Bool.false) }
    ensures { (result ≡ written_as (object o.entry.bytes.now o.entry.layout) (length wkb.old))
        × (wkb.new ≡ buffer_after (wkb_of (object o.entry.bytes.now o.entry.layout)) result wkb.old) }
{
    let mut all = Wkb::new();
    start(&mut all, o.layout.shape, parts::count(o) as u32);
    parts::all(&mut all, o);
    let bytes = all.as_slice();
    if wkb.len() < bytes.len() {
        return Reason::NoRoom.at(0);
    }
    wkb[..bytes.len()].copy_from_slice(bytes);
    Ok(bytes.len())
}

// One object's bytes as well-known binary; and what the check says of the points that its segments share. The buffer is written last.
pub fn write(s: &[u8], wkb: &mut [u8]) -> Result<usize, Refusal>
    ensures { (result ≡ write_of s.now (length wkb.old)) × (wkb.new ≡ written_buffer s.now wkb.old) × CheckedObjectMeans s.now (check_object s.now) }
{
    let layout = check_alone::check_object(s)?;
    if layout.shape.is_region() {
        return Reason::Malformed.at(0);
    }
    fill(Object { bytes: s, layout }, wkb)
}
